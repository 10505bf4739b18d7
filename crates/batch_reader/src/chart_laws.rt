//! Laws of chart texts.
ghost use Rattle.std.specs.Prelude.{◌≡◌, ◌↔◌, ℕ, List, [], true};
ghost use Rattle.batch_recipe.specs.Diagram.{Diagram};
ghost use Rattle.batch_recipe.specs.WellFormed.{has_no_par};
ghost use Rattle.batch_reader.specs.ChartAnswer.{HasFaultAt, IsOutsideAt, first_of};
ghost use Rattle.batch_reader.specs.ChartForm.{IsFormed};
ghost use Rattle.batch_reader.specs.ChartGrammar.{IsChart, IsChartWithPars, IsWideChart, Offsets};
ghost use Rattle.batch_reader.specs.declared.chart_reading.TheConstants.{MAX_CHART_LEN};

/// A text has at most one chart.
// claim: one chart a text
pub fn a_text_has_one_chart()
    ensures { (text : List ℕ) (a b : Diagram) → IsChart text a → IsChart text b → a ≡ b }
{}

/// All readings of a text, whatever range its numbers have, are of one chart, and have the same first number out of range and
/// the same first `par`.
// claim: readings agree
pub fn readings_of_a_text_agree()
    ensures chart { (text : List ℕ) (a b : Diagram) (f g : Offsets) → IsWideChart text a f → IsWideChart text b g → a ≡ b }
    ensures outside { (text : List ℕ) (a b : Diagram) (f g : Offsets) → IsWideChart text a f → IsWideChart text b g → first_of f.outside ≡ first_of g.outside }
    ensures first_par { (text : List ℕ) (a b : Diagram) (f g : Offsets) → IsWideChart text a f → IsWideChart text b g → first_of f.pars ≡ first_of g.pars }
{}

/// A text is refused at one offset alone, and for one cause.
// claim: one offset a text
pub fn a_text_is_refused_at_one_offset()
    ensures no_chart { (text : List ℕ) (m n : ℕ) → HasFaultAt text m → HasFaultAt text n → m ≡ n }
    ensures out_of_range { (text : List ℕ) (m n : ℕ) → IsOutsideAt text m → IsOutsideAt text n → m ≡ n }
    ensures one_cause { (text : List ℕ) (m n : ℕ) → HasFaultAt text m → IsOutsideAt text n → ⊥ }
{}

/// A chart of the grammar is one that a recipe may have, once its names are declared.
// claim: formed charts
pub fn a_chart_is_well_formed()
    ensures { (text : List ℕ) (chart : Diagram) → IsChart text chart → IsFormed chart }
{}

/// A chart has a `par` just where one opens in its text.
// claim: `par` of a chart
#[tactic(auto, using(crate::proofs::ChartForms::has_its_pars))]
pub fn a_chart_has_its_pars()
    ensures { (text : List ℕ) (chart : Diagram) (pars : List ℕ) → IsChartWithPars text chart pars → (pars ≡ []) ↔ (has_no_par chart ≡ true) }
{}

/// The longest chart text of a document has this many bytes.
// claim: limit of a chart
pub fn chart_limit_is_fixed()
    ensures { MAX_CHART_LEN ≡ 16384 }
{}
