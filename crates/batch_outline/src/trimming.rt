//! Recipes without the charts that no node follows.
ghost use Rattle.std.specs.Prelude.{ℕ, ◌≡◌, ◌↔◌, Some, false, true, slice_get};
ghost use Rattle.batch_recipe.specs.declared.entry.Kind.TheVariants.{Act as act_kind};
ghost use Rattle.batch_outline.specs.Trimmed.{AreTrimmed, AreTrimmedActs, HasNode, IsTrimmed, IsWithoutChart};

use batch_recipe::{Act, Acts, Chart, Entry, Kind, LabelTable, MAX_ACTS, Outline, Recipe, Work};

/// Puts `skip` in place of each chart of the recipe that no node follows. Such charts may be as long as a document, and only warnings
/// look at them.
// claim: charts dropped
pub fn drop_idle_charts(recipe: &mut Recipe)
    ensures { IsTrimmed recipe.old recipe.new }
{
    let outline = &recipe.outline;
    trim(outline, &mut recipe.acts);
}

/// The same of the acts of a recipe with this outline.
fn trim(outline: &Outline, acts: &mut Acts)
    ensures { AreTrimmed outline.now.entries.items acts.old acts.new }
{
    let entries = &outline.entries;
    drop_charts(
        entries,
        LabelTable::UnitProcedures,
        &mut acts.unit_procedures,
    );
    drop_charts(entries, LabelTable::Operations, &mut acts.operations);
}

/// Puts `skip` in place of the charts of the acts of this table that no node is.
fn drop_charts(entries: &[Entry], table: LabelTable, acts: &mut [Act])
    ensures { AreTrimmedActs entries.now table 0 acts.old acts.new }
{
    let marks = acts_with_nodes(entries, table);
    for (number, has_node) in marks.iter().enumerate() {
        if !*has_node && number < acts.len() {
            let act = &mut acts[number];
            drop_chart(act);
        }
    }
}

/// Puts `skip` in place of the act's chart.
fn drop_chart(act: &mut Act)
    ensures { IsWithoutChart act.old act.new }
{
    act.work = Work::Follows(Chart::Skip);
}

/// Which acts of the table some node is, by their numbers.
fn acts_with_nodes(entries: &[Entry], table: LabelTable) -> [bool; MAX_ACTS]
    ensures { (number : ℕ) → slice_get result number ≡ Some false → ¬ (HasNode entries.now table number) }
{
    let mut marks = [false; MAX_ACTS];
    for entry in entries {
        mark(&mut marks, entry.kind, table);
    }
    marks
}

/// Marks the act of a node, if it is one of this table.
fn mark(marks: &mut [bool], kind: Kind, table: LabelTable)
    ensures { (number : ℕ) → slice_get marks.new number ≡ Some false → (slice_get marks.old number ≡ Some false) × ¬ (kind ≡ act_kind table number) }
{
    if let Kind::Act(level, number) = kind {
        if is_same(level, table) && number < marks.len() {
            marks[number] = true;
        }
    }
}

/// Whether the two are the same table.
fn is_same(level: LabelTable, table: LabelTable) -> bool
    ensures { result ≡ true ↔ level ≡ table }
{
    match (level, table) {
        (LabelTable::UnitProcedures, LabelTable::UnitProcedures)
        | (LabelTable::Operations, LabelTable::Operations)
        | (LabelTable::Phases, LabelTable::Phases) => true,
        _ => false,
    }
}
