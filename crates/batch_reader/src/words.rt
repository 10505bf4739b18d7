//! The change of the wanted token by a whole word.
ghost use Rattle.std.specs.Prelude.{◌≡◌, ◌≢◌, ℕ, List};
ghost use Rattle.batch_text.specs.NameText.{IsName};
ghost use Rattle.batch_recipe.specs.declared.condition.Op.{Op as Operator};
ghost use Rattle.batch_reader.specs.ChartMachine.{Test as Around, an_operand, deeper, take_chart_word, take_else, take_name_word, take_operand_word, take_word, word_of};
ghost use Rattle.batch_reader.specs.ChartView.{Gives, test_view, want_view};

use crate::chart_fault::Stop;
use crate::want::{Test, Want};
use crate::word::{Word, name_of, word_of};
use batch_recipe::{Chart, Condition, MAX_DEPTH, Op, Term};
use batch_text::Name;
use std::alloc::Global;
use std::mem::replace;

/// Begins a form inside `depth` others, if that is allowed. Its opening is wanted next.
fn deeper(depth: usize, want: &mut Want, opening: Want) -> Result<(), Stop>
    ensures { Gives (λ _. want_view want.new) result (deeper depth (want_view opening)) }
{
    if depth < MAX_DEPTH {
        want.set(opening);
        Ok(())
    } else {
        Err(Stop::NotAChart)
    }
}

/// Reads one of the six words with a meaning, as the first word of a chart.
fn take_chart_keyword(want: &mut Want, kind: Word, depth: usize) -> Result<(), Stop>
    requires { kind ≢ Word.Name }
    ensures { (bytes : List ℕ) → Gives (λ _. want_view want.new) result (take_chart_word kind bytes depth) }
{
    match kind {
        Word::Skip => {
            want.set_chart(Chart::Skip);
            Ok(())
        }
        Word::Seq => deeper(depth, want, Want::OpenSeq),
        Word::Par => deeper(depth, want, Want::OpenPar),
        Word::Sel => deeper(depth, want, Want::OpenSel),
        Word::Loop => deeper(depth, want, Want::OpenLoop),
        Word::Name | Word::Else => Err(Stop::NotAChart),
    }
}

/// Reads the first word of a chart. Most are labels.
fn take_chart_word(alloc: Global, want: &mut Want, word: &[u8], depth: usize) -> Result<(), Stop>
    requires { IsName word.now }
    ensures { Gives (λ _. want_view want.new) result (take_chart_word (word_of word.now) word.now depth) }
{
    match word_of(word) {
        Word::Name => {
            want.set_chart(Chart::Label(name_of(alloc, word)?));
            Ok(())
        }
        kind => take_chart_keyword(want, kind, depth),
    }
}

/// Reads the word `else`, which may follow a case.
fn take_else(test: Test) -> Result<Want, Stop>
    ensures { Gives want_view result (take_else (test_view test)) }
{
    match test {
        Test::Sel(cases) => {
            if cases.is_empty() {
                Err(Stop::NotAChart)
            } else {
                Ok(Want::AfterElse(cases))
            }
        }
        Test::Loop(_) => Err(Stop::NotAChart),
    }
}

/// Reads the first word of a condition, or `else`.
fn take_name_word(alloc: Global, kind: Word, word: &[u8], test: Test) -> Result<Want, Stop>
    requires { IsName word.now }
    ensures { Gives want_view result (take_name_word kind word.now (test_view test)) }
{
    match kind {
        Word::Name => Ok(Want::Operator(test, name_of(alloc, word)?)),
        Word::Else => take_else(test),
        Word::Skip | Word::Seq | Word::Par | Word::Sel | Word::Loop => Err(Stop::NotAChart),
    }
}

/// Reads the last word of a condition.
fn take_operand_word(
    alloc: Global,
    kind: Word,
    word: &[u8],
    test: Test,
    name: Name,
    op: Op,
) -> Result<Want, Stop>
    requires { IsName word.now }
    ensures { Gives want_view result (take_operand_word kind word.now (test_view test) name op) }
{
    match kind {
        Word::Name => {
            let term = Term::Named(name_of(alloc, word)?);
            Ok(Want::AfterCond(test, Condition { name, op, term }))
        }
        Word::Skip | Word::Seq | Word::Par | Word::Sel | Word::Loop | Word::Else => {
            Err(Stop::NotAChart)
        }
    }
}

/// Reads a word as the right side of a condition.
fn end_condition(alloc: Global, want: &mut Want, word: &[u8]) -> Result<(), Stop>
    requires { IsName word.now }
    ensures { (test : Around) (name : List ℕ) (op : Operator) → want_view want.old ≡ an_operand test name op
        → Gives (λ _. want_view want.new) result (take_operand_word (word_of word.now) word.now test name op) }
{
    *want = match replace(want, Want::Chart) {
        Want::Operand(test, name, op) => {
            take_operand_word(alloc, word_of(word), word, test, name, op)?
        }
        _ => return Err(Stop::NotAChart),
    };
    Ok(())
}

/// Reads a word inside `depth` forms. Most begin a chart, and move nothing out of `want`.
pub fn take_word(alloc: Global, want: &mut Want, word: &[u8], depth: usize) -> Result<(), Stop>
    requires { IsName word.now }
    ensures { Gives (λ _. want_view want.new) result (take_word (want_view want.old) word.now depth) }
{
    match want {
        Want::Chart => take_chart_word(alloc, want, word, depth),
        Want::Name(test) => {
            let test = replace(test, Test::Loop(0));
            want.set(take_name_word(alloc, word_of(word), word, test)?);
            Ok(())
        }
        Want::Operand(_, _, _) => end_condition(alloc, want, word),
        _ => Err(Stop::NotAChart),
    }
}
