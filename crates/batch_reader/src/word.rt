//! The words of chart texts.
ghost use Rattle.std.specs.Prelude.{◌≡◌, ◌≢◌, IfOk, IsOkUnless};
ghost use Rattle.batch_text.specs.NameText.{IsName};
ghost use Rattle.batch_recipe.specs.WellFormed.{is_among, chart_words};
ghost use Rattle.batch_reader.specs.ChartMachine.{word_of};

use crate::chart_fault::Stop;
use batch_text::Name;
use std::alloc::Global;

/// The kind of a word: one of the six words with a meaning, or a name.
#[derive(Clone, Copy)]
pub enum Word {
    Name,
    Skip,
    Seq,
    Par,
    Sel,
    Loop,
    Else,
}

/// The kind of the word.
pub fn word_of(word: &[u8]) -> Word
    ensures { result ≡ word_of word.now }
{
    if word == b"skip".as_slice() {
        Word::Skip
    } else if word == b"seq".as_slice() {
        Word::Seq
    } else if word == b"par".as_slice() {
        Word::Par
    } else if word == b"sel".as_slice() {
        Word::Sel
    } else if word == b"loop".as_slice() {
        Word::Loop
    } else if word == b"else".as_slice() {
        Word::Else
    } else {
        Word::Name
    }
}

/// Whether the text is one of the six words with a meaning in charts, which name nothing: `skip`, `seq`, `par`, `sel`, `loop`
/// and `else`.
// claim: words of charts
#[tactic(auto, using(crate::proofs::ChartWords::chart_word_told))]
pub fn is_chart_word(text: &[u8]) -> bool
    ensures { result ≡ is_among chart_words text.now }
{
    !matches!(word_of(text), Word::Name)
}

/// The name that the word is.
pub fn name_of(alloc: Global, word: &[u8]) -> Result<Name, Stop>
    requires { IsName word.now }
    ensures value { IfOk result (λ name. name ≡ word.now) }
    ensures only_memory { IsOkUnless result Stop.Memory }
{
    Ok(Name::from_bytes_unchecked(alloc, word)?)
}
