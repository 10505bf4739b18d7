//! Reading a chart, one byte after another.
ghost use Rattle.std.specs.Prelude.{◌≡◌, ◌+◌, ◌<◌, ℕ, List, length, slice_index, true, false, MatchResult};
ghost use Rattle.batch_text.specs.NameText.{IsName};
ghost use Rattle.batch_recipe.specs.Diagram.{label};
ghost use Rattle.batch_reader.specs.Ascii.{comma};
ghost use Rattle.batch_reader.specs.ChartGrammar.{is_chart_space};
ghost use Rattle.batch_reader.specs.ChartMachine.{a_chart, begin, begin_operator, finish, step, take_comma, take_sign, with_after, word_of, IsGood};
ghost use Rattle.batch_reader.specs.ChartView.{Gives, found_view, frames_view, lexeme_view, state_view, want_view};

use crate::chart_fault::Stop;
use crate::firsts::Firsts;
use crate::lexeme::Lexeme;
use crate::signs::{take_comma, take_sign};
use crate::stack::pop;
use crate::state::State;
use crate::tokens::{end_operator, end_token, go_on};
use crate::want::Want;
use crate::word::{Word, name_of, word_of};
use batch_recipe::{Chart, Op};
use std::alloc::Global;

/// Begins a token, if it is one of those wanted.
fn starts(state: &mut State, is_wanted: bool, lexeme: Lexeme) -> Result<(), Stop>
    ensures { MatchResult result (λ _. (is_wanted ≡ true) × (state.new ≡ record state.old { lexeme = lexeme }))
        (λ stop. (stop ≡ Stop.NotAChart) × (is_wanted ≡ false)) }
{
    if !is_wanted {
        return Err(Stop::NotAChart);
    }
    state.lexeme = lexeme;
    Ok(())
}

/// Reads an operator's first byte, or the sign `=`.
fn begin_operator(state: &mut State, byte: u8) -> Result<(), Stop>
    ensures { (text : List ℕ) (before after : ℕ) → Gives (λ _. state_view text after state.new) result (begin_operator byte (state_view text before state.old)) }
{
    match byte {
        b'<' => starts(state, true, Lexeme::Less),
        b'>' => starts(state, true, Lexeme::More),
        b'/' => starts(state, true, Lexeme::Slash),
        b'=' => end_operator(state, Op::Equal),
        _ => Err(Stop::NotAChart),
    }
}

/// Reads a parenthesis, a comma or a colon.
fn begin_sign(alloc: Global, state: &mut State, place: usize, byte: u8) -> Result<(), Stop>
    ensures { (text : List ℕ) (before after : ℕ) → Gives (λ _. state_view text after state.new) result
        (with_after place (state_view text before state.old) (take_sign (want_view state.old.want) byte (frames_view state.old.stack.items))) }
{
    state.firsts = state.firsts.with_sign(&state.want, place);
    take_sign(alloc, &mut state.want, byte, &mut state.stack)?;
    state.lexeme = Lexeme::Nothing;
    Ok(())
}

/// Whether the byte is a space, a tab, a line feed or a carriage return.
fn is_chart_space(byte: u8) -> bool
    ensures { result ≡ is_chart_space byte }
{
    byte == b' ' || byte == b'\t' || byte == b'\n' || byte == b'\r'
}

/// Reads a byte that continues no token.
#[tactic(auto, unfolding(crate::specs::ChartMachine::begin), using(crate::proofs::ChartTexts::just_one))]
fn begin(alloc: Global, text: &[u8], state: &mut State, place: usize) -> Result<(), Stop>
    requires { place < length text.now }
    ensures { Gives (λ _. state_view text.now (place + 1) state.new) result
        (begin place (slice_index text.now place) (state_view text.now place state.old)) }
{
    let byte = text[place];
    if is_chart_space(byte) {
        return starts(state, true, Lexeme::Nothing);
    }
    if byte.is_ascii_alphabetic() {
        let is_wanted = state.want.takes_word();
        return starts(state, is_wanted, Lexeme::Letters(place));
    }
    if byte.is_ascii_digit() {
        let is_wanted = state.want.takes_number();
        return starts(state, is_wanted, Lexeme::Digits(place));
    }
    if state.want.takes_operator() {
        return begin_operator(state, byte);
    }
    begin_sign(alloc, state, place, byte)
}

/// Whether a comma ends a label here, where a chart is wanted.
#[inline(always)]
fn ends_label(want: &Want, word: &[u8], byte: u8) -> bool
    ensures { result ≡ true → (want_view want.now ≡ a_chart) × (word_of word.now ≡ Word.Name) × (byte ≡ comma) }
{
    byte == b',' && matches!(want, Want::Chart) && matches!(word_of(word), Word::Name)
}

/// Reads the comma behind the word, which is a label. Most charts are rows of labels, and a row takes each where it lies.
fn end_label(alloc: Global, word: &[u8], state: &mut State) -> Result<(), Stop>
    requires name { IsName word.now }
    requires chart { want_view state.old.want ≡ a_chart }
    ensures { (text : List ℕ) (before after : ℕ) → Gives (λ _. state_view text after state.new) result
        (with_after before (state_view text before state.old) (take_comma (label word.now) (frames_view state.old.stack.items))) }
{
    let chart = Chart::Label(name_of(alloc, word)?);
    take_comma(&mut state.want, chart, &mut state.stack)?;
    state.lexeme = Lexeme::Nothing;
    Ok(())
}

/// Reads the byte at the place.
#[tactic(auto, unfolding(crate::specs::ChartMachine::step), using(crate::proofs::ChartTexts::begun_name))]
pub fn step(alloc: Global, text: &[u8], state: &mut State, place: usize) -> Result<(), Stop>
    requires inside { place < length text.now }
    requires good { IsGood (lexeme_view text.now place state.old.lexeme) }
    ensures { Gives (λ _. state_view text.now (place + 1) state.new) result
        (step place (slice_index text.now place) (state_view text.now place state.old)) }
{
    if let Lexeme::Letters(start) = state.lexeme
        && ends_label(&state.want, &text[start..place], text[place])
    {
        return end_label(alloc, &text[start..place], state);
    }
    if state.lexeme.continues(text[place]) {
        return go_on(text, state, place);
    }
    if !matches!(state.lexeme, Lexeme::Nothing) {
        end_token(alloc, text, state, place)?;
    }
    begin(alloc, text, state, place)
}

/// Reads the end of the text.
#[tactic(auto, unfolding(crate::specs::ChartMachine::finish), using(crate::proofs::ChartFrames::frames_view_nil))]
pub fn finish(alloc: Global, text: &[u8], mut state: State) -> Result<(Chart, Firsts), Stop>
    requires { IsGood (lexeme_view text.now (length text.now) state.lexeme) }
    ensures { Gives found_view result (finish (length text.now) (state_view text.now (length text.now) state)) }
{
    end_token(alloc, text, &mut state, text.len())?;
    let State {
        lexeme: _,
        want,
        mut stack,
        firsts,
    } = state;
    match want {
        Want::AfterChart(chart) => match pop(&mut stack) {
            None => Ok((chart, firsts)),
            Some(_) => Err(Stop::NotAChart),
        },
        _ => Err(Stop::NotAChart),
    }
}
