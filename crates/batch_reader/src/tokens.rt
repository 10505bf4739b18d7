//! The continuation and the end of a token.
ghost use Rattle.std.specs.Prelude.{◌≡◌, ◌+◌, ◌<◌, ◌≤◌, ℕ, List, length, slice_index, MatchResult};
ghost use Rattle.batch_text.specs.NameText.{IsName};
ghost use Rattle.batch_text.specs.NumberText.{IsNumber};
ghost use Rattle.batch_reader.specs.ChartMachine.{end_number, end_token, go_on, take_operator, take_word, with_want, IsGood};
ghost use Rattle.batch_reader.specs.ChartView.{Gives, frames_view, lexeme_view, state_view, want_view};

use crate::chart_fault::Stop;
use crate::lexeme::Lexeme;
use crate::numbers::{number_of, take_number, take_operator};
use crate::state::State;
use crate::words::take_word;
use batch_recipe::Op;
use batch_text::{MAX_DIGITS, MAX_NAME_LEN};
use std::alloc::Global;

/// Checks that a word or a number may be longer.
fn longer(token: &[u8], most: usize) -> Result<(), Stop>
    ensures { MatchResult result (λ _. length token.now < most) (λ stop. (stop ≡ Stop.NotAChart) × (most ≤ length token.now)) }
{
    if token.len() < most {
        Ok(())
    } else {
        Err(Stop::NotAChart)
    }
}

/// Ends the token, which is the operator.
pub fn end_operator(state: &mut State, op: Op) -> Result<(), Stop>
    ensures { (text : List ℕ) (before after : ℕ) → Gives (λ _. state_view text after state.new) result
        (with_want (state_view text before state.old) (take_operator (want_view state.old.want) op)) }
{
    take_operator(&mut state.want, op)?;
    state.lexeme = Lexeme::Nothing;
    Ok(())
}

/// Continues the token with the byte at the place.
#[tactic(auto, using(crate::proofs::ChartTexts::begun_name, crate::proofs::ChartTexts::begun_number, crate::proofs::ChartTexts::one_more))]
pub fn go_on(text: &[u8], state: &mut State, place: usize) -> Result<(), Stop>
    requires inside { place < length text.now }
    requires good { IsGood (lexeme_view text.now place state.old.lexeme) }
    ensures { Gives (λ _. state_view text.now (place + 1) state.new) result
        (go_on (lexeme_view text.now place state.old.lexeme) (slice_index text.now place) (state_view text.now place state.old)) }
{
    match state.lexeme {
        Lexeme::Nothing => Err(Stop::NotAChart),
        Lexeme::Letters(start) => longer(&text[start..place], MAX_NAME_LEN),
        Lexeme::Digits(start) => longer(&text[start..place], MAX_DIGITS),
        Lexeme::Less => end_operator(state, Op::AtMost),
        Lexeme::More => end_operator(state, Op::AtLeast),
        Lexeme::Slash => end_operator(state, Op::NotEqual),
    }
}

/// Ends the number before the byte at the place.
#[tactic(auto, unfolding(crate::specs::ChartMachine::end_number))]
fn end_number(digits: &[u8], state: &mut State, place: usize) -> Result<(), Stop>
    requires number { IsNumber digits.now }
    requires room { length digits.now ≤ place }
    ensures { (text : List ℕ) (before after : ℕ) → Gives (λ _. state_view text after state.new) result (end_number place digits.now (state_view text before state.old)) }
{
    let number = number_of(digits);
    state.firsts = state
        .firsts
        .with_number(&state.want, number, place - digits.len());
    take_number(&mut state.want, number)?;
    state.lexeme = Lexeme::Nothing;
    Ok(())
}

/// Ends the word.
#[tactic(auto, using(crate::proofs::ChartFrames::frames_view_length))]
fn end_word(alloc: Global, word: &[u8], state: &mut State) -> Result<(), Stop>
    requires { IsName word.now }
    ensures { (text : List ℕ) (before after : ℕ) → Gives (λ _. state_view text after state.new) result
        (with_want (state_view text before state.old) (take_word (want_view state.old.want) word.now (length (frames_view state.old.stack.items)))) }
{
    let depth = state.stack.len();
    take_word(alloc, &mut state.want, word, depth)?;
    state.lexeme = Lexeme::Nothing;
    Ok(())
}

/// Ends the token before the byte at the place.
#[tactic(auto, using(crate::proofs::ChartTexts::begun_name, crate::proofs::ChartTexts::begun_number))]
pub fn end_token(alloc: Global, text: &[u8], state: &mut State, place: usize) -> Result<(), Stop>
    requires inside { place ≤ length text.now }
    requires good { IsGood (lexeme_view text.now place state.old.lexeme) }
    ensures { Gives (λ _. state_view text.now place state.new) result
        (end_token place (lexeme_view text.now place state.old.lexeme) (state_view text.now place state.old)) }
{
    match state.lexeme {
        Lexeme::Nothing => Ok(()),
        Lexeme::Letters(start) => end_word(alloc, &text[start..place], state),
        Lexeme::Digits(start) => end_number(&text[start..place], state, place),
        Lexeme::Less => end_operator(state, Op::Less),
        Lexeme::More => end_operator(state, Op::Greater),
        Lexeme::Slash => Err(Stop::NotAChart),
    }
}
