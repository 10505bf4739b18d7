//! Reading a line of a record.
ghost use Rattle.std.specs.Prelude.{◌≡◌, ◌∷◌, MatchOption};
ghost use Rattle.batch_record.specs.RecordLine.{words_left, need_of_word, claim_told_of, claim_with, batch_state_of, removed_of, report_told_of, ok_of, other_of, begun_of, passed_of, ended_of, phase_with, sent_of, started_of, created_of, refusal_of_words, code_alone, state_alone, formula_refusal_of_words, left_out_of, out_of_words, out_of_line};
ghost use Rattle.batch_record.specs.Laws.{TellsOut, TellsNothing};
ghost use Rattle.batch_record.specs.Reading.{GivesAsDefined, claim_told, report_told, begun_told, claim_and_place_told, ended_told, phase_told, sent_told, started_told, created_told, refusal_told, out_told};

use crate::pairs::{are_plain_values, are_role_pairs};
use crate::told::{
    Begun, Claim, Created, Ended, Passed, PhaseStep, RecordedOut, Refused, Reported, Sent, Started,
};
use crate::word::{is_plain_place, plain_number, read_need, state_of_word};
use crate::words::Words;
use batch_matrix::State;
use batch_text::is_name;
use batch_wire::{command_of, word_of_report};

/// The out of the line, or None if the line is the text of no out. The line comes without its line feed.
// claim: lines told
pub fn read_out(line: &[u8]) -> Option<RecordedOut<'_>>
    ensures said { GivesAsDefined out_told result (out_of_line line.now) }
    ensures told { MatchOption result (TellsNothing line.now) (λ told. TellsOut line.now (out_told told)) }
{
    read_words(Words::of(line))
}

fn read_words(mut line: Words<'_>) -> Option<RecordedOut<'_>>
    ensures { GivesAsDefined out_told result (out_of_words (words_left line.entry.rest)) }
{
    let first = line.next()?;
    if first == b"grant".as_slice() {
        Some(RecordedOut::Granted(read_claim(line)?))
    } else if first == b"ask".as_slice() {
        Some(RecordedOut::Asked(read_claim(line)?))
    } else if first == b"release".as_slice() {
        Some(RecordedOut::Released(read_claim(line)?))
    } else if first == b"pass".as_slice() {
        Some(RecordedOut::Passed(read_passed(line)?))
    } else if first == b"ok".as_slice() {
        read_ok(line)
    } else if first == b"state".as_slice() {
        let (batch, state) = read_batch(line)?;
        Some(RecordedOut::Stated { batch, state })
    } else {
        read_others(first, line)
    }
}

/// Reads the kinds of lines that change no holders, waiting acts or states of batches, and `created`.
fn read_others<'a>(first: &[u8], line: Words<'a>) -> Option<RecordedOut<'a>>
    ensures { GivesAsDefined out_told result (other_of first.now (words_left line.entry.rest)) }
{
    if first == b"begin".as_slice() {
        Some(RecordedOut::Begun(read_begun(line)?))
    } else if first == b"end".as_slice() {
        Some(RecordedOut::Ended(read_ended(line)?))
    } else if first == b"send".as_slice() {
        Some(RecordedOut::Sent(read_sent(line)?))
    } else if first == b"start".as_slice() {
        Some(RecordedOut::Started(read_started(line)?))
    } else if first == b"created".as_slice() {
        Some(RecordedOut::Created(read_created(line)?))
    } else if first == b"refused".as_slice() {
        Some(RecordedOut::Refused(read_refused(line)?))
    } else {
        None
    }
}

/// An act, and its name.
fn read_begun(mut arguments: Words<'_>) -> Option<Begun<'_>>
    ensures { GivesAsDefined begun_told result (begun_of (words_left arguments.entry.rest)) }
{
    let batch = arguments.next()?;
    let place = arguments.next()?;
    let name = arguments.next()?;
    if arguments.next().is_some() {
        return None;
    }
    let batch = plain_number(batch)?;
    if is_plain_place(place) && is_name(name) {
        Some(Begun { batch, place, name })
    } else {
        None
    }
}

/// An act.
fn read_ended(mut arguments: Words<'_>) -> Option<Ended<'_>>
    ensures { GivesAsDefined ended_told result (ended_of (words_left arguments.entry.rest)) }
{
    let batch = arguments.next()?;
    let place = arguments.next()?;
    if arguments.next().is_some() {
        return None;
    }
    let batch = plain_number(batch)?;
    if is_plain_place(place) {
        Some(Ended { batch, place })
    } else {
        None
    }
}

/// A phase of a unit at a place, if the words are a batch, a place and names.
pub fn phase_with<'a>(
    batch: &'a [u8],
    place: &'a [u8],
    unit: &'a [u8],
    phase: &'a [u8],
) -> Option<PhaseStep<'a>>
    ensures { GivesAsDefined phase_told result (phase_with batch.now place.now unit.now phase.now) }
{
    let batch = plain_number(batch)?;
    if is_plain_place(place) && is_name(unit) && is_name(phase) {
        Some(PhaseStep {
            batch,
            place,
            unit,
            phase,
        })
    } else {
        None
    }
}

/// A phase, and the command that is sent to it.
fn read_sent(mut arguments: Words<'_>) -> Option<Sent<'_>>
    ensures { GivesAsDefined sent_told result (sent_of (words_left arguments.entry.rest)) }
{
    let batch = arguments.next()?;
    let place = arguments.next()?;
    let unit = arguments.next()?;
    let phase = arguments.next()?;
    let command = arguments.next()?;
    if arguments.next().is_some() {
        return None;
    }
    let step = phase_with(batch, place, unit, phase)?;
    let command = command_of(command)?;
    Some(Sent { step, command })
}

/// A phase, and the values that it is handed.
fn read_started(mut arguments: Words<'_>) -> Option<Started<'_>>
    ensures { GivesAsDefined started_told result (started_of (words_left arguments.entry.rest)) }
{
    let batch = arguments.next()?;
    let place = arguments.next()?;
    let unit = arguments.next()?;
    let phase = arguments.next()?;
    let step = phase_with(batch, place, unit, phase)?;
    if are_plain_values(arguments) {
        Some(Started {
            step,
            values: arguments,
        })
    } else {
        None
    }
}

/// A batch, its recipe, its size and its roles.
fn read_created(mut arguments: Words<'_>) -> Option<Created<'_>>
    ensures { GivesAsDefined created_told result (created_of (words_left arguments.entry.rest)) }
{
    let batch = arguments.next()?;
    let recipe = arguments.next()?;
    let size = arguments.next()?;
    let batch = plain_number(batch)?;
    let size = plain_number(size)?;
    if is_name(recipe) && are_role_pairs(arguments) {
        Some(Created {
            batch,
            recipe,
            size,
            roles: arguments,
        })
    } else {
        None
    }
}

/// Why an event was refused.
fn read_refused(mut arguments: Words<'_>) -> Option<Refused<'_>>
    ensures { GivesAsDefined refusal_told result (refusal_of_words (words_left arguments.entry.rest)) }
{
    let code = arguments.next()?;
    match arguments.next() {
        None => refused_alone(code),
        Some(word) => refused_for(code, word, arguments),
    }
}

fn refused_alone(code: &[u8]) -> Option<Refused<'_>>
    ensures { GivesAsDefined refusal_told result (code_alone code.now) }
{
    if code == b"E1".as_slice() {
        Some(Refused::UnknownRecipe)
    } else if code == b"E2".as_slice() {
        Some(Refused::UnknownBatch)
    } else if code == b"E4".as_slice() {
        Some(Refused::NoLivePhase)
    } else if code == b"E6".as_slice() {
        Some(Refused::BadOutput)
    } else if code == b"E8".as_slice() {
        Some(Refused::Full)
    } else if code == b"E10".as_slice() {
        Some(Refused::MovesPending)
    } else if code == b"E11".as_slice() {
        Some(Refused::NoMemory)
    } else if code == b"E12".as_slice() {
        Some(Refused::BadBinding)
    } else {
        None
    }
}

fn refused_for<'a>(code: &[u8], word: &'a [u8], others: Words<'a>) -> Option<Refused<'a>>
    ensures { GivesAsDefined refusal_told result (refusal_of_words (code.now ∷ word.now ∷ words_left others.entry.rest)) }
{
    if code == b"E3".as_slice() {
        Some(Refused::CommandNotAccepted(state_alone(word, others)?))
    } else if code == b"E5".as_slice() {
        Some(Refused::ReportNotExpected(state_alone(word, others)?))
    } else if code == b"E9".as_slice() {
        Some(Refused::NotIdle(state_alone(word, others)?))
    } else if code == b"E7".as_slice() {
        refused_formula(word, others)
    } else if code == b"E13".as_slice() {
        refused_left_out(word, others)
    } else {
        None
    }
}

fn state_alone(word: &[u8], mut others: Words<'_>) -> Option<State>
    ensures { result ≡ state_alone (word.now ∷ words_left others.entry.rest) }
{
    if others.next().is_some() {
        return None;
    }
    state_of_word(word)
}

fn refused_formula<'a>(cause: &'a [u8], mut others: Words<'a>) -> Option<Refused<'a>>
    ensures { GivesAsDefined refusal_told result (formula_refusal_of_words (cause.now ∷ words_left others.entry.rest)) }
{
    let Some(name) = others.next() else {
        return if cause == b"F1".as_slice() {
            Some(Refused::BadSize)
        } else {
            None
        };
    };
    if others.next().is_some() {
        return None;
    }
    if cause == b"F2".as_slice() && is_name(name) {
        Some(Refused::BadValue(name))
    } else {
        None
    }
}

fn refused_left_out<'a>(name: &'a [u8], mut others: Words<'a>) -> Option<Refused<'a>>
    ensures { GivesAsDefined refusal_told result (left_out_of (name.now ∷ words_left others.entry.rest)) }
{
    if others.next().is_some() {
        return None;
    }
    if is_name(name) {
        Some(Refused::OutputLeftOut(name))
    } else {
        None
    }
}

/// A batch, a place and a need.
fn read_claim(mut arguments: Words<'_>) -> Option<Claim<'_>>
    ensures { GivesAsDefined claim_told result (claim_told_of (words_left arguments.entry.rest)) }
{
    let batch = arguments.next()?;
    let place = arguments.next()?;
    let need = arguments.next()?;
    if arguments.next().is_some() {
        return None;
    }
    claim_with(batch, place, need)
}

fn claim_with<'a>(batch: &'a [u8], place: &'a [u8], need: &'a [u8]) -> Option<Claim<'a>>
    ensures { GivesAsDefined claim_told result (claim_with batch.now place.now (need_of_word need.now)) }
{
    let (resource, units) = read_need(need)?;
    let batch = plain_number(batch)?;
    if is_plain_place(place) {
        Some(Claim {
            batch,
            place,
            resource,
            units,
        })
    } else {
        None
    }
}

/// A batch, a place, the place of a unit procedure and a need.
fn read_passed(mut arguments: Words<'_>) -> Option<Passed<'_>>
    ensures { GivesAsDefined claim_and_place_told result (passed_of (words_left arguments.entry.rest)) }
{
    let batch = arguments.next()?;
    let place = arguments.next()?;
    let to = arguments.next()?;
    let need = arguments.next()?;
    if arguments.next().is_some() {
        return None;
    }
    let claim = claim_with(batch, place, need)?;
    if is_plain_place(to) {
        Some(Passed { claim, to })
    } else {
        None
    }
}

/// A batch and its state.
fn read_batch(mut arguments: Words<'_>) -> Option<(u64, State)>
    ensures { result ≡ batch_state_of (words_left arguments.entry.rest) }
{
    let batch = arguments.next()?;
    let state = arguments.next()?;
    if arguments.next().is_some() {
        return None;
    }
    let state = state_of_word(state)?;
    let batch = plain_number(batch)?;
    Some((batch, state))
}

/// A batch alone.
fn read_removed(mut arguments: Words<'_>) -> Option<u64>
    ensures { result ≡ removed_of (words_left arguments.entry.rest) }
{
    let batch = arguments.next()?;
    if arguments.next().is_some() {
        return None;
    }
    plain_number(batch)
}

/// A reply to an event that was accepted.
fn read_ok(mut line: Words<'_>) -> Option<RecordedOut<'_>>
    ensures { GivesAsDefined out_told result (ok_of (words_left line.entry.rest)) }
{
    let first = line.next()?;
    if first == b"report".as_slice() {
        return Some(RecordedOut::Reported(read_report(line)?));
    }
    if first == b"remove".as_slice() {
        let batch = read_removed(line)?;
        return Some(RecordedOut::Removed { batch });
    }
    let command = command_of(first)?;
    let (batch, state) = read_batch(line)?;
    Some(RecordedOut::Ordered {
        command,
        batch,
        state,
    })
}

/// A report that was accepted.
fn read_report(mut arguments: Words<'_>) -> Option<Reported<'_>>
    ensures { GivesAsDefined report_told result (report_told_of (words_left arguments.entry.rest)) }
{
    let unit = arguments.next()?;
    let phase = arguments.next()?;
    let word = arguments.next()?;
    let batch = arguments.next()?;
    let place = arguments.next()?;
    let state = arguments.next()?;
    if arguments.next().is_some() {
        return None;
    }
    let word = word_of_report(word)?;
    let state = state_of_word(state)?;
    let batch = plain_number(batch)?;
    if is_name(unit) && is_name(phase) && is_plain_place(place) {
        Some(Reported {
            unit,
            phase,
            word,
            batch,
            place,
            state,
        })
    } else {
        None
    }
}
