//! The lines of the state that a record gives.
ghost use Rattle.std.specs.Prelude.{◌≡◌, ◌++◌, ◌∷◌, [], IfOk, OnOk, codes, map};
ghost use Rattle.std.specs.List.Sorted.{IsStrictlySortedBy};
ghost use Rattle.std.specs.Map.{keys_of};
ghost use Rattle.std.specs.Ordering.{nat_cmp};
ghost use Rattle.batch_recipe.specs.Texts.{line_text, place_text};
ghost use Rattle.batch_record.specs.Kept.{Keeps, kept_claim, kept_claims, kept_live, lives_of, listed_of, listed_rows};
ghost use Rattle.batch_record.specs.Listing.{IsTextOf, batch_words, claim_words, live_words, lines_behind};
ghost use Rattle.batch_record.specs.Telling.{Tale};
ghost use Rattle.batch_wire.specs.RecordText.{state_text};

use crate::batches::{Batch, Batches};
use crate::live::LivePhase;
use crate::memory::NoMemory;
use crate::standing::Kept;
use crate::status::Status;
use batch_matrix::State;
use batch_text::Place;
use itoa::Buffer;
use std::alloc::Global;

impl Status {
    /// The lines of the state, each after the mark: batches by number, holders by resource, number and place, waiting acts by
    /// resource and then in order of asking, live phases by unit and phase.
    // claim: lines of the state
    pub fn text(mut self, alloc: Global, mark: &[u8]) -> Result<Vec<u8>, NoMemory>
        ensures { IfOk result (λ text. (tale : Tale) → Keeps self tale → IsTextOf tale mark.now text.items) }
    {
        self.holders.sort_as_holders()?;
        self.waiters.sort_as_waiters()?;
        self.live.sort()?;
        let mut text = Vec::new(alloc);
        put_batches(&mut text, mark, &self.batches)?;
        put_claims(alloc, &mut text, mark, b"holds", self.holders.shares())?;
        put_claims(alloc, &mut text, mark, b"waits", self.waiters.shares())?;
        put_phases(alloc, &mut text, mark, self.live.phases())?;
        Ok(text)
    }
}

fn put_batches(text: &mut Vec<u8>, mark: &[u8], batches: &Batches) -> Result<(), NoMemory>
    ensures rise { OnOk result (IsStrictlySortedBy nat_cmp (keys_of (listed_rows batches.now))) }
    ensures put { OnOk result (text.new.items ≡ text.old.items ++ lines_behind mark.now (map batch_words (listed_rows batches.now))) }
{
    for (number, batch) in batches.listed.iter() {
        put_batch(text, mark, *number, batch)?;
    }
    Ok(())
}

fn put_claims(
    alloc: Global,
    text: &mut Vec<u8>,
    mark: &[u8],
    word: &[u8],
    claims: &[Kept],
) -> Result<(), NoMemory>
    ensures { OnOk result (text.new.items ≡ text.old.items ++ lines_behind mark.now (map (claim_words word.now) (kept_claims claims.now))) }
{
    for kept in claims {
        put_claim(alloc, text, mark, word, kept)?;
    }
    Ok(())
}

fn put_phases(
    alloc: Global,
    text: &mut Vec<u8>,
    mark: &[u8],
    phases: &[LivePhase],
) -> Result<(), NoMemory>
    ensures { OnOk result (text.new.items ≡ text.old.items ++ lines_behind mark.now (map live_words (lives_of phases.now))) }
{
    for phase in phases {
        put_phase(alloc, text, mark, phase)?;
    }
    Ok(())
}

fn put_batch(text: &mut Vec<u8>, mark: &[u8], number: u64, batch: &Batch) -> Result<(), NoMemory>
    ensures { OnOk result (text.new.items ≡ text.old.items ++ (mark.now ++ line_text (batch_words (number, listed_of batch.now)))) }
{
    let mut number_digits = Buffer::new();
    let mut size_digits = Buffer::new();
    put_line(
        text,
        mark,
        &[
            b"batch",
            number_digits.format(number).as_bytes(),
            batch.recipe.text().as_bytes(),
            size_digits.format(batch.size).as_bytes(),
            state_text(&batch.state),
        ],
    )
}

fn put_claim(
    alloc: Global,
    text: &mut Vec<u8>,
    mark: &[u8],
    word: &[u8],
    kept: &Kept,
) -> Result<(), NoMemory>
    ensures { OnOk result (text.new.items ≡ text.old.items ++ (mark.now ++ line_text (claim_words word.now (kept_claim kept.now)))) }
{
    let mut batch_digits = Buffer::new();
    let mut unit_digits = Buffer::new();
    let place = place_text(alloc, &kept.place)?;
    put_line(
        text,
        mark,
        &[
            word,
            kept.resource.text().as_bytes(),
            batch_digits.format(kept.batch).as_bytes(),
            place.as_slice(),
            unit_digits.format(kept.units).as_bytes(),
        ],
    )
}

fn put_phase(
    alloc: Global,
    text: &mut Vec<u8>,
    mark: &[u8],
    phase: &LivePhase,
) -> Result<(), NoMemory>
    ensures { OnOk result (text.new.items ≡ text.old.items ++ (mark.now ++ line_text (live_words (kept_live phase.now)))) }
{
    let mut digits = Buffer::new();
    let place = place_text(alloc, &phase.place)?;
    put_line(
        text,
        mark,
        &[
            b"runs",
            phase.unit.text().as_bytes(),
            phase.phase.text().as_bytes(),
            digits.format(phase.batch).as_bytes(),
            place.as_slice(),
            state_text(&phase.state),
        ],
    )
}

/// Appends the mark, the words with one space between, and a line feed.
fn put_line(text: &mut Vec<u8>, mark: &[u8], words: &[&[u8]]) -> Result<(), NoMemory>
    ensures { OnOk result (text.new.items ≡ text.old.items ++ (mark.now ++ line_text (map (λ word. word.now) words.now))) }
{
    put(text, mark)?;
    put_words(text, words)
}

fn put_words(text: &mut Vec<u8>, words: &[&[u8]]) -> Result<(), NoMemory>
    ensures { OnOk result (text.new.items ≡ text.old.items ++ line_text (map (λ word. word.now) words.now)) }
{
    let mut rest = words;
    while let [word, others @ ..] = rest {
        put(text, word)?;
        if !others.is_empty() {
            put(text, b" ")?;
        }
        rest = others;
    }
    put(text, b"\n")
}

fn place_text(alloc: Global, place: &Place) -> Result<Vec<u8>, NoMemory>
    ensures { IfOk result (λ text. text.items ≡ place_text place.now) }
{
    let mut text = Vec::new(alloc);
    put_numbers(&mut text, place.numbers())?;
    Ok(text)
}

fn put_numbers(text: &mut Vec<u8>, numbers: &[u16]) -> Result<(), NoMemory>
    ensures { OnOk result (text.new.items ≡ text.old.items ++ place_text numbers.now) }
{
    let mut rest = numbers;
    while let [number, others @ ..] = rest {
        let mut digits = Buffer::new();
        put(text, digits.format(*number).as_bytes())?;
        if !others.is_empty() {
            put(text, b".")?;
        }
        rest = others;
    }
    Ok(())
}

/// Appends the bytes.
pub(crate) fn put(text: &mut Vec<u8>, bytes: &[u8]) -> Result<(), NoMemory>
    ensures { OnOk result (text.new.items ≡ text.old.items ++ bytes.now) }
{
    Ok(text.extend_from_slice(bytes)?)
}

fn state_text(state: &State) -> &[u8]
    ensures { result.now ≡ state_text state.now }
{
    match *state {
        State::Idle => b"idle",
        State::Running => b"running",
        State::Pausing => b"pausing",
        State::Paused => b"paused",
        State::Holding => b"holding",
        State::Held => b"held",
        State::Restarting => b"restarting",
        State::Stopping => b"stopping",
        State::Stopped => b"stopped",
        State::Aborting => b"aborting",
        State::Aborted => b"aborted",
        State::Complete => b"complete",
    }
}
