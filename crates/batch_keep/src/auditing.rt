//! Auditing a record.
ghost use Rattle.std.specs.Prelude.{◌≡◌, ◌∷◌, [], IfOk, IfSome, List, ℕ};
ghost use Rattle.batch_model.specs.Plant.{opening};
ghost use Rattle.batch_engine.specs.View.{plant_of, setup};
ghost use Rattle.batch_wire.specs.EventLine.{event_of_line};
ghost use Rattle.batch_wire.specs.Known.{AreKnown};
ghost use Rattle.batch_wire.specs.Transcript.{lines_of};
ghost use Rattle.batch_keep.specs.Auditing.{IsAnswered, IsAudited, IsPassedOver};
ghost use Rattle.batch_keep.specs.Audits.{Finds};
ghost use Rattle.batch_keep.specs.Comparing.{IsCompared};

use crate::finding::{AuditFault, Finding};
use crate::record::Record;
use crate::wants::{is_free, is_want};
use batch_engine::Engine;
use batch_serve::{NoRemarks, answer_line, transcripts_are_safe};
use batch_verify::Cleared;
use batch_wire::{KnownPlaces, line_feed};
use std::alloc::Global;
use std::io::Read;

/// Reads the lines that were sent, and finds whether the record may be the machine's record of them over the cleared set. Comments of the
/// record are skipped. A refusal for want of memory is accepted if the machine might have given it: its event changes nothing then.
///
/// # Errors
///
/// `Read` if the lines that were sent can't be read; `Memory` if there is none for them, for the engine or for an answer.
// claim: a record found
pub fn audit<R: Read>(
    alloc: Global,
    cleared: Cleared,
    sent: &mut R,
    text: &[u8],
) -> Result<Finding, AuditFault>
    ensures { IfOk result (λ finding. IfSome (R.remaining sent.old) (λ input. Finds cleared (lines_of input) text.now finding)) }
{
    let mut input = Vec::new(alloc);
    sent.read_to_end(&mut input)?;
    audit_lines(alloc, cleared, &input, text)
}

/// Whether the record may be that of these lines.
fn audit_lines(
    alloc: Global,
    cleared: Cleared,
    sent: &[u8],
    text: &[u8],
) -> Result<Finding, AuditFault>
    ensures { IfOk result (Finds cleared (lines_of sent.now) text.now) }
{
    match Engine::new(alloc, cleared) {
        Ok(mut engine) => audit_each(alloc, &mut engine, sent, text),
        Err(_) => Err(AuditFault::Memory),
    }
}

/// Whether the record may be that of these lines, by an engine to which nothing was given yet.
fn audit_each(
    alloc: Global,
    engine: &mut Engine,
    sent: &[u8],
    text: &[u8],
) -> Result<Finding, AuditFault>
    requires { plant_of engine.old ≡ opening }
    ensures { IfOk result (Finds engine.old.cleared (lines_of sent.now) text.now) }
{
    transcripts_are_safe(engine.cleared());
    let mut places = KnownPlaces::new();
    let mut answer = Vec::new(alloc);
    let mut audited = Record::of(text);
    let mut rest = sent;
    while let Some(at) = line_feed(rest) {
        let line = &rest[..at];
        if let Some(finding) = audit_line(
            alloc,
            engine,
            line,
            &mut places,
            &mut answer,
            &mut audited,
        )? {
            return Ok(finding);
        }
        rest = &rest[at + 1..];
    }
    match audit_line(alloc, engine, rest, &mut places, &mut answer, &mut audited)? {
        Some(finding) => Ok(finding),
        None => Ok(audited.finish()),
    }
}

/// Audits one more of the lines that were sent, or gives the finding on the record.
fn audit_line(
    alloc: Global,
    engine: &mut Engine,
    line: &[u8],
    places: &mut KnownPlaces,
    answer: &mut Vec<u8>,
    audited: &mut Record<'_>,
) -> Result<Option<Finding>, AuditFault>
    requires { AreKnown engine.old.cleared places.old }
    ensures known { AreKnown engine.new.cleared places.new }
    ensures cleared { engine.new.cleared ≡ engine.old.cleared }
    ensures answered { IfOk result (λ found. (all left : List (List ℕ)) (text : List ℕ)
        → IsAudited engine.old.cleared all (line.now ∷ left) (plant_of engine.old) text audited.old.count audited.old.rest.now
        → IsAnswered engine.old.cleared all left (plant_of engine.new) text audited.new.count audited.new.rest.now found) }
{
    if let Some(at) = end_of_free_refusal(alloc, engine, line, audited)? {
        audited.take_line(at);
        return Ok(None);
    }
    answer.clear();
    answer_line(alloc, engine, line, places, answer, &mut NoRemarks)?;
    if is_want(answer) {
        // The engine itself had no memory.
        return Err(AuditFault::Memory);
    }
    Ok(audited.compare(answer))
}

/// The end of the record's next line, behind its comments, if that line is a refusal for want of memory with which the engine might
/// have answered.
fn end_of_free_refusal(
    alloc: Global,
    engine: &Engine,
    line: &[u8],
    audited: &mut Record<'_>,
) -> Result<Option<usize>, AuditFault>
    ensures passed { IfOk result (λ _. IsCompared audited.old.count audited.old.rest.now [] audited.new.count audited.new.rest.now []) }
    ensures over { IfOk result (IsPassedOver (setup engine.now.cleared) (plant_of engine.now) (event_of_line line.now) audited.new.rest.now) }
{
    let Some(at) = audited.next_line() else {
        return Ok(None);
    };
    if is_free(alloc, engine, line, &audited.rest[..at])? {
        Ok(Some(at))
    } else {
        Ok(None)
    }
}
