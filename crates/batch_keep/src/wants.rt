//! Refusals for want of memory.
ghost use Rattle.std.specs.Prelude.{◌≡◌, ◌≢◌, ◌↔◌, ◌++◌, ◌⊎◌, IfOk, IsFalse, IsTrue, List, MatchOption, codes, ℕ};
ghost use Rattle.batch_engine.specs.Surface.{event_of};
ghost use Rattle.batch_engine.specs.View.{plant_of, setup};
ghost use Rattle.batch_wire.specs.EventLine.{event_of_line};
ghost use Rattle.batch_keep.specs.Auditing.{IsFree, MightWant, want_line};

use crate::finding::AuditFault;
use batch_engine::{Engine, Event};
use batch_wire::{WireFault, read_event};
use std::alloc::Global;

/// A purpose for which memory was wanted.
#[derive(Clone, Copy)]
enum Want {
    /// To read a line.
    Line,
    /// To make a batch.
    Batch,
}

/// The purpose for which memory was wanted, as the line of a record says it.
fn want_of(told: &[u8]) -> Option<Want>
    ensures { MatchOption result ((told.now ≢ codes "refused W6") × (told.now ≢ codes "refused E11")) (λ want. told.now ≡ want_line want) }
{
    if told == b"refused W6".as_slice() {
        return Some(Want::Line);
    }
    if told == b"refused E11".as_slice() {
        return Some(Want::Batch);
    }
    None
}

/// Whether the engine might have wanted memory for this purpose at the event.
fn might_want(want: Want, engine: &Engine, event: &Event) -> bool
    ensures { IsTrue result ↔ MightWant (setup engine.now.cleared) (plant_of engine.now) (event_of event.now) want }
{
    match want {
        Want::Line => true,
        Want::Batch => engine.would_create(event),
    }
}

/// Whether the engine might have refused the line with this line of a record, for want of memory.
pub(crate) fn is_free(
    alloc: Global,
    engine: &Engine,
    line: &[u8],
    told: &[u8],
) -> Result<bool, AuditFault>
    ensures { IfOk result (λ free. IsTrue free ↔ IsFree (setup engine.now.cleared) (plant_of engine.now) (event_of_line line.now) told.now) }
{
    let Some(want) = want_of(told) else {
        return Ok(false);
    };
    match read_event(alloc, line) {
        Ok(Some(event)) => Ok(might_want(want, engine, &event)),
        Ok(None) => Ok(false),
        Err(WireFault::Memory) => Err(AuditFault::Memory),
        Err(_) => Ok(false),
    }
}

/// Whether the answer to a line is a refusal for want of memory.
pub(crate) fn is_want(answer: &[u8]) -> bool
    ensures { IsFalse result → (more : List ℕ) → (answer.now ≢ codes "refused W6\n" ++ more) × (answer.now ≢ codes "refused E11\n" ++ more) }
{
    answer.starts_with(b"refused W6\n") || answer.starts_with(b"refused E11\n")
}
