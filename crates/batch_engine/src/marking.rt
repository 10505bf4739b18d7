//! Marking the batches that may have a move.
ghost use Rattle.std.specs.Prelude.{◌≡◌, ◌<◌, IfSome, Some, ℕ};
ghost use Rattle.batch_arbiter.specs.Allocation.{resource_count};
ghost use Rattle.batch_engine.specs.Marking.{AreAnswerMarked, IsFirstMarked, IsFirstServed, IsNumberMarked, IsSet, KeepsMarks, named_by};
ghost use Rattle.batch_engine.specs.Steps.{touched_by};

use crate::control::Control;
use crate::line::{ClaimKind, Line};
use crate::marks::Marks;
use crate::reply::Reply;
use batch_matrix::Command;

/// Marks the batch at an index.
#[inline(always)]
fn mark(marks: &mut Marks, index: usize)
    requires { index < 4096 }
    ensures set { IsSet marks.new index }
    ensures kept { KeepsMarks marks.old marks.new }
{
    marks.set(index);
}

/// Marks the batch with this number.
#[inline(always)]
fn mark_number(marks: &mut Marks, control: &Control, number: u64)
    ensures set { IsNumberMarked control.now number marks.new }
    ensures kept { KeepsMarks marks.old marks.new }
{
    control.recall_invariant();
    if let Some(index) = control.index_of(number) {
        mark(marks, index);
    }
}

/// Marks the batch whose act would be served of a resource.
#[inline(always)]
fn mark_first(marks: &mut Marks, control: &Control, resource: u16)
    requires { resource < resource_count control.now.allocation }
    ensures set { IsFirstMarked control.now resource marks.new }
    ensures kept { KeepsMarks marks.old marks.new }
{
    control.recall_invariant();
    if let Some(index) = control.first_served(resource) {
        mark(marks, index);
    }
}

/// Marks each batch whose act would be served of some resource.
#[inline(never)]
fn mark_firsts(marks: &mut Marks, control: &Control)
    ensures set { (resource : ℕ) → resource < resource_count control.now.allocation → IsFirstMarked control.now resource marks.new }
    ensures kept { KeepsMarks marks.old marks.new }
{
    for resource in 0..control.resources() {
        mark_first(marks, control, resource);
    }
}

/// Marks the batches that an event has given a move.
#[inline(always)]
pub fn mark_answered(marks: &mut Marks, control: &Control, reply: &Reply)
    ensures { AreAnswerMarked control.now reply.now marks.new }
{
    if let Some(number) = reply.batch() {
        mark_number(marks, control, number);
    }
    if let Reply::Ordered {
        command: Command::Stop | Command::Abort,
        ..
    } = reply
    {
        // An ask that is withdrawn makes way for the one behind it, which may be for fewer units. The check of all
        // queues takes no longer with more batches.
        mark_firsts(marks, control);
    }
}

/// Marks the batch that a move has given a move, if it gave or took a share of this resource. The batch that moved is marked.
#[inline(always)]
pub fn mark_moved(marks: &mut Marks, control: &Control, resource: Option<u16>)
    requires { IfSome resource (λ number. number < resource_count control.now.allocation) }
    ensures first { (number : ℕ) → resource ≡ Some number → IsFirstMarked control.now number marks.new }
    ensures kept { KeepsMarks marks.old marks.new }
{
    if let Some(number) = resource {
        mark_first(marks, control, number);
    }
}

impl Reply {
    /// The batch that was created, ordered or reported to.
    #[inline(always)]
    fn batch(&self) -> Option<u64>
        ensures { result ≡ named_by self.now }
    {
        match self {
            Reply::Created { batch, .. }
            | Reply::Ordered { batch, .. }
            | Reply::Reported { batch, .. } => Some(*batch),
            Reply::Removed { .. } | Reply::Refused(_) => None,
        }
    }
}

impl Line {
    /// The resource of which the line's move gives or takes a share.
    #[inline(always)]
    pub(crate) fn touched(&self) -> Option<u16>
        ensures { result ≡ touched_by self.now }
    {
        match self {
            Line::Claim {
                kind: ClaimKind::Granted | ClaimKind::Released,
                resource,
                ..
            } => Some(*resource),
            _ => None,
        }
    }
}

impl Control {
    /// The index of the batch whose act would be served of a resource.
    #[inline(always)]
    fn first_served(&self, resource: u16) -> Option<usize>
        requires { resource < resource_count self.now.allocation }
        ensures { IsFirstServed self.now resource result }
    {
        let (number, _node) = self.arbiter.first(resource)?;
        self.index_of(number)
    }
}
