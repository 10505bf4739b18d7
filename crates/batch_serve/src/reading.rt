//! The reader of a desk: the lines of its input go into a ring.
ghost use Rattle.std.specs.Prelude.{◌≡◌, ◌<◌, ◌++◌, ◌∷◌, [], length, true, false, IfSome, IsNone};
ghost use Rattle.rtrb.specs.Ring.{SameProducer, known_free, sent};
ghost use Rattle.batch_serve.specs.Replays.{IsWholeLines};
ghost use Rattle.batch_serve.specs.Threads.{IsInputRead, MayHandOver, ReadsNext};
ghost use Rattle.batch_serve.specs.Pieces.{HasGot};

use crate::pause::Pause;
use crate::rounds::{Lines, ReaderMessage};
use rtrb::{Producer, Protocol};
use std::alloc::Global;
use std::io::{ErrorKind, Read};

/// The outcome of a read.
#[derive(Drop)]
enum Got {
    Lines(Lines),
    // it was interrupted
    Nothing,
    End,
    // it failed, or gave no whole lines, or there is no memory for them
    Fault,
}

/// Puts the lines of an input into the ring, to its end. Each read gives whole lines (`crate::CleanReader`), into this room.
///
/// Returns true if the input has ended and the ring has its end. Returns false if the input failed or gave no whole lines, there was no
/// memory for a line, the ring's other end is gone, or the pause says to end.
///
/// The ring's protocol allows the lines of the input, in order, and the end behind all of them.
// claim: reader of a desk
#[tactic(auto, using(crate::proofs::ReadersAndWriters::reads_begin, crate::proofs::ReadersAndWriters::reads_twice, crate::proofs::ReadersAndWriters::reads_stop))]
pub fn read_lines<R: Read, O: Protocol<ReaderMessage>, P: Pause>(
    alloc: Global,
    input: &mut R,
    room: &mut [u8],
    ring: &mut Producer<ReaderMessage, Global, O>,
    pause: &mut P,
) -> bool
    requires room { 0 < length room.old }
    requires allowed { MayHandOver O.allows (sent ring.old) (R.remaining input.old) }
    ensures read { IsInputRead result (R.remaining input.old) (R.remaining input.new) (sent ring.old) (sent ring.new) }
    ensures ring { SameProducer ring.old ring.new }
{
    for _ in 0..u64::MAX {
        if let Some(ended) = read_next(alloc, input, room, ring, pause) {
            return ended;
        }
    }
    false
}

/// Reads once, and puts the lines or the end into the ring. Returns the result of `read_lines`, if that ends it.
#[tactic(auto, using(crate::proofs::ReadersAndWriters::lines_read, crate::proofs::ReadersAndWriters::nothing_read, crate::proofs::ReadersAndWriters::lines_lost, crate::proofs::ReadersAndWriters::end_read, crate::proofs::ReadersAndWriters::may_after_nothing))]
fn read_next<R: Read, O: Protocol<ReaderMessage>, P: Pause>(
    alloc: Global,
    input: &mut R,
    room: &mut [u8],
    ring: &mut Producer<ReaderMessage, Global, O>,
    pause: &mut P,
) -> Option<bool>
    requires room { 0 < length room.old }
    requires allowed { MayHandOver O.allows (sent ring.old) (R.remaining input.old) }
    ensures allowed { IsNone result → MayHandOver O.allows (sent ring.new) (R.remaining input.new) }
    ensures read { ReadsNext result (R.remaining input.old) (R.remaining input.new) (sent ring.old) (sent ring.new) }
    ensures ring { SameProducer ring.old ring.new }
{
    if pause.is_over() {
        return Some(false);
    }
    match read_once(alloc, input, room) {
        Got::Lines(lines) => {
            if hand_over(ring, ReaderMessage::Lines(lines), pause) {
                None
            } else {
                Some(false)
            }
        }
        Got::Nothing => None,
        Got::End => Some(hand_over(ring, ReaderMessage::End, pause)),
        Got::Fault => Some(false),
    }
}

fn read_once<R: Read>(alloc: Global, input: &mut R, room: &mut [u8]) -> Got
    requires { 0 < length room.old }
    ensures { HasGot result (R.remaining input.old) (R.remaining input.new) }
{
    match input.read(room) {
        Ok(0) => Got::End,
        Ok(count) => match copy_lines(alloc, &room[..count]) {
            Some(lines) => Got::Lines(lines),
            None => Got::Fault,
        },
        Err(error) if error.kind() == ErrorKind::Interrupted => Got::Nothing,
        Err(_) => Got::Fault,
    }
}

/// A copy of a text, if it is whole lines, and there is memory for it.
fn copy_lines(alloc: Global, text: &[u8]) -> Option<Lines>
    ensures { IfSome result (λ lines. (lines ≡ text.now) × IsWholeLines text.now) }
{
    match text.split_last() {
        Some((last, _)) if *last == b'\n' => text.to_vec(alloc).ok().map(Lines::new),
        _ => None,
    }
}

/// Puts an item into the ring, once there is place. Returns false if the other end is gone, or the pause says to end.
fn hand_over<O: Protocol<ReaderMessage>, P: Pause>(
    ring: &mut Producer<ReaderMessage, Global, O>,
    item: ReaderMessage,
    pause: &mut P,
) -> bool
    requires { O.allows (sent ring.old) item }
    ensures ring { SameProducer ring.old ring.new }
    ensures went { result ≡ true → sent ring.new ≡ sent ring.old ++ item ∷ [] }
    ensures stays { result ≡ false → sent ring.new ≡ sent ring.old }
{
    if !wait_for_place(ring, pause) {
        return false;
    }
    ring.push_reserved(item);
    pause.note_work();
    true
}

/// Waits until the ring has a place. Returns false if the other end is gone, or the pause says to end.
fn wait_for_place<O: Protocol<ReaderMessage>, P: Pause>(
    ring: &mut Producer<ReaderMessage, Global, O>,
    pause: &mut P,
) -> bool
    ensures ring { SameProducer ring.old ring.new }
    ensures stays { sent ring.new ≡ sent ring.old }
    ensures place { result ≡ true → 0 < known_free ring.new }
{
    for _ in 0..u64::MAX {
        if !ring.is_full() {
            return true;
        }
        if ring.is_abandoned() || !pause.pause() {
            return false;
        }
    }
    false
}
