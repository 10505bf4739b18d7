//! Lines of the outs that are written most, put together in one room.
ghost use Rattle.std.specs.Prelude.{◌≡◌, ◌+◌, ◌≤◌, ◌++◌, ◌∷◌, [], IfNone, IfSome, codes, decimal, drop, length, take};
ghost use Rattle.batch_engine.specs.Surface.{move_of, out_of, reply_of};
ghost use Rattle.batch_recipe.specs.Texts.{line_text};
ghost use Rattle.batch_wire.specs.Pieces.{claim_word, told_by_move, told_by_out, told_by_reply};
ghost use Rattle.batch_wire.specs.RecordText.{command_text, move_words, need_text, out_text, reply_words, report_text, state_text};

use crate::names::{chart_act_at, handed_names, phase_at, resource_at};
use crate::recipe_places::MAX_PLACE_END;
use batch_engine::{ClaimKind, Line, Out, Reply};
use batch_matrix::{Command, Report, State};
use batch_text::Name;
use batch_verify::Cleared;
use itoa::Buffer;

/// The length of a block that is copied whole, where a text is no longer.
const BLOCK: usize = 32;

/// The batch and the place in a line: a part of a text.
#[derive(Clone, Copy)]
pub(crate) struct ToldSite<'a> {
    pub(crate) text: &'a [u8; MAX_PLACE_END],
    pub(crate) start: usize,
    pub(crate) end: usize,
}

/// Puts a word behind the text that ends at `at`, and returns its end.
#[inline(always)]
fn put_word<const N: usize>(text: &mut [u8], at: usize, word: &[u8; N]) -> usize
    requires { at + N ≤ length text.old }
    ensures end { result ≡ at + N }
    ensures put { take result text.new ≡ take at text.old ++ word.now }
{
    // A copy shares no bytes with the text, so the compiler moves it without a test.
    let word = *word;
    let end = at + N;
    text[at..end].copy_from_slice(&word);
    end
}

/// Puts a space and a name behind the text that ends at `at`, and returns the end of both.
#[inline(always)]
fn put_name(text: &mut [u8], at: usize, name: &Name) -> usize
    requires { at + 33 ≤ length text.old }
    ensures end { result ≤ at + 33 }
    ensures put { take result text.new ≡ take at text.old ++ (codes " " ++ name.now) }
{
    text[at] = b' ';
    name.put(text, at + 1)
}

/// Puts a state as the last word of a line: a space before it, and the line's end after it.
#[inline(always)]
fn put_state(text: &mut [u8], at: usize, state: State) -> usize
    requires { at + 16 ≤ length text.old }
    ensures end { result ≤ at + 16 }
    ensures put { take result text.new ≡ take at text.old ++ (codes " " ++ (state_text state ++ codes "\n")) }
{
    match state {
        // Most batches run.
        State::Running => put_word(text, at, b" running\n"),
        _ => put_any_state(text, at, state),
    }
}

/// Puts the word of any state, between a space and a line feed.
#[inline(never)]
fn put_any_state(text: &mut [u8], at: usize, state: State) -> usize
    requires { at + 16 ≤ length text.old }
    ensures end { result ≤ at + 16 }
    ensures put { take result text.new ≡ take at text.old ++ (codes " " ++ (state_text state ++ codes "\n")) }
{
    match state {
        State::Idle => put_word(text, at, b" idle\n"),
        State::Running => put_word(text, at, b" running\n"),
        State::Pausing => put_word(text, at, b" pausing\n"),
        State::Paused => put_word(text, at, b" paused\n"),
        State::Holding => put_word(text, at, b" holding\n"),
        State::Held => put_word(text, at, b" held\n"),
        State::Restarting => put_word(text, at, b" restarting\n"),
        State::Stopping => put_word(text, at, b" stopping\n"),
        State::Stopped => put_word(text, at, b" stopped\n"),
        State::Aborting => put_word(text, at, b" aborting\n"),
        State::Aborted => put_word(text, at, b" aborted\n"),
        State::Complete => put_word(text, at, b" complete\n"),
    }
}

/// Puts the report of a phase, as a word with a space on either side.
#[inline(always)]
fn put_report(text: &mut [u8], at: usize, word: Report) -> usize
    requires { at + 16 ≤ length text.old }
    ensures end { result ≤ at + 16 }
    ensures put { take result text.new ≡ take at text.old ++ (codes " " ++ (report_text word ++ codes " ")) }
{
    match word {
        // Most phases report that they are done.
        Report::Done => put_word(text, at, b" done "),
        _ => put_any_report(text, at, word),
    }
}

/// Puts any word of a report, between spaces.
#[inline(never)]
fn put_any_report(text: &mut [u8], at: usize, word: Report) -> usize
    requires { at + 16 ≤ length text.old }
    ensures end { result ≤ at + 16 }
    ensures put { take result text.new ≡ take at text.old ++ (codes " " ++ (report_text word ++ codes " ")) }
{
    match word {
        Report::Done => put_word(text, at, b" done "),
        Report::Paused => put_word(text, at, b" paused "),
        Report::Held => put_word(text, at, b" held "),
        Report::Running => put_word(text, at, b" running "),
        Report::Stopped => put_word(text, at, b" stopped "),
        Report::Aborted => put_word(text, at, b" aborted "),
        Report::Fault => put_word(text, at, b" fault "),
    }
}

/// Puts a command, as the word behind `ok`: a space behind it.
#[inline(never)]
fn put_command(text: &mut [u8], at: usize, command: Command) -> usize
    requires { at + 16 ≤ length text.old }
    ensures end { result ≤ at + 16 }
    ensures put { take result text.new ≡ take at text.old ++ (codes "ok " ++ (command_text command ++ codes " ")) }
{
    match command {
        Command::Start => put_word(text, at, b"ok start "),
        Command::Pause => put_word(text, at, b"ok pause "),
        Command::Resume => put_word(text, at, b"ok resume "),
        Command::Hold => put_word(text, at, b"ok hold "),
        Command::Restart => put_word(text, at, b"ok restart "),
        Command::Stop => put_word(text, at, b"ok stop "),
        Command::Abort => put_word(text, at, b"ok abort "),
        Command::Reset => put_word(text, at, b"ok reset "),
    }
}

/// Puts a number behind the text that ends at `at`, and returns its end.
#[inline(always)]
#[tactic(auto, using(crate::proofs::Numbers::digit_put))]
fn put_digits(text: &mut [u8], at: usize, number: u64) -> usize
    requires { at + 20 ≤ length text.old }
    ensures end { result ≤ at + 20 }
    ensures put { take result text.new ≡ take at text.old ++ decimal number }
{
    if number < 10 {
        text[at] = b'0' + number as u8;
        return at + 1;
    }
    let mut buffer = Buffer::new();
    let digits = buffer.format(number).as_bytes();
    let end = at + digits.len();
    text[at..end].copy_from_slice(digits);
    end
}

/// Puts a need as the last word of a line: a space before it, and the line's end after it.
#[inline(always)]
fn put_need(text: &mut [u8], at: usize, name: &Name, units: u32) -> usize
    requires { at + 64 ≤ length text.old }
    ensures end { result ≤ at + 64 }
    ensures put { take result text.new ≡ take at text.old ++ (codes " " ++ (need_text (record { resource = name.now; units = units }) ++ codes "\n")) }
{
    let end = put_name(text, at, name);
    if units <= 1 {
        return put_word(text, end, b"\n");
    }
    let end = put_word(text, end, b"*");
    let end = put_digits(text, end, u64::from(units));
    put_word(text, end, b"\n")
}

/// Puts the batch and the place behind the text that ends at `at`, and returns their end.
#[inline(always)]
fn put_site(text: &mut [u8], at: usize, told: ToldSite<'_>) -> usize
    requires order { (told.start ≤ told.end) × (told.end ≤ 408) }
    requires room { at + 408 ≤ length text.old }
    ensures end { result ≤ at + 408 }
    ensures put { take result text.new ≡ take at text.old ++ drop told.entry.start (take told.entry.end told.entry.text.now) }
{
    let ToldSite {
        text: known,
        start,
        end,
    } = told;
    let len = end - start;
    if len <= BLOCK && start + BLOCK <= MAX_PLACE_END {
        // Most are short: a block of constant length is copied by a few instructions, and as a value of its own without a test.
        let mut block = [0; BLOCK];
        block.copy_from_slice(&known[start..start + BLOCK]);
        text[at..at + BLOCK].copy_from_slice(&block);
    } else {
        text[at..at + len].copy_from_slice(&known[start..end]);
    }
    at + len
}

/// Puts the line of the begin of an act: the batch and the act's place, and its name.
#[inline(always)]
fn put_begin(text: &mut [u8], at: usize, told: ToldSite<'_>, name: &Name) -> usize
    requires order { (told.start ≤ told.end) × (told.end ≤ 408) }
    requires room { at + 640 ≤ length text.old }
    ensures end { result ≤ at + 640 }
    ensures put { take result text.new ≡ take at text.old ++ (codes "begin " ++ line_text (drop told.entry.start (take told.entry.end told.entry.text.now) ∷ name.now ∷ [])) }
{
    let end = put_word(text, at, b"begin ");
    let end = put_site(text, end, told);
    let end = put_name(text, end, name);
    put_word(text, end, b"\n")
}

/// Puts the line of a phase's start without values: the batch and the step's place, the unit and its phase.
#[inline(always)]
fn put_start(text: &mut [u8], at: usize, told: ToldSite<'_>, unit: &Name, phase: &Name) -> usize
    requires order { (told.start ≤ told.end) × (told.end ≤ 408) }
    requires room { at + 640 ≤ length text.old }
    ensures end { result ≤ at + 640 }
    ensures put { take result text.new ≡ take at text.old ++ (codes "start " ++ line_text (drop told.entry.start (take told.entry.end told.entry.text.now) ∷ unit.now ∷ phase.now ∷ [])) }
{
    let end = put_word(text, at, b"start ");
    let end = put_site(text, end, told);
    let end = put_name(text, end, unit);
    let end = put_name(text, end, phase);
    put_word(text, end, b"\n")
}

/// Puts the line of the end of an act.
#[inline(always)]
fn put_end(text: &mut [u8], at: usize, told: ToldSite<'_>) -> usize
    requires order { (told.start ≤ told.end) × (told.end ≤ 408) }
    requires room { at + 640 ≤ length text.old }
    ensures end { result ≤ at + 640 }
    ensures put { take result text.new ≡ take at text.old ++ (codes "end " ++ line_text (drop told.entry.start (take told.entry.end told.entry.text.now) ∷ [])) }
{
    let end = put_word(text, at, b"end ");
    let end = put_site(text, end, told);
    put_word(text, end, b"\n")
}

/// Puts the first word of a line of a claim, and a space behind it.
#[inline(always)]
fn put_kind(text: &mut [u8], at: usize, kind: ClaimKind) -> usize
    requires { at + 16 ≤ length text.old }
    ensures end { result ≤ at + 16 }
    ensures put { take result text.new ≡ take at text.old ++ claim_word kind }
{
    match kind {
        ClaimKind::Asked => put_word(text, at, b"ask "),
        ClaimKind::Granted => put_word(text, at, b"grant "),
        ClaimKind::Released => put_word(text, at, b"release "),
    }
}

/// Puts the line of a claim on units of a resource.
#[inline(always)]
fn put_claim(
    text: &mut [u8],
    at: usize,
    kind: ClaimKind,
    told: ToldSite<'_>,
    name: &Name,
    units: u32,
) -> usize
    requires order { (told.start ≤ told.end) × (told.end ≤ 408) }
    requires room { at + 640 ≤ length text.old }
    ensures end { result ≤ at + 640 }
    ensures put { take result text.new ≡ take at text.old
        ++ (claim_word kind ++ line_text (drop told.entry.start (take told.entry.end told.entry.text.now) ∷ need_text (record { resource = name.now; units = units }) ∷ [])) }
{
    let end = put_kind(text, at, kind);
    let end = put_site(text, end, told);
    put_need(text, end, name, units)
}

/// Puts the line of a state of a batch.
#[inline(always)]
fn put_batch_state(text: &mut [u8], at: usize, batch: u64, state: State) -> usize
    requires { at + 640 ≤ length text.old }
    ensures end { result ≤ at + 640 }
    ensures put { take result text.new ≡ take at text.old ++ (codes "state " ++ line_text (decimal batch ∷ state_text state ∷ [])) }
{
    let end = put_word(text, at, b"state ");
    let end = put_digits(text, end, batch);
    put_state(text, end, state)
}

/// Puts the line of the reply to an order.
#[inline(always)]
fn put_ordered(text: &mut [u8], at: usize, command: Command, batch: u64, state: State) -> usize
    requires { at + 640 ≤ length text.old }
    ensures end { result ≤ at + 640 }
    ensures put { take result text.new ≡ take at text.old ++ line_text (codes "ok" ∷ command_text command ∷ decimal batch ∷ state_text state ∷ []) }
{
    let end = put_command(text, at, command);
    let end = put_digits(text, end, batch);
    put_state(text, end, state)
}

/// Puts the line of a move, and returns its end. None of a move whose line is written piece by piece.
#[inline(always)]
fn put_move(
    text: &mut [u8],
    at: usize,
    line: Line,
    cleared: &Cleared,
    told: ToldSite<'_>,
) -> Option<usize>
    requires order { (told.start ≤ told.end) × (told.end ≤ 408) }
    requires told { drop told.start (take told.end told.text.now) ≡ told_by_move (move_of cleared.now line) }
    requires room { at + 640 ≤ length text.old }
    ensures end { IfSome result (λ end. end ≤ at + 640) }
    ensures put { IfSome result (λ end. take end text.new ≡ take at text.old ++ line_text (move_words (move_of cleared.now line))) }
    ensures unchanged { IfNone result (text.new ≡ text.old) }
{
    match line {
        Line::Claim {
            kind,
            resource,
            units,
            ..
        } => {
            match resource_at(cleared, resource) {
                Some(name) => Some(put_claim(text, at, kind, told, name, units)),
                None => None,
            }
        }
        Line::Start {
            recipe,
            node,
            unit,
            phase,
            ..
        } => {
            if !handed_names(cleared, recipe, node).is_empty() {
                return None;
            }
            match (resource_at(cleared, unit), phase_at(cleared, unit, phase)) {
                (Some(unit), Some(phase)) => Some(put_start(text, at, told, unit, phase)),
                _ => None,
            }
        }
        Line::Begin { recipe, node, .. } => match chart_act_at(cleared, recipe, node) {
            Some(name) => Some(put_begin(text, at, told, name)),
            None => None,
        },
        Line::End { .. } => Some(put_end(text, at, told)),
        Line::State { batch, state } => Some(put_batch_state(text, at, batch, state)),
        Line::Send { .. } | Line::Pass { .. } => None,
    }
}

/// Puts the line of a report's reply.
#[inline(always)]
fn put_reported(
    text: &mut [u8],
    at: usize,
    unit: &Name,
    phase: &Name,
    word: Report,
    told: ToldSite<'_>,
    state: State,
) -> usize
    requires order { (told.start ≤ told.end) × (told.end ≤ 408) }
    requires room { at + 640 ≤ length text.old }
    ensures end { result ≤ at + 640 }
    ensures put { take result text.new ≡ take at text.old
        ++ line_text (codes "ok" ∷ codes "report" ∷ unit.now ∷ phase.now ∷ report_text word ∷ drop told.entry.start (take told.entry.end told.entry.text.now) ∷ state_text state ∷ []) }
{
    let end = put_word(text, at, b"ok report");
    let end = put_name(text, end, unit);
    let end = put_name(text, end, phase);
    let end = put_report(text, end, word);
    let end = put_site(text, end, told);
    put_state(text, end, state)
}

/// Puts the line of an out, and returns its end. None of an out whose line is written piece by piece.
#[inline(always)]
pub(crate) fn put_out(
    text: &mut [u8],
    at: usize,
    out: &Out,
    cleared: &Cleared,
    told: ToldSite<'_>,
) -> Option<usize>
    requires order { (told.start ≤ told.end) × (told.end ≤ 408) }
    requires told { drop told.start (take told.end told.text.now) ≡ told_by_out (out_of cleared.now out.now) }
    requires room { at + 640 ≤ length text.old }
    ensures end { IfSome result (λ end. end ≤ at + 640) }
    ensures put { IfSome result (λ end. take end text.new ≡ take at text.old ++ out_text (out_of cleared.now out.now)) }
    ensures unchanged { IfNone result (text.new ≡ text.old) }
{
    match *out {
        Out::Move(line) => put_move(text, at, line, cleared, told),
        Out::Reply(reply) => put_reply(text, at, reply, cleared, told),
    }
}

#[inline(always)]
fn put_reply(
    text: &mut [u8],
    at: usize,
    reply: Reply,
    cleared: &Cleared,
    told: ToldSite<'_>,
) -> Option<usize>
    requires order { (told.start ≤ told.end) × (told.end ≤ 408) }
    requires told { drop told.start (take told.end told.text.now) ≡ told_by_reply (reply_of cleared.now reply) }
    requires room { at + 640 ≤ length text.old }
    ensures end { IfSome result (λ end. end ≤ at + 640) }
    ensures put { IfSome result (λ end. take end text.new ≡ take at text.old ++ line_text (reply_words (reply_of cleared.now reply))) }
    ensures unchanged { IfNone result (text.new ≡ text.old) }
{
    match reply {
        Reply::Reported {
            unit,
            phase,
            word,
            state,
            ..
        } => match (resource_at(cleared, unit), phase_at(cleared, unit, phase)) {
            (Some(unit), Some(phase)) => {
                Some(put_reported(text, at, unit, phase, word, told, state))
            }
            _ => None,
        },
        Reply::Ordered {
            command,
            batch,
            state,
        } => Some(put_ordered(text, at, command, batch, state)),
        _ => None,
    }
}
