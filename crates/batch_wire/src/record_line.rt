//! Writing a line of the record.
ghost use Rattle.std.specs.Prelude.{◌≡◌, ◌≤◌, Some, ◌∷◌, [], ◌++◌, IfSome, map, codes, decimal, drop, length, take};
ghost use Rattle.std.specs.List.{zip};
ghost use Rattle.batch_recipe.specs.Texts.{line_text, place_text};
ghost use Rattle.batch_engine.specs.Names.{handed_at, need_of, phase_name, recipe_place_at, recipe_name, resource_name, roles_of, roles_taken};
ghost use Rattle.batch_engine.specs.Surface.{out_of, reply_of, move_of, refusal_of};
ghost use Rattle.batch_engine.specs.declared.line.Line.TheVariants as lines;
ghost use Rattle.batch_engine.specs.declared.reply.Reply.TheVariants as replies;
ghost use Rattle.batch_verify.specs.ClearedSet.{ClearedSet};
ghost use Rattle.batch_wire.specs.Known.{AreKnown, AreKnownIn, waiting, waiting_in};
ghost use Rattle.batch_wire.specs.Pieces.{before, created_front, phase_front, roles_text, text_of_site, told_by_move, told_by_out, told_by_reply, told_text, values_text};
ghost use Rattle.batch_wire.specs.RecordText.{out_text, reply_words, refusal_words, move_words, state_text, command_text, role_text, value_text, need_text, value_texts};
ghost use Rattle.batch_wire.specs.Written.{Adds, Writes};

use crate::fault::WriteFault;
use crate::known_places::{KnownPlaces, seat_of};
use crate::line_room::{FULL, LineRoom};
use crate::names::{
    chart_act_name, handed_names, output_name, phase_name, recipe_at, recipe_name, resource_name,
    value_name,
};
use crate::places::{ToldPlace, write_node_place, write_place};
use crate::quick_lines::{ToldSite, put_out};
use crate::recipe_places::RecipePlaces;
use crate::record_words::{command_text, inner_word, last_word};
use crate::site::Site;
use crate::writing::{write_all, write_pieces};
use batch_engine::{ClaimKind, Line, Out, Refusal, Reply};
use batch_matrix::{Command, Report, State};
use batch_recipe::{MAX_ROLES, MAX_VALUES, Role};
use batch_text::Name;
use batch_verify::Cleared;
use itoa::Buffer;
use std::io::Write;

/// Writes the out's line of the record. It takes no memory.
// claim: record lines; line cut off
pub fn write_out<W: Write>(out: &Out, cleared: &Cleared, writer: &mut W) -> Result<(), WriteFault>
    ensures { Writes (W.contents writer.old) (W.contents writer.new) result (out_text (out_of cleared.now out.now)) }
{
    match site_of(out) {
        None => write_by_pieces(out, cleared, &ToldPlace::Known(b""), writer),
        Some(site) => write_by_pieces(out, cleared, &ToldPlace::Long { cleared, site }, writer),
    }
}

/// Adds the line of an out to the text that waits, and writes that text if there is little room behind it. A line that is long or rare is
/// written at once, behind the text that waits. The text of its place is put together from that of the batch's last line, and is cached in
/// its turn. So each of many lines of a batch costs the difference of its place from the one before.
// claim: record lines; line cut off
#[inline(always)]
pub fn add_out<W: Write>(
    out: &Out,
    cleared: &Cleared,
    places: &mut KnownPlaces,
    writer: &mut W,
) -> Result<(), WriteFault>
    requires { AreKnown cleared.now places.old }
    ensures known { AreKnown cleared.now places.new }
    ensures added { Adds (W.contents writer.old) (W.contents writer.new) (waiting places.old) (waiting places.new) result (out_text (out_of cleared.now out.now)) }
{
    let site = site_of(out);
    let seat = seat_of(site);
    add_site(
        out,
        cleared,
        site,
        &mut places.entries[seat],
        &mut places.line,
        writer,
    )
}

/// Writes the text that waits.
// claim: line cut off
pub fn write_waiting<W: Write>(places: &mut KnownPlaces, writer: &mut W) -> Result<(), WriteFault>
    ensures known { (cleared : ClearedSet) → AreKnown cleared places.old → AreKnown cleared places.new }
    ensures none { waiting places.new ≡ [] }
    ensures written { Writes (W.contents writer.old) (W.contents writer.new) result (waiting places.old) }
{
    write_room(&mut places.line, writer)
}

/// Adds the line of an out with this site, or with none, by the cached places.
#[inline(always)]
fn add_site<W: Write>(
    out: &Out,
    cleared: &Cleared,
    site: Option<Site>,
    places: &mut RecipePlaces,
    room: &mut LineRoom,
    writer: &mut W,
) -> Result<(), WriteFault>
    requires known { AreKnownIn cleared.now places.old }
    requires told { text_of_site cleared.now site ≡ told_by_out (out_of cleared.now out.now) }
    ensures known { AreKnownIn cleared.now places.new }
    ensures added { Adds (W.contents writer.old) (W.contents writer.new) (waiting_in room.old) (waiting_in room.new) result (out_text (out_of cleared.now out.now)) }
{
    match places.find_site(cleared, site) {
        Some((start, end)) => {
            let told = ToldSite {
                text: &places.text,
                start,
                end,
            };
            add_line(out, cleared, told, room, writer)
        }
        None => write_long(out, cleared, room, writer),
    }
}

/// Adds the line of an out with this place.
#[inline(always)]
fn add_line<W: Write>(
    out: &Out,
    cleared: &Cleared,
    told: ToldSite<'_>,
    room: &mut LineRoom,
    writer: &mut W,
) -> Result<(), WriteFault>
    requires order { (told.start ≤ told.end) × (told.end ≤ 408) }
    requires told { drop told.start (take told.end told.text.now) ≡ told_by_out (out_of cleared.now out.now) }
    ensures { Adds (W.contents writer.old) (W.contents writer.new) (waiting_in room.old) (waiting_in room.new) result (out_text (out_of cleared.now out.now)) }
{
    let start = room.len;
    match put_out(&mut room.bytes, start, out, cleared, told) {
        Some(end) => pass_full(end, room, writer),
        None => write_rare_out(out, cleared, told, room, writer),
    }
}

/// Lets the text up to this end wait, or writes it if it is too long.
#[inline(always)]
fn pass_full<W: Write>(end: usize, room: &mut LineRoom, writer: &mut W) -> Result<(), WriteFault>
    requires { end ≤ length room.old.bytes }
    ensures { Adds (W.contents writer.old) (W.contents writer.new) (take end room.old.bytes) (waiting_in room.new) result [] }
{
    if end <= FULL {
        room.len = end;
        return Ok(());
    }
    room.len = 0;
    write_all(writer, &room.bytes[..end])
}

/// Writes the text that waits.
fn write_room<W: Write>(room: &mut LineRoom, writer: &mut W) -> Result<(), WriteFault>
    ensures none { waiting_in room.new ≡ [] }
    ensures written { Writes (W.contents writer.old) (W.contents writer.new) result (waiting_in room.old) }
{
    let end = room.len;
    room.len = 0;
    write_all(writer, &room.bytes[..end])
}

/// The same as `write_rare`. The copy of the out is made here, and not for each line.
#[inline(always)]
fn write_rare_out<W: Write>(
    out: &Out,
    cleared: &Cleared,
    told: ToldSite<'_>,
    room: &mut LineRoom,
    writer: &mut W,
) -> Result<(), WriteFault>
    requires order { (told.start ≤ told.end) × (told.end ≤ 408) }
    requires told { drop told.start (take told.end told.text.now) ≡ told_by_out (out_of cleared.now out.now) }
    ensures none { waiting_in room.new ≡ [] }
    ensures written { Writes (W.contents writer.old) (W.contents writer.new) result (waiting_in room.old ++ out_text (out_of cleared.now out.now)) }
{
    write_rare(*out, cleared, told, room, writer)
}

/// Writes the text that waits, and then the line of an out whose place isn't cached.
#[inline(always)]
fn write_long<W: Write>(
    out: &Out,
    cleared: &Cleared,
    room: &mut LineRoom,
    writer: &mut W,
) -> Result<(), WriteFault>
    ensures none { waiting_in room.new ≡ [] }
    ensures written { Writes (W.contents writer.old) (W.contents writer.new) result (waiting_in room.old ++ out_text (out_of cleared.now out.now)) }
{
    // The copy is what a call needs in memory, so that the out itself needs none.
    let out = *out;
    write_room(room, writer)?;
    write_out(&out, cleared, writer)
}

/// Writes the text that waits, and then the line of an out with this place, which is rarely written: in one piece if the room holds it.
#[inline(never)]
fn write_rare<W: Write>(
    out: Out,
    cleared: &Cleared,
    told: ToldSite<'_>,
    room: &mut LineRoom,
    writer: &mut W,
) -> Result<(), WriteFault>
    requires order { (told.start ≤ told.end) × (told.end ≤ 408) }
    requires told { drop told.start (take told.end told.text.now) ≡ told_by_out (out_of cleared.now out) }
    ensures none { waiting_in room.new ≡ [] }
    ensures written { Writes (W.contents writer.old) (W.contents writer.new) result (waiting_in room.old ++ out_text (out_of cleared.now out)) }
{
    write_room(room, writer)?;
    let ToldSite { text, start, end } = told;
    let known = &text[..end];
    let told = ToldPlace::Known(&known[start..]);
    match write_out_at(&out, cleared, &told, room) {
        Ok(()) => write_room(room, writer),
        Err(_) => {
            room.clear();
            write_by_pieces(&out, cleared, &told, writer)
        }
    }
}

/// Writes the same piece by piece: a function of its own, so that rare work isn't in the way of the work for each line.
#[inline(never)]
fn write_by_pieces<W: Write>(
    out: &Out,
    cleared: &Cleared,
    told: &ToldPlace<'_>,
    writer: &mut W,
) -> Result<(), WriteFault>
    requires { told_text told.now ≡ told_by_out (out_of cleared.now out.now) }
    ensures { Writes (W.contents writer.old) (W.contents writer.new) result (out_text (out_of cleared.now out.now)) }
{
    write_out_at(out, cleared, told, writer)
}

/// The node whose place is in the line of the out. None if the line has no place.
#[inline(always)]
fn site_of(out: &Out) -> Option<Site>
    ensures { (cleared : ClearedSet) → text_of_site cleared result ≡ told_by_out (out_of cleared out.now) }
{
    match *out {
        Out::Reply(reply) => site_of_reply(reply),
        Out::Move(line) => site_of_move(line),
    }
}

#[inline(always)]
fn site_of_reply(reply: Reply) -> Option<Site>
    ensures { (cleared : ClearedSet) → text_of_site cleared result ≡ told_by_reply (reply_of cleared reply) }
{
    match reply {
        Reply::Reported {
            batch,
            recipe,
            node,
            ..
        } => Some(Site {
            batch,
            recipe,
            node,
        }),
        _ => None,
    }
}

#[inline(always)]
fn site_of_move(line: Line) -> Option<Site>
    ensures { (cleared : ClearedSet) → text_of_site cleared result ≡ told_by_move (move_of cleared line) }
{
    match line {
        Line::State { .. } => None,
        Line::Send {
            batch,
            recipe,
            node,
            ..
        }
        | Line::Begin {
            batch,
            recipe,
            node,
            ..
        }
        | Line::Start {
            batch,
            recipe,
            node,
            ..
        }
        | Line::End {
            batch,
            recipe,
            node,
            ..
        }
        | Line::Pass {
            batch,
            recipe,
            node,
            ..
        }
        | Line::Claim {
            batch,
            recipe,
            node,
            ..
        } => Some(Site {
            batch,
            recipe,
            node,
        }),
    }
}

/// Writes the line of an out with this place.
#[inline(always)]
fn write_out_at<W: Write>(
    out: &Out,
    cleared: &Cleared,
    place: &ToldPlace<'_>,
    writer: &mut W,
) -> Result<(), WriteFault>
    requires { told_text place.now ≡ told_by_out (out_of cleared.now out.now) }
    ensures { Writes (W.contents writer.old) (W.contents writer.new) result (out_text (out_of cleared.now out.now)) }
{
    match *out {
        Out::Reply(reply) => write_reply(reply, cleared, place, writer),
        Out::Move(line) => write_move(line, cleared, place, writer),
    }
}

fn write_reply<W: Write>(
    reply: Reply,
    cleared: &Cleared,
    place: &ToldPlace<'_>,
    writer: &mut W,
) -> Result<(), WriteFault>
    requires { told_text place.now ≡ told_by_reply (reply_of cleared.now reply) }
    ensures { Writes (W.contents writer.old) (W.contents writer.new) result (line_text (reply_words (reply_of cleared.now reply))) }
{
    match reply {
        Reply::Created {
            batch,
            recipe,
            size,
            units,
        } => write_created(batch, cleared, recipe, size, units, writer),
        Reply::Ordered {
            command,
            batch,
            state,
        } => write_ordered(command, batch, state, writer),
        Reply::Removed { batch } => write_removed(batch, writer),
        Reply::Reported {
            unit,
            phase,
            word,
            state,
            ..
        } => {
            let phase = phase_name(cleared, unit, phase);
            let unit = resource_name(cleared, unit);
            let word = inner_word(word);
            write_reported(unit, phase, word, place, state, writer)
        }
        Reply::Refused(refusal) => write_refusal(refusal, cleared, writer),
    }
}

fn write_created<W: Write>(
    batch: u64,
    cleared: &Cleared,
    recipe: u16,
    size: u64,
    units: [u16; MAX_ROLES],
    writer: &mut W,
) -> Result<(), WriteFault>
    ensures { Writes (W.contents writer.old) (W.contents writer.new) result
        (line_text (reply_words (reply_of cleared.now (replies.Created batch recipe size units)))) }
{
    write_created_front(batch, recipe_name(cleared, recipe), size, writer)?;
    write_roles(cleared, recipe, units, writer)?;
    write_all(writer, b"\n")
}

/// Writes the beginning of a line of a new batch: the word, the batch, the recipe and the size.
fn write_created_front<W: Write>(
    batch: u64,
    recipe: &[u8],
    size: u64,
    writer: &mut W,
) -> Result<(), WriteFault>
    ensures { Writes (W.contents writer.old) (W.contents writer.new) result (created_front batch recipe.now size) }
{
    let mut batch_digits = Buffer::new();
    let mut size_digits = Buffer::new();
    write_pieces(
        writer,
        &[
            b"created ",
            batch_digits.format(batch).as_bytes(),
            b" ",
            recipe,
            b" ",
            size_digits.format(size).as_bytes(),
        ],
    )
}

/// Writes the roles of a recipe with the units that take them, a space before each.
fn write_roles<W: Write>(
    cleared: &Cleared,
    recipe: u16,
    units: [u16; MAX_ROLES],
    writer: &mut W,
) -> Result<(), WriteFault>
    ensures { Writes (W.contents writer.old) (W.contents writer.new) result (roles_text (roles_taken cleared.now recipe units)) }
{
    match recipe_at(cleared, recipe) {
        Some(recipe) => write_bound(cleared, &recipe.roles, units, writer),
        None => write_all(writer, b""),
    }
}

/// Writes the roles beside the units, as far as there are both.
fn write_bound<W: Write>(
    cleared: &Cleared,
    roles: &[Role],
    units: [u16; MAX_ROLES],
    writer: &mut W,
) -> Result<(), WriteFault>
    ensures { Writes (W.contents writer.old) (W.contents writer.new) result
        (roles_text (zip (map (λ role. role.name) roles.now) (map (resource_name cleared.now) units))) }
{
    for i in 0..MAX_ROLES {
        match roles.get(i) {
            Some(role) => {
                let unit = resource_name(cleared, units[i]);
                write_role(role.name.text().as_bytes(), unit, writer)?
            }
            None => break,
        }
    }
    Ok(())
}

fn write_role<W: Write>(role: &[u8], unit: &[u8], writer: &mut W) -> Result<(), WriteFault>
    ensures { Writes (W.contents writer.old) (W.contents writer.new) result (codes " " ++ role_text (role.now, unit.now)) }
{
    write_pieces(writer, &[b" ", role, b"=", unit])
}

fn write_ordered<W: Write>(
    command: Command,
    batch: u64,
    state: State,
    writer: &mut W,
) -> Result<(), WriteFault>
    ensures { Writes (W.contents writer.old) (W.contents writer.new) result
        (line_text (codes "ok" ∷ command_text command ∷ decimal batch ∷ state_text state ∷ [])) }
{
    let mut digits = Buffer::new();
    write_pieces(
        writer,
        &[
            b"ok ",
            command_text(command),
            b" ",
            digits.format(batch).as_bytes(),
            last_word(state),
        ],
    )
}

fn write_removed<W: Write>(batch: u64, writer: &mut W) -> Result<(), WriteFault>
    ensures { Writes (W.contents writer.old) (W.contents writer.new) result
        (line_text (codes "ok" ∷ codes "remove" ∷ decimal batch ∷ [])) }
{
    let mut digits = Buffer::new();
    write_pieces(
        writer,
        &[b"ok remove ", digits.format(batch).as_bytes(), b"\n"],
    )
}

/// Writes the reply to a report of a phase of a unit, whose word comes with a space on either side.
#[inline(always)]
fn write_reported<'a, W: Write>(
    unit: &'a [u8],
    phase: &'a [u8],
    word: &'a [u8],
    place: &ToldPlace<'_>,
    state: State,
    writer: &mut W,
) -> Result<(), WriteFault>
    ensures { Writes (W.contents writer.old) (W.contents writer.new) result
        (codes "ok report " ++ (unit.now ++ (codes " " ++ (phase.now ++ (word.now ++ line_text (told_text place.now ∷ state_text state ∷ [])))))) }
{
    write_apart(
        &[b"ok report ", unit, b" ", phase, word],
        place,
        &[last_word(state)],
        writer,
    )
}

fn write_refusal<W: Write>(
    refusal: Refusal,
    cleared: &Cleared,
    writer: &mut W,
) -> Result<(), WriteFault>
    ensures { Writes (W.contents writer.old) (W.contents writer.new) result
        (line_text (codes "refused" ∷ refusal_words (refusal_of cleared.now refusal))) }
{
    match refusal {
        Refusal::UnknownRecipe => write_all(writer, b"refused E1\n"),
        Refusal::UnknownBatch => write_all(writer, b"refused E2\n"),
        Refusal::CommandNotAccepted(state) => {
            write_pieces(writer, &[b"refused E3", last_word(state)])
        }
        Refusal::NoLivePhase => write_all(writer, b"refused E4\n"),
        Refusal::ReportNotExpected(state) => {
            write_pieces(writer, &[b"refused E5", last_word(state)])
        }
        Refusal::BadOutput => write_all(writer, b"refused E6\n"),
        Refusal::BadSize => write_all(writer, b"refused E7 F1\n"),
        Refusal::BadValue { recipe, value } => {
            let name = value_name(cleared, recipe, value);
            write_pieces(writer, &[b"refused E7 F2 ", name, b"\n"])
        }
        Refusal::Full => write_all(writer, b"refused E8\n"),
        Refusal::NotIdle(state) => { write_pieces(writer, &[b"refused E9", last_word(state)]) }
        Refusal::MovesPending => write_all(writer, b"refused E10\n"),
        Refusal::Memory => write_all(writer, b"refused E11\n"),
        Refusal::BadBinding => write_all(writer, b"refused E12\n"),
        Refusal::OutputLeftOut {
            recipe,
            node,
            output,
        } => {
            let name = output_name(cleared, recipe, node, output);
            write_pieces(writer, &[b"refused E13 ", name, b"\n"])
        }
    }
}

#[inline(always)]
fn write_move<W: Write>(
    line: Line,
    cleared: &Cleared,
    place: &ToldPlace<'_>,
    writer: &mut W,
) -> Result<(), WriteFault>
    requires { told_text place.now ≡ told_by_move (move_of cleared.now line) }
    ensures { Writes (W.contents writer.old) (W.contents writer.new) result (line_text (move_words (move_of cleared.now line))) }
{
    match line {
        Line::Send {
            unit,
            phase,
            command,
            ..
        } => write_send(place, cleared, unit, phase, command, writer),
        Line::State { batch, state } => write_state(batch, state, writer),
        Line::Begin { recipe, node, .. } => {
            write_step(
                b"begin ",
                place,
                chart_act_name(cleared, recipe, node),
                writer,
            )
        }
        Line::Start {
            recipe,
            node,
            unit,
            phase,
            values,
            ..
        } => write_start(place, cleared, recipe, node, unit, phase, values, writer),
        Line::End { .. } => write_apart(&[b"end "], place, &[b"\n"], writer),
        Line::Pass {
            recipe,
            to,
            resource,
            units,
            ..
        } => write_pass(place, cleared, recipe, to, resource, units, writer),
        Line::Claim {
            kind,
            resource,
            units,
            ..
        } => {
            let name = resource_name(cleared, resource);
            match kind {
                ClaimKind::Asked => write_need(b"ask ", place, name, units, writer),
                ClaimKind::Granted => write_need(b"grant ", place, name, units, writer),
                ClaimKind::Released => write_need(b"release ", place, name, units, writer),
            }
        }
    }
}

fn write_send<W: Write>(
    place: &ToldPlace<'_>,
    cleared: &Cleared,
    unit: u16,
    phase: u16,
    command: Command,
    writer: &mut W,
) -> Result<(), WriteFault>
    ensures { Writes (W.contents writer.old) (W.contents writer.new) result
        (codes "send " ++ line_text (told_text place.now ∷ resource_name cleared.now unit ∷ phase_name cleared.now unit phase ∷ command_text command ∷ [])) }
{
    let phase_name = phase_name(cleared, unit, phase);
    let unit_name = resource_name(cleared, unit);
    write_phase_front(b"send ", place, unit_name, phase_name, writer)?;
    write_pieces(writer, &[b" ", command_text(command), b"\n"])
}

fn write_state<W: Write>(batch: u64, state: State, writer: &mut W) -> Result<(), WriteFault>
    ensures { Writes (W.contents writer.old) (W.contents writer.new) result
        (line_text (codes "state" ∷ decimal batch ∷ state_text state ∷ [])) }
{
    let mut digits = Buffer::new();
    write_pieces(
        writer,
        &[b"state ", digits.format(batch).as_bytes(), last_word(state)],
    )
}

/// Writes the line of a move of a step: the word and a space, the batch and the step's place, and a name.
#[inline(always)]
fn write_step<W: Write>(
    word: &'static [u8],
    place: &ToldPlace<'_>,
    name: &[u8],
    writer: &mut W,
) -> Result<(), WriteFault>
    ensures { Writes (W.contents writer.old) (W.contents writer.new) result
        (word.now ++ line_text (told_text place.now ∷ name.now ∷ [])) }
{
    write_apart(&[word], place, &[b" ", name, b"\n"], writer)
}

/// Writes the line of a move of a need: the word and a space, the batch and the act's place, the resource, and how many units of it
/// if it is more than one.
#[inline(always)]
fn write_need<W: Write>(
    word: &'static [u8],
    place: &ToldPlace<'_>,
    resource: &[u8],
    units: u32,
    writer: &mut W,
) -> Result<(), WriteFault>
    ensures { Writes (W.contents writer.old) (W.contents writer.new) result
        (word.now ++ line_text (told_text place.now ∷ need_text (record { resource = resource.now; units = units }) ∷ [])) }
{
    if units <= 1 {
        return write_step(word, place, resource, writer);
    }
    let mut digits = Buffer::new();
    let units = digits.format(units).as_bytes();
    write_apart(
        &[word],
        place,
        &[b" ", resource, b"*", units, b"\n"],
        writer,
    )
}

/// Writes the line of a pass: the batch and the act's place, the place of the unit procedure, the unit, and how many units of it if
/// it is more than one.
#[inline(never)]
fn write_pass<W: Write>(
    place: &ToldPlace<'_>,
    cleared: &Cleared,
    recipe: u16,
    to: u16,
    resource: u16,
    units: u32,
    writer: &mut W,
) -> Result<(), WriteFault>
    ensures { Writes (W.contents writer.old) (W.contents writer.new) result
        (codes "pass " ++ line_text (told_text place.now ∷ place_text (recipe_place_at cleared.now recipe to) ∷ need_text (need_of cleared.now resource units) ∷ [])) }
{
    write_apart(&[b"pass "], place, &[b" "], writer)?;
    write_node_place(cleared, recipe, to, writer)?;
    write_told_need(resource_name(cleared, resource), units, writer)
}

/// Writes a need as the last word of a line.
fn write_told_need<W: Write>(resource: &[u8], units: u32, writer: &mut W) -> Result<(), WriteFault>
    ensures { Writes (W.contents writer.old) (W.contents writer.new) result
        (codes " " ++ (need_text (record { resource = resource.now; units = units }) ++ codes "\n")) }
{
    if units <= 1 {
        return write_pieces(writer, &[b" ", resource, b"\n"]);
    }
    let mut digits = Buffer::new();
    let units = digits.format(units).as_bytes();
    write_pieces(writer, &[b" ", resource, b"*", units, b"\n"])
}

fn write_start<W: Write>(
    place: &ToldPlace<'_>,
    cleared: &Cleared,
    recipe: u16,
    node: u16,
    unit: u16,
    phase: u16,
    values: [u64; MAX_VALUES],
    writer: &mut W,
) -> Result<(), WriteFault>
    ensures { Writes (W.contents writer.old) (W.contents writer.new) result
        (codes "start " ++ line_text (told_text place.now ∷ resource_name cleared.now unit ∷ phase_name cleared.now unit phase ∷ value_texts (zip (handed_at cleared.now recipe node) values))) }
{
    let unit_name = resource_name(cleared, unit);
    let phase_name = phase_name(cleared, unit, phase);
    write_handing(
        place, unit_name, phase_name, cleared, recipe, node, values, writer,
    )
}

/// Writes the line of a phase's start, with the values that it is handed.
fn write_handing<W: Write>(
    place: &ToldPlace<'_>,
    unit: &[u8],
    phase: &[u8],
    cleared: &Cleared,
    recipe: u16,
    node: u16,
    values: [u64; MAX_VALUES],
    writer: &mut W,
) -> Result<(), WriteFault>
    ensures { Writes (W.contents writer.old) (W.contents writer.new) result
        (codes "start " ++ line_text (told_text place.now ∷ unit.now ∷ phase.now ∷ value_texts (zip (handed_at cleared.now recipe node) values))) }
{
    write_phase_front(b"start ", place, unit, phase, writer)?;
    write_values(handed_names(cleared, recipe, node), values, writer)?;
    write_all(writer, b"\n")
}

/// Writes the beginning of a line of a phase step: the word and a space, the batch and the step's place, the unit and its phase.
#[inline(always)]
fn write_phase_front<W: Write>(
    word: &'static [u8],
    place: &ToldPlace<'_>,
    unit: &[u8],
    phase: &[u8],
    writer: &mut W,
) -> Result<(), WriteFault>
    ensures { Writes (W.contents writer.old) (W.contents writer.new) result
        (phase_front word.now (told_text place.now) unit.now phase.now) }
{
    write_apart(&[word], place, &[b" ", unit, b" ", phase], writer)
}

/// Writes pieces, a place, and pieces after it, however long they are.
#[inline(always)]
fn write_apart<W: Write>(
    head: &[&[u8]],
    place: &ToldPlace<'_>,
    tail: &[&[u8]],
    writer: &mut W,
) -> Result<(), WriteFault>
    ensures { Writes (W.contents writer.old) (W.contents writer.new) result (before head.now (told_text place.now ++ before tail.now [])) }
{
    write_pieces(writer, head)?;
    write_place(place, writer)?;
    write_pieces(writer, tail)
}

/// Writes the names beside the values, as far as there are both.
fn write_values<W: Write>(
    names: &[Name],
    values: [u64; MAX_VALUES],
    writer: &mut W,
) -> Result<(), WriteFault>
    ensures { Writes (W.contents writer.old) (W.contents writer.new) result (values_text (zip names.now values)) }
{
    for i in 0..MAX_VALUES {
        match names.get(i) {
            Some(name) => write_value(name.text().as_bytes(), values[i], writer)?,
            None => break,
        }
    }
    Ok(())
}

fn write_value<W: Write>(name: &[u8], value: u64, writer: &mut W) -> Result<(), WriteFault>
    ensures { Writes (W.contents writer.old) (W.contents writer.new) result (codes " " ++ value_text (name.now, value)) }
{
    let mut digits = Buffer::new();
    write_pieces(writer, &[b" ", name, b"=", digits.format(value).as_bytes()])
}
