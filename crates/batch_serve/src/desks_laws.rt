//! Laws and worked rows of served lines, of the lines due to a desk, and of its queue. Nothing runs here.
ghost use Rattle.batch_serve.specs.Joined.{TranscriptsJoin};
ghost use Rattle.batch_serve.specs.Lives.{LivesBegin, LivesGoOn, LivesHandOn, LivesTake};
ghost use Rattle.batch_serve.specs.Recorded.{RecordsAreSorted};
ghost use Rattle.batch_serve.specs.GoingOn.{ServiceGoesOn, TextsGoOn};
ghost use Rattle.batch_serve.specs.Rounds.{LinesGoOn};
ghost use Rattle.batch_serve.specs.Safe.{TranscriptsGoOnSafely};
ghost use Rattle.batch_serve.specs.Served.{RunsGoOnSafely, ServiceIsSafe};
ghost use Rattle.batch_serve.specs.Dues.{RunsAreSorted};
ghost use Rattle.batch_serve.specs.RowsOfDue.{CommentIsDueToNobody, ConsoleSeesAll, LinkSeesItsOrders, LinkSeesNoOther, RecordIsSorted, ReplyIsOwn};
ghost use Rattle.batch_serve.specs.RowsOfWaits.{FrontIsTold, NoOtherIsTold, RestWaits, CutLosesTheRest};

use crate::keep::Keep;
use crate::laws::transcripts_are_safe;
use crate::rounds::ReaderMessage;
use batch_safety::cleared_sets_run_safely;
use batch_verify::Cleared;
use rtrb::Protocol;

/// Worked rows: the first lines may have been sent, and the rest is queued. No other line is sent, and none out of order. The rest is
/// lost if the desk is cut.
// claim: rows of desks
pub fn waiting_rows()
    ensures front { FrontIsTold }
    ensures no_other { NoOtherIsTold }
    ensures rest { RestWaits }
    ensures cut { CutLosesTheRest }
{}

/// The lines of a record that are due to a desk are those of each of its runs by itself. A run answers the lines of one desk.
// claim: records sorted
pub fn runs_are_sorted()
    ensures { RunsAreSorted }
{}

/// The lines of a record's text that are due to a desk by its comments are the lines of the answers that are due to it.
// claim: records sorted
pub fn records_are_sorted()
    ensures { RecordsAreSorted }
{}

/// Worked rows: replies are due to whoever sent the line, moves to consoles, starts and sends to the link of their unit and to no
/// other; a record of two consoles is sorted by its comments.
// claim: rows of desks
pub fn due_rows()
    ensures reply { ReplyIsOwn }
    ensures console { ConsoleSeesAll }
    ensures link { LinkSeesItsOrders }
    ensures no_other { LinkSeesNoOther }
    ensures comment { CommentIsDueToNobody }
    ensures whole { RecordIsSorted }
{}

/// The answers to runs of lines that were served from the opening of a cleared set are the text of a safe transcript of these
/// lines, in the order in which they were served.
// claim: service is safe
pub fn service_is_safe(cleared: &Cleared)
    ensures { ServiceIsSafe cleared.now }
{
    transcripts_join();
    transcripts_are_safe(cleared);
}

/// Over a set that can be cleared the answers to lines, and to runs of lines, that are served where a transcript from the opening ends are
/// the later part of a safe transcript.
// claim: safe behind a replay
pub fn answers_go_on_safely()
    ensures lines { TranscriptsGoOnSafely }
    ensures runs { RunsGoOnSafely }
{
    transcripts_join();
    cleared_sets_run_safely();
}

/// Runs that were served behind others were served with them. Their text, the lines of it that a desk is due, and the lines that a
/// desk sent follow those of the others.
// claim: service goes on
pub fn service_goes_on()
    ensures served { ServiceGoesOn }
    ensures texts { TextsGoOn }
{}

/// If one transcript ends at the plant with which another begins, both are one transcript of the lines of both.
// claim: transcripts join
pub fn transcripts_join()
    ensures { TranscriptsJoin }
{}

/// A server's account: all runs since it began are kept, and all answers to them are recorded, and sent or queued. It begins with a
/// machine in any state. Each turn continues it, taken lines leave it as it is, and lines handed on to the rings of writers are sent.
// claim: account of desks
pub fn lives_go_on<K: Keep>()
    ensures begin { LivesBegin K.is_safe }
    ensures go_on { LivesGoOn K.is_safe }
    ensures take { LivesTake K.is_safe }
    ensures hand_on { LivesHandOn K.is_safe }
{}

/// The lines of a desk that were served, or are to be served in the next turn, are those of a prefix of the messages that came out of the
/// ring of its reader.
///
/// As long as the desk isn't cut, they are those of all these messages. That stays so as more come.
// claim: lines from readers
pub fn lines_go_on<O: Protocol<ReaderMessage>>()
    ensures { LinesGoOn O O.allows }
{}
