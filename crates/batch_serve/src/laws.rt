//! Laws of transcripts. Nothing runs here: the contracts are the laws.
ghost use Rattle.batch_serve.specs.CleanLines.{CleanLinesAgree, CleanLinesServeAlike};
ghost use Rattle.batch_serve.specs.Replays.{NoWantIsWell, ServingAgrees, ToldIsRecovered, TranscriptsAreWhole, WantIsNotTold};
ghost use Rattle.batch_serve.specs.RowsOfCleanLines.{CleanLineRows};
ghost use Rattle.batch_serve.specs.RowsOfComments.{CommentRows};
ghost use Rattle.batch_serve.specs.RowsOfHeld.{HeldRows};
ghost use Rattle.batch_serve.specs.RowsOfUnfinished.{UnfinishedRows};
ghost use Rattle.batch_serve.specs.Safe.{TranscriptsAreSafe, TranscriptsLeaveNobodyInVain};
ghost use Rattle.batch_serve.specs.Settled.{TranscriptsSettle};

use batch_verify::Cleared;

/// The outs of a transcript from the opening of a cleared set are a safe record, which leads to the plant of the transcript:
/// whoever holds a [`Cleared`] may cite this of it.
// claim: safe transcripts
pub fn transcripts_are_safe(cleared: &Cleared)
    ensures { TranscriptsAreSafe cleared.now }
{
    batch_safety::cleared_runs_safely(cleared);
}

/// After a transcript from the opening of a cleared set nobody waits in vain.
///
/// Each resource that is asked for has less free than its oldest ask wants. Every chain of waiting ends at a holder that is at work.
// claim: transcripts not in vain
pub fn transcripts_leave_nobody_in_vain(cleared: &Cleared)
    ensures { TranscriptsLeaveNobodyInVain cleared.now }
{
    batch_safety::cleared_runs_safely(cleared);
}

/// If no move is possible at the beginning of a transcript, none is possible after any of its lines.
// claim: transcripts settle
pub fn transcripts_settle()
    ensures { TranscriptsSettle }
{}

/// The states in which a batch counts as unfinished: those that are neither complete, stopped nor aborted.
// claim: states of unfinished batches
pub fn unfinished_rows()
    ensures { UnfinishedRows }
{}

/// The same lines, served twice with memory for each event, lead to the same text and the same plant: the record is a function of
/// the lines.
// claim: one record of the lines
pub fn serving_agrees()
    ensures { ServingAgrees }
{}

/// A transcript whose text shows neither `refused E11` nor `refused W6` had memory for each of its lines.
// claim: want of memory shows
pub fn no_want_is_well()
    ensures { NoWantIsWell }
{}

/// Lines were served in one run and others in the next, and a prefix of the text of the others was written. The text of a replay of all of
/// them, and of any lines behind, begins with the text of the first run and this prefix. Memory was wanted in none of the three.
// claim: told again
pub fn told_is_recovered()
    ensures { ToldIsRecovered }
{}

/// A line as a journal has it gives the event that it gave before, or is refused alike; one that is left out gave nothing.
// claim: journal lines agree
pub fn clean_lines_agree()
    ensures { CleanLinesAgree }
{}

/// Which lines are kept, changed or left out, and which text is whole lines.
// claim: rows of journal lines
pub fn clean_line_rows()
    ensures { CleanLineRows }
{}

/// Each possible outcome of an input's lines as a journal has them is a possible outcome of the input.
// claim: journal lines serve alike
pub fn clean_lines_serve_alike()
    ensures { CleanLinesServeAlike }
{}

/// `told_is_recovered` if the written text is whole lines that show no want of memory: behind this text memory may have been wanted.
// claim: want isn't told
pub fn want_is_not_told()
    ensures { WantIsNotTold }
{}

/// The text of a transcript is whole lines.
// claim: transcripts are lines
pub fn transcripts_are_whole()
    ensures { TranscriptsAreWhole }
{}

/// Texts without their comments, and the comments that are written.
// claim: rows of comments
pub fn comment_rows()
    ensures { CommentRows }
{}

/// Which texts are clear, and which are held back.
// claim: rows of held text
pub fn held_rows()
    ensures { HeldRows }
{}
