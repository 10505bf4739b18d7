//! Laws of groups and lines. Nothing runs here: the contracts are the laws.
ghost use Rattle.batch_journal.specs.Groups.{GroupsGoOn, GroupIsTaken, TornIsLeft};
ghost use Rattle.batch_journal.specs.Readers.{LinesBegin};
ghost use Rattle.batch_journal.specs.RowsOfRecovery.{RecoveryRows};
ghost use Rattle.batch_journal.specs.Recovery.{CrashIsNoDamage, RecoveredAreLines, TakenIsNotRefused, WholeLinesAreLines};

/// Groups behind recovered groups are recovered as they are by themselves, for every sum function.
// claim: groups go on
pub fn groups_go_on()
    ensures { GroupsGoOn }
{}

/// A group that was written is recovered whole.
// claim: a group is taken
pub fn group_is_taken()
    ensures { GroupIsTaken }
{}

/// Lines whose group isn't closed aren't recovered.
// claim: a torn group is left
pub fn torn_is_left()
    ensures { TornIsLeft }
{}

/// If the text of the lines recovered from a file begins with the text of some lines, these are its first recovered lines.
// claim: lines begin
pub fn lines_begin()
    ensures { LinesBegin }
{}

/// A group that was being written isn't taken for damage, whatever a crash leaves of it.
// claim: a crash is no damage
pub fn crash_is_no_damage()
    ensures { CrashIsNoDamage }
{}

/// No file that a start accepts has a reason to be refused.
// claim: taken isn't refused
pub fn taken_is_not_refused()
    ensures { TakenIsNotRefused }
{}

/// Whole lines and recovered lines are lines: none has a line feed or a zero byte.
// claim: lines are recovered
pub fn recovered_are_lines()
    ensures whole { WholeLinesAreLines }
    ensures recovered { RecoveredAreLines }
{}

/// Files that a start takes, and files that it doesn't.
// claim: rows of files
pub fn recovery_rows()
    ensures { RecoveryRows }
{}
