//! Worked rows of audits. Nothing runs here: the contracts are the rows.
ghost use Rattle.batch_keep.specs.RowsOfAudits.{AuditRows};

/// The text of a record's lines without comments, and where its whole lines end.
// claim: worked audits
pub fn audit_rows()
    ensures { AuditRows }
{}
