//! Laws over runs of the program.
ghost use Rattle.batch_program.specs.JournalRuns.{disks_of};
ghost use Rattle.batch_program.specs.Programs.{AuditsAreTrue, CertificatesAreKept, DesksAreKept, DesksAreSafe, JournalledServingIsSafe, PlantsAreComplete, ServingIsSafe, RemarkedServingIsSafe};

use crate::journals::Journals;
use crate::records::Records;
use batch_keep::desks_are_told_again;
use batch_serve::answers_go_on_safely;
use batch_verdicts::Documents;

/// If a run that serves ends with status 0, all lines of the input were answered, and the written text is that of a safe record.
///
/// The set is that of the documents, cleared by their certificate.
// claim: all lines answered; documents' own set; safe record written; batches left
pub fn serving_is_safe<D: Documents + Records + Journals>(documents: &D)
    ensures { ServingIsSafe (D.gives documents.now) (D.holds documents.now)
        (record { disks = disks_of D.File.Disk; opens = D.opens documents.now }) }
{
    let _documents = documents;
}

/// If a run of `audit` ends with status 0, it has written `accepted`, and the record is that of the lines of the input, or begins it if
/// that is accepted.
///
/// The set is that of the documents, cleared by their certificate.
// claim: audit accepted
pub fn audits_are_true<D: Documents + Records + Journals>(documents: &D)
    ensures { AuditsAreTrue (D.gives documents.now) (D.holds documents.now)
        (record { disks = disks_of D.File.Disk; opens = D.opens documents.now }) }
{
    let _documents = documents;
}

/// If a run that serves with comments in the record ends with status 0, all lines of the input were answered, and the written text, but
/// for its comments, is that of a safe record.
///
/// The set is that of the documents, cleared by their certificate.
// claim: serves with comments
pub fn remarked_serving_is_safe<D: Documents + Records + Journals>(documents: &D)
    ensures { RemarkedServingIsSafe (D.gives documents.now) (D.holds documents.now)
        (record { disks = disks_of D.File.Disk; opens = D.opens documents.now }) }
{
    let _documents = documents;
}

/// If a run over a journal ends with status 0, all lines of the input were answered behind the recovery block, and the answers are the later
/// part of the text of a safe record.
///
/// The record begins with the answers to the lines that the file had. The set is that of the documents, cleared by their certificate.
// claim: safe over a file
pub fn journalled_serving_is_safe<D: Documents + Records + Journals>(documents: &D)
    ensures { JournalledServingIsSafe (D.gives documents.now) (D.holds documents.now)
        (record { disks = disks_of D.File.Disk; opens = D.opens documents.now }) }
{
    answers_go_on_safely();
    let _documents = documents;
}

/// If a run of `check --write` ends with status 0, the file contains the text of a verdict that accepts the documents, if its contents
/// are known, and nothing was written to standard output.
// claim: file written
pub fn certificates_are_kept<D: Documents + Records + Journals>(documents: &D)
    ensures { CertificatesAreKept (D.gives documents.now) (D.holds documents.now)
        (record { disks = disks_of D.File.Disk; opens = D.opens documents.now }) }
{
    let _documents = documents;
}

/// If a run of `plant` ends with status 0, it has written the three lines, and a record leads to a plant in which the batches that were
/// asked for are complete.
///
/// The record is over the set of the documents, or of the demo. It has as many events as the third line says. Its creates are of the
/// set's first recipe, in the size of its basis, with the first unit of its class in each role.
// claim: plant complete
pub fn plants_are_complete<D: Documents + Records + Journals>(documents: &D)
    ensures { PlantsAreComplete (D.gives documents.now) (D.holds documents.now)
        (record { disks = disks_of D.File.Disk; opens = D.opens documents.now }) }
{
    let _documents = documents;
}

/// If a run that serves desks without a journal ends with status 0, the written text is that of a safe transcript of the desks' lines, in
/// the order in which they were served.
///
/// The desks and the set are those of the documents, cleared by their certificate.
// claim: desks served
pub fn desks_are_safe<D: Documents + Records + Journals>(documents: &D)
    ensures { DesksAreSafe (D.gives documents.now) (D.holds documents.now)
        (record { disks = disks_of D.File.Disk; opens = D.opens documents.now }) }
{
    let _documents = documents;
}

/// If a run that serves desks over a journal ends with status 0, a replay of the file that a crash leaves writes the answers of the run
/// again.
///
/// - the desks and the set are those of the documents;
/// - the run has written the recovery block of the lines that the file had, and behind it the answers to lines of the desks;
/// - the answers to the block's lines and these are together the text of a safe record;
/// - the replay writes again the answers to the block's lines, and these answers without their comments.
// claim: desks kept; safe over a file
pub fn desks_are_kept<D: Documents + Records + Journals>(documents: &D)
    ensures { DesksAreKept (D.gives documents.now) (D.holds documents.now)
        (record { disks = disks_of D.File.Disk; opens = D.opens documents.now }) }
{
    desks_are_told_again();
    answers_go_on_safely();
    let _documents = documents;
}
