//! Laws over runs of the program.
ghost use Rattle.batch_verdicts.specs.Reading.{SetsStay};
ghost use Rattle.batch_verdicts.specs.Statuses.{NoCommandServes, ServesClearedSets, SuccessIsTold};

use crate::documents::Documents;

/// The facts about the documents and standard output that follow from the result of [`run_words`](crate::run_words): its exit status,
/// or the set that is to be served.
pub fn statuses_tell<D: Documents>(documents: &D)
    // claim: warnings at success; `verify`'s text; `verify`'s clearance; `check`'s certificate
    ensures success { SuccessIsTold (D.gives documents.now) }
    // claim: only where asked
    ensures served { ServesClearedSets (D.gives documents.now) }
    // claim: demo served
    ensures serving { NoCommandServes (D.gives documents.now) }
{
    let _documents = documents;
}

/// Recipes make the same set for a cell without the charts that no node follows.
pub fn sets_stay()
    // claim: charts dropped
    ensures { SetsStay }
{}
