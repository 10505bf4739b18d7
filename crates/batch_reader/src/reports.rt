//! The outputs that phase steps report.
ghost use Rattle.std.specs.Prelude.{◌≡◌, ◌≢◌, ◌&&◌, true, codes, IfErr, OnOk};
ghost use Rattle.std.specs.List.{list_all, list_any};
ghost use Rattle.batch_recipe.specs.Conditions.{same_name};
ghost use Rattle.batch_recipe.specs.WellFormed.{are_distinct, is_among, reports_among, reports_once, reports_with};
ghost use Rattle.batch_reader.specs.Faults.{IsAmong, Tells, TellsIn, is_of_recipe};
ghost use Rattle.batch_reader.specs.PartFaults.{FailsFirst, IsDuplicateAt, IsReportFault, IsUndeclaredAt};

use crate::fault::{EntryFault, Spot, TableFault, TableKind};
use batch_recipe::{Act, Acts, Work};
use batch_text::Name;

/// Tests that each phase step reports outputs of the recipe, each once.
pub(crate) fn check_reports(outputs: &[Name], acts: &Acts) -> Result<(), TableFault>
    ensures ok { OnOk result ((list_all reports_once acts.now.phases.items && list_all (reports_among outputs.now) acts.now.phases.items) ≡ true) }
    ensures refused { IfErr result (λ fault. (list_all reports_once acts.now.phases.items && list_all (reports_among outputs.now) acts.now.phases.items) ≢ true) }
    ensures no_memory { IfErr result (λ fault. fault ≢ TableFault.Memory) }
    ensures told { IfErr result (IsAmong is_of_recipe) }
    ensures stands { IfErr result (Tells (λ spot. IsReportFault outputs.now acts.now spot.kind spot.entry)) }
{
    check_once(&acts.phases)?;
    check_declared(outputs, &acts.phases)
}

/// Tests that no phase step reports an output twice.
fn check_once(phases: &[Act]) -> Result<(), TableFault>
    ensures ok { OnOk result (list_all reports_once phases.now ≡ true) }
    ensures refused { IfErr result (λ fault. list_all reports_once phases.now ≢ true) }
    ensures no_memory { IfErr result (λ fault. fault ≢ TableFault.Memory) }
    ensures told { IfErr result (TellsIn TableKind.Phase (λ _. IsDuplicateAt (codes "reports"))) }
    ensures stands { IfErr result (Tells (λ spot _. FailsFirst (λ front. list_all reports_once front ≡ true) phases.now spot.entry)) }
{
    for (entry, step) in phases.iter().enumerate() {
        if !reports_once(step) {
            let spot = Spot {
                kind: TableKind::Phase,
                entry,
            };
            return Err(TableFault::Entry(spot, EntryFault::Duplicate("reports")));
        }
    }
    Ok(())
}

/// Tests that the phase steps report nothing but these outputs.
fn check_declared(outputs: &[Name], phases: &[Act]) -> Result<(), TableFault>
    ensures ok { OnOk result (list_all (reports_among outputs.now) phases.now ≡ true) }
    ensures refused { IfErr result (λ fault. list_all (reports_among outputs.now) phases.now ≢ true) }
    ensures no_memory { IfErr result (λ fault. fault ≢ TableFault.Memory) }
    ensures told { IfErr result (TellsIn TableKind.Phase (λ _. IsUndeclaredAt (codes "reports"))) }
    ensures stands { IfErr result (Tells (λ spot _. FailsFirst (λ front. list_all (reports_among outputs.now) front ≡ true) phases.now spot.entry)) }
{
    for (entry, step) in phases.iter().enumerate() {
        if !reports_among(step, outputs) {
            let spot = Spot {
                kind: TableKind::Phase,
                entry,
            };
            return Err(TableFault::Entry(spot, EntryFault::Undeclared("reports")));
        }
    }
    Ok(())
}

/// The outputs that an act reports.
fn reports_of(act: &Act) -> &[Name]
    ensures { result.now ≡ reports_with act.now.work }
{
    match &act.work {
        Work::Follows(_) => &[],
        Work::Runs { reports, .. } => reports,
    }
}

fn reports_once(act: &Act) -> bool
    ensures { result ≡ reports_once act.now }
{
    are_distinct(reports_of(act))
}

fn reports_among(act: &Act, outputs: &[Name]) -> bool
    ensures { result ≡ reports_among outputs.now act.now }
{
    reports_of(act).iter().all(|name| is_among(name, outputs))
}

/// Whether none of the names stands twice.
pub(crate) fn are_distinct(names: &[Name]) -> bool
    ensures { result ≡ are_distinct names.now }
{
    for (index, name) in names.iter().enumerate() {
        if is_among(name, &names[index + 1..]) {
            return false;
        }
    }
    true
}

fn is_among(name: &Name, names: &[Name]) -> bool
    ensures { result ≡ is_among names.now name.now }
{
    names.iter().any(|known| *name == *known)
}
