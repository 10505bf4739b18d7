//! The names of desks.
ghost use Rattle.std.specs.Prelude.{◌≡◌, ◌≢◌, nat_eq, OnOk, IfErr};
ghost use Rattle.std.specs.Cmp.Lexicographic.{pointwise};
ghost use Rattle.std.specs.List.{list_any};
ghost use Rattle.batch_reader.specs.Faults.{TellsIn};
ghost use Rattle.batch_reader.specs.declared.fault.TableKind.{TableKind};
ghost use Rattle.batch_reader.specs.DeskNames.{HaveDistinctNames, desk_names};
ghost use Rattle.batch_reader.specs.DesksFaults.{HasDeskNameTwice};

use crate::desk::Desk;
use crate::fault::{EntryFault, Spot, TableFault, TableKind};
use batch_text::Name;

/// Tests that the names of desks differ. Of at most 64 each is compared with those before it, which takes no memory.
pub(crate) fn check_names(desks: &[Desk]) -> Result<(), TableFault>
    ensures no_memory { IfErr result (λ fault. fault ≢ TableFault.Memory) }
    ensures distinct { OnOk result (HaveDistinctNames desks.now) }
    ensures told { IfErr result (TellsIn TableKind.Desk (HasDeskNameTwice desks.now)) }
{
    for (entry, desk) in desks.iter().enumerate() {
        if is_name_of(&desks[..entry], &desk.name) {
            let kind = TableKind::Desk;
            return Err(TableFault::Entry(Spot { kind, entry }, EntryFault::Duplicate("name")));
        }
    }
    Ok(())
}

/// Whether one of the desks has the name.
fn is_name_of(desks: &[Desk], name: &Name) -> bool
    ensures { result ≡ list_any (pointwise nat_eq name.now) (desk_names desks.now) }
{
    desks.iter().any(|desk| *name == desk.name)
}
