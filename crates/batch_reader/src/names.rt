//! Names that have to differ.
ghost use Rattle.std.specs.Prelude.{◌≡◌, ◌≢◌, ℕ, List, [], ◌∷◌, ◌++◌, map, nat_eq, codes, OnOk, IfErr, IsErrOf};
ghost use Rattle.std.specs.Cmp.Lexicographic.{pointwise};
ghost use Rattle.std.specs.List.{IsDistinct};
ghost use Rattle.batch_reader.specs.Faults.{TellsAt, TellsIn};
ghost use Rattle.batch_reader.specs.PartFaults.{FailsFirst, IsDuplicateAt};
ghost use Rattle.batch_reader.specs.declared.fault.EntryFault.{EntryFault};
ghost use Rattle.batch_reader.specs.declared.fault.Spot.{Spot};

use crate::fault::{EntryFault, Spot, TableFault, TableKind};
use batch_text::Name;
use indexmap::IndexSet;
use std::alloc::Global;

/// An item that a table of a document declares by a name.
pub(crate) trait Named {
    ghost name_of: { Self → List ℕ };

    fn name(&self) -> &Name
        ensures { result.now ≡ name_of self.now };
}

/// Adds a name, which stands at the key of the table at the spot, to those that are declared.
pub(crate) fn add_name(
    alloc: Global,
    names: &mut IndexSet<Name>,
    name: &Name,
    key: &'static str,
    spot: Spot,
) -> Result<(), TableFault>
    ensures ok { OnOk result (names.new.keys ≡ names.old.keys ++ name.now ∷ []) }
    ensures distinct { OnOk result (IsDistinct (pointwise nat_eq) names.new.keys) }
    ensures refused { IfErr result (λ fault. fault ≢ TableFault.Memory
        → ¬ (IsDistinct (pointwise nat_eq) (names.old.keys ++ name.now ∷ []))) }
    ensures told { IfErr result (TellsAt spot (IsDuplicateAt key.now)) }
{
    let Ok(copy) = name.copy(alloc) else {
        return Err(TableFault::Memory);
    };
    if !names.insert(copy)? {
        return Err(TableFault::Entry(spot, EntryFault::Duplicate(key)));
    }
    Ok(())
}

/// Adds the names of all tables of a kind.
pub(crate) fn add_names<T: Named>(
    alloc: Global,
    names: &mut IndexSet<Name>,
    items: &[T],
    kind: TableKind,
) -> Result<(), TableFault>
    requires { IsDistinct (pointwise nat_eq) names.old.keys }
    ensures ok { OnOk result (names.new.keys ≡ names.old.keys ++ map T.name_of items.now) }
    ensures distinct { OnOk result (IsDistinct (pointwise nat_eq) names.new.keys) }
    ensures refused { IfErr result (λ fault. fault ≢ TableFault.Memory
        → ¬ (IsDistinct (pointwise nat_eq) (names.old.keys ++ map T.name_of items.now))) }
    ensures told { IfErr result (TellsIn kind (λ _. IsDuplicateAt (codes "name"))) }
    ensures first { (spot : Spot) (wrong : EntryFault) → IsErrOf result (TableFault.Entry spot wrong)
        → FailsFirst (λ front. IsDistinct (pointwise nat_eq) (names.old.keys ++ map T.name_of front)) items.now spot.entry }
{
    for (entry, item) in items.iter().enumerate() {
        add_name(alloc, names, item.name(), "name", Spot { kind, entry })?;
    }
    Ok(())
}

/// Adds names that all stand at the key of the table at the spot.
pub(crate) fn add_list(
    alloc: Global,
    names: &mut IndexSet<Name>,
    list: &[Name],
    key: &'static str,
    spot: Spot,
) -> Result<(), TableFault>
    requires { IsDistinct (pointwise nat_eq) names.old.keys }
    ensures ok { OnOk result (names.new.keys ≡ names.old.keys ++ list.now) }
    ensures distinct { OnOk result (IsDistinct (pointwise nat_eq) names.new.keys) }
    ensures refused { IfErr result (λ fault. fault ≢ TableFault.Memory
        → ¬ (IsDistinct (pointwise nat_eq) (names.old.keys ++ list.now))) }
    ensures told { IfErr result (TellsAt spot (IsDuplicateAt key.now)) }
{
    for name in list {
        add_name(alloc, names, name, key, spot)?;
    }
    Ok(())
}
