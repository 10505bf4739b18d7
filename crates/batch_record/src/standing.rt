//! The standing shares of resources, by the lines of a record.
ghost use Rattle.std.specs.Prelude.{◌≡◌, ◌++◌, ◌∷◌, [], filter, IfOk, OnOk, OnErr};
ghost use Rattle.std.specs.List.Sorted.{IsSorted};
ghost use Rattle.batch_recipe.specs.Conditions.{Name};
ghost use Rattle.batch_text.specs.PlaceText.{numbers_of};
ghost use Rattle.batch_model.specs.Plant.{BatchAct};
ghost use Rattle.batch_record.specs.Listing.{holder_cmp, waiter_cmp, of_act};
ghost use Rattle.batch_record.specs.Kept.{kept_act, kept_claim, kept_claims, shares_of_resource, is_other, HoldersAfter, WaitersAfter, ShareJoins, Leaves, Passes, BatchLeaves, LeavesAt};
ghost use Rattle.batch_record.specs.Reading.{out_told, claim_told, claim_and_place_told};

use crate::memory::{NoMemory, read_name, read_place};
use crate::told::{Claim, Passed, RecordedOut};
use batch_matrix::Command;
use batch_text::{Name, Place};
use std::alloc::Global;
use std::cmp::Ordering;

/// A share of a resource.
#[derive(Drop)]
pub struct Kept {
    pub resource: Name,
    pub batch: u64,
    pub place: Place,
    pub units: u32,
}

impl Kept {
    /// The share of the claim.
    fn of(alloc: Global, claim: Claim<'_>) -> Result<Kept, NoMemory>
        ensures { IfOk result (λ kept. kept ≡ record {
          resource = claim.entry.resource.now;
          batch = claim.entry.batch;
          place = numbers_of claim.entry.place.now;
          units = claim.entry.units;
        }) }
    {
        Ok(Kept {
            resource: read_name(alloc, claim.resource)?,
            batch: claim.batch,
            place: read_place(alloc, claim.place)?,
            units: claim.units,
        })
    }
}

/// Shares of resources, the oldest first.
#[derive(Drop)]
pub struct Standing {
    shares: Vec<Kept>,
}

impl Standing {
    /// No shares.
    pub fn new(alloc: Global) -> Standing
        ensures { result.shares.items ≡ [] }
    {
        Standing {
            shares: Vec::new(alloc),
        }
    }

    /// The shares, the oldest first.
    pub fn shares(&self) -> &[Kept]
        ensures { result.now ≡ self.now.shares.items }
    {
        self.shares.as_slice()
    }

    /// Sorts the shares by resource, then by the batch's number, then by place.
    pub(crate) fn sort_as_holders(&mut self) -> Result<(), NoMemory>
        ensures sorted { OnOk result (IsSorted holder_cmp (kept_claims self.new.shares.items)) }
        ensures stable { (resource : Name) (act : BatchAct) → of_act act (shares_of_resource resource self.new.shares.items)
            ≡ of_act act (shares_of_resource resource self.old.shares.items) }
    {
        Ok(
            self.shares
                .sort_by(|kept, other| compare_holders(kept, other))?,
        )
    }

    /// Sorts the shares by resource, then as they came.
    pub(crate) fn sort_as_waiters(&mut self) -> Result<(), NoMemory>
        ensures sorted { OnOk result (IsSorted waiter_cmp (kept_claims self.new.shares.items)) }
        ensures stable { (resource : Name) → shares_of_resource resource self.new.shares.items ≡ shares_of_resource resource self.old.shares.items }
    {
        Ok(
            self.shares
                .sort_by(|kept, other| compare_waiters(kept, other))?,
        )
    }

    /// Applies an out to the shares of holders.
    pub fn apply_to_holders(&mut self, alloc: Global, told: RecordedOut<'_>) -> Result<(), NoMemory>
        ensures ok { OnOk result (HoldersAfter self.old.shares.items (out_told told.entry) self.new.shares.items) }
        ensures err { OnErr result (self.new.shares.items ≡ self.old.shares.items) }
    {
        match told {
            RecordedOut::Granted(claim) => self.claim_joins(alloc, claim),
            RecordedOut::Released(claim) => self.claim_leaves(alloc, claim),
            RecordedOut::Passed(told) => self.claim_passes(alloc, told),
            _ => Ok(()),
        }
    }

    /// Applies an out to the shares of waiting acts.
    pub fn apply_to_waiters(&mut self, alloc: Global, told: RecordedOut<'_>) -> Result<(), NoMemory>
        ensures ok { OnOk result (WaitersAfter self.old.shares.items (out_told told.entry) self.new.shares.items) }
        ensures err { OnErr result (self.new.shares.items ≡ self.old.shares.items) }
    {
        match told {
            RecordedOut::Asked(claim) => self.claim_joins(alloc, claim),
            RecordedOut::Granted(claim) => self.claim_leaves(alloc, claim),
            RecordedOut::Ordered { command, batch, .. } => {
                self.end_asks(command, batch);
                Ok(())
            }
            _ => Ok(()),
        }
    }

    /// If the command ends the asks of its batch, they leave.
    fn end_asks(&mut self, command: Command, batch: u64)
        ensures { LeavesAt command batch self.old.shares.items self.new.shares.items }
    {
        if matches!(command, Command::Stop | Command::Abort) {
            self.batch_leaves(batch);
        }
    }

    fn batch_leaves(&mut self, batch: u64)
        ensures { BatchLeaves batch self.old.shares.items self.new.shares.items }
    {
        self.shares.retain(|kept| kept.batch != batch);
    }

    /// The act's share of the resource leaves.
    fn leave(&mut self, left: &Kept)
        ensures { self.new.shares.items ≡ filter (is_other left.now.resource (kept_act left.now)) self.old.shares.items }
    {
        self.shares.retain(|kept| !(left.resource == kept.resource
            && kept.batch == left.batch
            && kept.place == left.place));
    }

    /// The share joins, and that of the same batch at the place leaves.
    fn take_over(&mut self, place: &Place, kept: Kept) -> Result<(), NoMemory>
        ensures ok { OnOk result (self.new.shares.items ≡ filter (is_other kept.resource (kept.batch, place.now)) self.old.shares.items ++ kept ∷ []) }
        ensures err { OnErr result (self.new.shares.items ≡ self.old.shares.items) }
    {
        if self.shares.reserve(1).is_err() {
            return Err(NoMemory);
        }
        self.shares.retain(|share| !(kept.resource == share.resource
            && share.batch == kept.batch
            && share.place == *place));
        self.shares.push_reserved(kept);
        Ok(())
    }

    pub(crate) fn claim_joins(&mut self, alloc: Global, claim: Claim<'_>) -> Result<(), NoMemory>
        ensures ok { OnOk result (ShareJoins self.old.shares.items (claim_told claim.entry) self.new.shares.items) }
        ensures err { OnErr result (self.new.shares.items ≡ self.old.shares.items) }
    {
        let joined = Kept::of(alloc, claim)?;
        self.shares.push(joined).map_err(|_| NoMemory)
    }

    fn claim_leaves(&mut self, alloc: Global, claim: Claim<'_>) -> Result<(), NoMemory>
        ensures ok { OnOk result (Leaves self.old.shares.items (claim_told claim.entry) self.new.shares.items) }
        ensures err { OnErr result (self.new.shares.items ≡ self.old.shares.items) }
    {
        let left = Kept::of(alloc, claim)?;
        self.leave(&left);
        Ok(())
    }

    fn claim_passes(&mut self, alloc: Global, told: Passed<'_>) -> Result<(), NoMemory>
        ensures ok { OnOk result (Passes self.old.shares.items (claim_and_place_told told.entry) self.new.shares.items) }
        ensures err { OnErr result (self.new.shares.items ≡ self.old.shares.items) }
    {
        let claim = told.claim;
        let resource = read_name(alloc, claim.resource)?;
        let place = read_place(alloc, claim.place)?;
        let to = read_place(alloc, told.to)?;
        self.take_over(
            &place,
            Kept {
                resource,
                batch: claim.batch,
                place: to,
                units: claim.units,
            },
        )
    }
}

fn compare_holders(kept: &Kept, other: &Kept) -> Ordering
    ensures { result ≡ holder_cmp (kept_claim kept.now) (kept_claim other.now) }
{
    let acts = kept.batch.cmp(&other.batch);
    let places = kept.place.numbers().cmp(other.place.numbers());
    compare_waiters(kept, other).then(acts.then(places))
}

fn compare_waiters(kept: &Kept, other: &Kept) -> Ordering
    ensures { result ≡ waiter_cmp (kept_claim kept.now) (kept_claim other.now) }
{
    kept.resource.cmp(&other.resource)
}
