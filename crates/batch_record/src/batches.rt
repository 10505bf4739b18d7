//! The listed batches, by the lines of a record.
ghost use Rattle.std.specs.Prelude.{◌≡◌, ℕ, None, OnOk};
ghost use Rattle.batch_record.specs.Reading.{out_told};
ghost use Rattle.batch_record.specs.Kept.{BatchesAfter, ListsBatch, TellsState, UnlistsBatch, listed_in};

use crate::memory::{NoMemory, read_name};
use crate::told::{Created, RecordedOut};
use batch_matrix::State;
use batch_text::Name;
use std::alloc::Global;
use std::collections::BTreeMap;

/// A batch's recipe, its size, and its state.
#[derive(Drop)]
pub struct Batch {
    pub recipe: Name,
    pub size: u64,
    pub state: State,
}

/// The batches that were made and not yet removed, by their numbers.
#[derive(Drop)]
pub struct Batches {
    pub(crate) listed: BTreeMap<u64, Batch>,
}

impl Batches {
    /// No batches.
    pub fn new(alloc: Global) -> Batches
        ensures { (number : ℕ) → listed_in result number ≡ None }
    {
        Batches {
            listed: BTreeMap::new(alloc),
        }
    }

    /// Applies an out to the listed batches.
    pub fn apply_out(&mut self, alloc: Global, told: RecordedOut<'_>) -> Result<(), NoMemory>
        ensures { OnOk result (BatchesAfter self.old (out_told told.entry) self.new) }
    {
        match told {
            RecordedOut::Created(created) => {
                let Created {
                    batch,
                    recipe,
                    size,
                    ..
                } = created;
                self.add(alloc, batch, recipe, size, State::Idle)?;
            }
            RecordedOut::Ordered { batch, state, .. } | RecordedOut::Stated { batch, state } => {
                self.set_state(batch, state);
            }
            RecordedOut::Reported(report) => self.set_state(report.batch, report.state),
            RecordedOut::Removed { batch } => self.remove(batch),
            _ => {}
        }
        Ok(())
    }

    /// Lists a batch.
    pub fn add(
        &mut self,
        alloc: Global,
        number: u64,
        recipe: &[u8],
        size: u64,
        state: State,
    ) -> Result<(), NoMemory>
        ensures { OnOk result (ListsBatch self.old number (record { recipe = recipe.now; size = size; state = state }) self.new) }
    {
        let batch = Batch {
            recipe: read_name(alloc, recipe)?,
            size,
            state,
        };
        match self.listed.insert(number, batch) {
            Ok(_) => Ok(()),
            Err(_) => Err(NoMemory),
        }
    }

    fn set_state(&mut self, number: u64, state: State)
        ensures { TellsState self.old number state self.new }
    {
        if let Some(batch) = self.listed.get_mut(&number) {
            batch.state = state;
        }
    }

    fn remove(&mut self, number: u64)
        ensures { UnlistsBatch self.old number self.new }
    {
        self.listed.remove(&number);
    }
}
