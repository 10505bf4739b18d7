//! Reporting the end of a plant.
ghost use Rattle.std.specs.Prelude.{◌≡◌, IfOk, string_bytes};
ghost use Rattle.batch_verdicts.specs.Running.{Stream};
ghost use Rattle.batch_program.specs.PlantRuns.{IsPlantTold, plant_text};

use crate::statuses::REFUSED;
use batch_plant::PlantFault;
use batch_verdicts::{NO_MEMORY, OUT_OF_MEMORY, complain, print};
use std::alloc::{AllocError, Global};
use std::io::Write;

/// Prints the lines of a plant of so many batches, and gives the exit status. An end without a line is reported on the errors.
// claim: plant's lines
pub fn report_of_plant<W: Write, E: Write>(
    alloc: Global,
    batches: u64,
    end: &Result<u64, PlantFault>,
    output: &mut W,
    errors: &mut E,
) -> u8
    ensures { IsPlantTold (record { before = W.contents output.old; after = W.contents output.new })
        (record { before = E.contents errors.old; after = E.contents errors.new }) batches end.now result }
{
    match end {
        Ok(handled) => match plant_text(alloc, batches, *handled) {
            Ok(text) => print(output, errors, &text, 0),
            Err(_) => complain(errors, OUT_OF_MEMORY, NO_MEMORY),
        },
        Err(PlantFault::TurnsOut) => print(output, errors, "refused turns\n", REFUSED),
        Err(PlantFault::Memory) => complain(errors, OUT_OF_MEMORY, NO_MEMORY),
        Err(PlantFault::Thread) => complain(errors, "a thread can't be started", NO_MEMORY),
        Err(PlantFault::Refused) => complain(errors, "a create was refused", NO_MEMORY),
        Err(PlantFault::Unclosed) => complain(errors, "a port can't be closed", NO_MEMORY),
    }
}

/// The three lines of a plant whose batches are complete.
fn plant_text(alloc: Global, batches: u64, handled: u64) -> Result<String, AllocError>
    ensures { IfOk result (λ text. string_bytes text ≡ plant_text batches handled) }
{
    format!(in alloc; "batches {batches}\ncomplete {batches}\nhandled {handled}\n")
}
