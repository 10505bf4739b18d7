//! Serving the runs of a turn.
ghost use Rattle.std.specs.Prelude.{◌≡◌, IfOk};
ghost use Rattle.batch_engine.specs.View.{setup, plant_of};
ghost use Rattle.batch_serve.specs.Served.{AreServed, IsRunAnswered};

use crate::remarks::NoRemarks;
use crate::run::Run;
use crate::serving::serve;
use batch_engine::Engine;
use std::alloc::{AllocError, Global};

/// Answers the lines of a run. The answers are of the same desk.
///
/// The error is that there is no memory for them. Then the machine may be ahead of its answers.
fn serve_run(alloc: Global, engine: &mut Engine, run: &Run) -> Result<Run, AllocError>
    ensures cleared { engine.new.cleared ≡ engine.old.cleared }
    ensures served { IfOk result (λ answer. IsRunAnswered (setup engine.old.cleared) (plant_of engine.old) run.now answer (plant_of engine.new)) }
{
    let mut text = Vec::new(alloc);
    let mut lines = run.text();
    // A slice can be read, and has an end: the text alone may fail.
    match serve(
        alloc,
        engine,
        &mut lines,
        &mut text,
        &mut NoRemarks,
        u64::MAX,
    ) {
        Ok(()) => Ok(Run::new(run.desk(), text)),
        Err(_) => Err(AllocError),
    }
}

/// Answers the runs, one after the other.
///
/// The error is that there is no memory for the answers. Then the machine may be ahead of them.
pub(crate) fn serve_runs(
    alloc: Global,
    engine: &mut Engine,
    runs: &[Run],
) -> Result<Vec<Run>, AllocError>
    ensures cleared { engine.new.cleared ≡ engine.old.cleared }
    ensures served { IfOk result (λ answers. AreServed (setup engine.old.cleared) (plant_of engine.old) runs.now answers.items (plant_of engine.new)) }
{
    let mut answers = Vec::new(alloc);
    for run in runs {
        let answer = serve_run(alloc, engine, run)?;
        answers.push(answer)?;
    }
    Ok(answers)
}
