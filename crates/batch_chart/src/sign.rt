//! The signs by which acts are found, each a bit of a word.
ghost use Rattle.std.specs.Prelude.{◌≡◌};
ghost use Rattle.batch_chart.specs.Noting.{states_accepting, asking_signs, but, flag, freeing_signs, gives, live_signs, open_signs, readied, ready_signs, stage_signs, state_sign};

use crate::stage::Stage;
use batch_matrix::{Command, State};

/// A ready act lacks a need.
pub const LACKS: u32 = 1;

/// A ready act lacks none.
pub const FITS: u32 = 2;

/// An act waits in a queue.
pub const WAITS: u32 = 4;

/// Nothing is left of the chart that an act follows.
pub const IS_OVER: u32 = 8;

/// An act that has ended can give back a need.
pub const FREES: u32 = 16;

pub const HOLDS: u32 = 32;

pub const IS_ACT: u32 = 64;

// A live phase is in this state.
const IDLE: u32 = 128;

const RUNNING: u32 = 256;

const PAUSING: u32 = 512;

const PAUSED: u32 = 1024;

const HOLDING: u32 = 2048;

const HELD: u32 = 4096;

const RESTARTING: u32 = 8192;

const STOPPING: u32 = 16_384;

const STOPPED: u32 = 32_768;

const ABORTING: u32 = 65_536;

const ABORTED: u32 = 131_072;

const COMPLETE: u32 = 262_144;

/// The signs of all states.
pub const LIVES: u32 = CAN_ABORT | CAN_RESET | IDLE | ABORTING;

// The states that accept a command of several.

const CAN_HOLD: u32 = RUNNING | PAUSING | PAUSED | RESTARTING;

const CAN_STOP: u32 = CAN_HOLD | HOLDING | HELD;

const CAN_ABORT: u32 = CAN_STOP | STOPPING | STOPPED;

const CAN_RESET: u32 = STOPPED | ABORTED | COMPLETE;

/// Whether one of the needs that are held can be given back.
pub fn gives(needs: u16, held: u16) -> bool
    ensures { result ≡ gives needs held }
{
    0 < held && held <= needs
}

#[inline(always)]
fn flag(shown: bool, sign: u32) -> u32
    ensures { result ≡ flag shown sign }
{
    if shown { sign } else { 0 }
}

/// The sign of a live phase in this state.
pub fn of_state(state: State) -> u32
    ensures { result ≡ state_sign state }
{
    match state {
        State::Idle => IDLE,
        State::Running => RUNNING,
        State::Pausing => PAUSING,
        State::Paused => PAUSED,
        State::Holding => HOLDING,
        State::Held => HELD,
        State::Restarting => RESTARTING,
        State::Stopping => STOPPING,
        State::Stopped => STOPPED,
        State::Aborting => ABORTING,
        State::Aborted => ABORTED,
        State::Complete => COMPLETE,
    }
}

/// The signs of all other states.
pub fn but(state: State) -> u32
    ensures { result ≡ but state }
{
    LIVES ^ of_state(state)
}

/// The signs of a ready act with so many needs, of which it holds so many.
#[inline(always)]
fn of_ready(needs: u16, held: u16) -> u32
    ensures { result ≡ ready_signs needs held }
{
    IS_ACT
        | flag(held < needs, LACKS)
        | flag(needs <= held, FITS)
        | flag(0 < held && 0 < needs, HOLDS)
}

#[inline(always)]
fn of_asking(needs: u16, held: u16) -> u32
    ensures { result ≡ asking_signs needs held }
{
    IS_ACT | flag(held < needs, WAITS) | flag(0 < held && 0 < needs, HOLDS)
}

#[inline(always)]
fn of_freeing(needs: u16, held: u16) -> u32
    ensures { result ≡ freeing_signs needs held }
{
    IS_ACT | flag(0 < held && held <= needs, FREES) | flag(0 < held && 0 < needs, HOLDS)
}

#[inline(always)]
fn of_live(needs: u16, state: State) -> u32
    ensures { result ≡ live_signs needs state }
{
    IS_ACT | of_state(state) | flag(0 < needs, HOLDS)
}

/// The signs of an act with so many needs that follows its chart. Nothing is left of the chart if it is over.
#[inline(always)]
pub fn of_open(needs: u16, over: bool) -> u32
    ensures { result ≡ open_signs needs over }
{
    IS_ACT | flag(over, IS_OVER) | flag(0 < needs, HOLDS)
}

/// The signs of an act with so many needs at this stage, if it follows no chart.
#[inline(always)]
pub fn of_stage(needs: u16, stage: Stage) -> u32
    ensures { result ≡ stage_signs needs stage }
{
    match stage {
        Stage::Ready(held) => of_ready(needs, held),
        Stage::Asking(held) => of_asking(needs, held),
        Stage::Live(state) => of_live(needs, state),
        Stage::Freeing(held) => of_freeing(needs, held),
        Stage::Finished | Stage::Open | Stage::Turning(_) => 0,
    }
}

/// The signs of an act that had these signs in a queue, and is ready again.
pub fn readied(signs: u32) -> u32
    ensures { result ≡ readied signs }
{
    if signs & WAITS != 0 {
        signs ^ WAITS | LACKS
    } else {
        signs | FITS
    }
}

/// The signs of the states that accept the command.
#[inline(always)]
pub fn accepting(command: Command) -> u32
    ensures { result ≡ states_accepting command }
{
    match command {
        Command::Start => IDLE,
        Command::Pause => RUNNING,
        Command::Resume => PAUSED,
        Command::Hold => CAN_HOLD,
        Command::Restart => HELD,
        Command::Stop => CAN_STOP,
        Command::Abort => CAN_ABORT,
        Command::Reset => CAN_RESET,
    }
}
