//! Starting the threads of desks.
ghost use Rattle.std.specs.Prelude.{◌≡◌, ◌<◌, [], ◌∷◌, ◌++◌, get_or, None, Some, IfOk, IsSome, OnOk, option_map, string_bytes};
ghost use Rattle.rtrb.specs.Ring.{IsPair, known_free, received, sent};
ghost use Rattle.batch_pipes.specs.InputOrder.{CameBehind};
ghost use Rattle.batch_pipes.specs.Inputs.{IsNewReader};
ghost use Rattle.batch_pipes.specs.Kept.{ArePortsOf};
ghost use Rattle.batch_pipes.specs.Opened.{IsDeskAdded, IsOpened, IsOpenedOn};
ghost use Rattle.batch_pipes.specs.OutputEnds.{IsHandedBack};
ghost use Rattle.batch_pipes.specs.Outputs.{AreOutputsOpened, IsOutputAdded, IsOutputOf, IsOutputOpened, asked_by, asked_of};
ghost use Rattle.batch_serve.specs.declared.rounds.Writer.{Writer as OneWriter};

use crate::fault::DesksFault;
use crate::flag::Flag;
use crate::input::Input;
use crate::input_order::InputOrder;
use crate::output::{Output, OutputChild};
use crate::output_thread::start_output;
use crate::pipes::{InputBytes, Outputs, Pipes};
use crate::ports::{DeskThreads, Ports};
use crate::reading::InputTask;
use crate::writing::OutputTask;
use batch_engine::Engine;
use batch_reader::{Desk, Desks};
use batch_serve::{DeskLine, DeskServer, Lines, Reader, ReaderMessage, ServedDesk, Writer};
use batch_text::Name;
use rtrb::{Consumer, Producer, RingBuffer};
use std::alloc::{AllocError, Global};
use std::io::Write;
use std::snapshot::Snapshot;
use std::thread::Threads;

/// How many texts a reader may be ahead of the machine.
const TEXTS: usize = 16;

/// How many lines may be on their way to a writer, beside those that are queued.
const LINES: usize = 1_024;

/// Makes a server of the desks over the machine, and starts their threads. The fronts, in the order of the desks, are written to them
/// before all else. If a thread can't be started, those before it find no other end of their rings, and end.
// claim: pipes opened
pub(crate) fn open<
    T: Threads,
    W: Write + Send + Drop + 'static,
    P: Pipes + Outputs<W> + Send + Drop + 'static,
>(
    threads: &T,
    alloc: Global,
    pipes: &P,
    engine: Engine,
    desks: Desks,
    fronts: &[Lines],
) -> Result<(DeskServer, Ports<P>, Vec<Output<W, P>>), DesksFault>
    ensures ports { IfOk result (λ opened. ArePortsOf opened.0.desks.items opened.1) }
    ensures opened { IfOk result (λ opened. IsOpened engine desks.desks.items opened.0 opened.1) }
    ensures outputs { IfOk result (λ opened. AreOutputsOpened (IsHandedBack W.contents P.stands P.hands_back) fronts.now desks.desks.items opened.2.items opened.1.writers.items) }
{
    let mut server = DeskServer::new(alloc, engine, Vec::new(alloc), Vec::new(alloc));
    let mut ports = Ports::new(alloc);
    let mut outputs = Vec::new(alloc);
    open_each(
        threads,
        alloc,
        pipes,
        desks,
        fronts,
        &mut server,
        &mut ports,
        &mut outputs,
    )?;
    Ok((server, ports, outputs))
}

/// Adds the desks to a server that has none, and starts their threads.
fn open_each<
    T: Threads,
    W: Write + Send + Drop + 'static,
    P: Pipes + Outputs<W> + Send + Drop + 'static,
>(
    threads: &T,
    alloc: Global,
    pipes: &P,
    desks: Desks,
    fronts: &[Lines],
    server: &mut DeskServer,
    ports: &mut Ports<P>,
    outputs: &mut Vec<Output<W, P>>,
) -> Result<(), DesksFault>
    requires ports { ArePortsOf server.old.desks.items ports.old }
    requires opened { IsOpened server.old.engine [] server.old ports.old }
    requires outputs { AreOutputsOpened (IsHandedBack W.contents P.stands P.hands_back) fronts.now [] outputs.old.items ports.old.writers.items }
    ensures ports { OnOk result (ArePortsOf server.new.desks.items ports.new) }
    ensures opened { OnOk result (IsOpened server.old.engine desks.desks.items server.new ports.new) }
    ensures outputs { OnOk result (AreOutputsOpened (IsHandedBack W.contents P.stands P.hands_back) fronts.now desks.desks.items outputs.new.items ports.new.writers.items) }
{
    let Desks { desks } = desks;
    for desk in desks {
        let front = front_at(alloc, fronts, outputs.len())?;
        open_desk(threads, alloc, pipes, desk, front, server, ports, outputs)?;
    }
    Ok(())
}

/// Adds a desk to the server, and starts its threads.
fn open_desk<
    T: Threads,
    W: Write + Send + Drop + 'static,
    P: Pipes + Outputs<W> + Send + Drop + 'static,
>(
    threads: &T,
    alloc: Global,
    pipes: &P,
    desk: Desk,
    front: Vec<u8>,
    server: &mut DeskServer,
    ports: &mut Ports<P>,
    outputs: &mut Vec<Output<W, P>>,
) -> Result<(), DesksFault>
    ensures desk { OnOk result (IsOpenedOn desk server.old server.new ports.old ports.new) }
    ensures output { OnOk result (IsOutputAdded (IsHandedBack W.contents P.stands P.hands_back) (asked_by desk front.items) outputs.old.items outputs.new.items ports.old.writers.items ports.new.writers.items) }
{
    let Desk {
        name,
        input,
        output,
        unit,
        stays,
        lag,
    } = desk;
    let stop = Flag::new(alloc)?;
    let lag = lag_of(&output, lag);
    let told = ServedDesk::new(alloc, unit, lag);
    add_desk(server, name, told)?;
    let (reader, input) = open_input(threads, alloc, pipes, input, stays, &stop)?;
    let (writer, output) = open_output(threads, alloc, pipes, output, front, &stop)?;
    add_output(outputs, output)?;
    ports.add(reader, writer, DeskThreads::new(input, stop))?;
    Ok(())
}

/// How many lines may be queued for a desk of this output. A desk without an output is never slow.
fn lag_of(output: &Option<String>, lag: usize) -> usize
    ensures { IsSome output.now → result ≡ lag }
{
    if output.is_some() { lag } else { usize::MAX }
}

/// Adds a desk to the server.
///
/// The error is that there is no memory for it.
fn add_desk(server: &mut DeskServer, name: Name, desk: ServedDesk) -> Result<(), AllocError>
    ensures { OnOk result (IsDeskAdded name desk server.old server.new) }
{
    server.names.push(name)?;
    server.desks.push(desk)?;
    Ok(())
}

/// Adds the output of a desk.
///
/// The error is that there is no memory for it.
fn add_output<W: Write + Drop, P: Outputs<W> + Drop>(
    outputs: &mut Vec<Output<W, P>>,
    output: Output<W, P>,
) -> Result<(), AllocError>
    ensures { OnOk result (outputs.new.items ≡ outputs.old.items ++ output ∷ []) }
{
    outputs.push(output)?;
    Ok(())
}

/// A copy of the front of the desk at this place; empty if it has none.
///
/// The error is that there is no memory for it.
fn front_at(alloc: Global, fronts: &[Lines], at: usize) -> Result<Vec<u8>, AllocError>
    ensures { IfOk result (λ front. front.items ≡ get_or fronts.now at []) }
{
    match fronts.get(at) {
        Some(front) => front.as_slice().to_vec(alloc),
        None => Ok(Vec::new(alloc)),
    }
}

/// The ring of a desk's lines, and the thread that reads them, if the desk has an input.
fn open_input<T: Threads, P: Pipes + Send + Drop + 'static>(
    threads: &T,
    alloc: Global,
    pipes: &P,
    path: Option<String>,
    stays: bool,
    stop: &Flag,
) -> Result<(Reader<InputOrder<P>>, Input), DesksFault>
    // claim: input of a desk
    ensures { IfOk result (λ opened. IsNewReader (option_map string_bytes path) opened.0) }
{
    let (ring, reader) = input_ring(alloc, &path)?;
    let input = match path {
        Some(path) => read_input(threads, alloc, pipes, path, stays, ring, stop)?,
        None => no_input(ring),
    };
    Ok((reader, input))
}

/// The ring of a desk's lines. The path of the desk's input went through it, and nothing else.
///
/// The error is that there is no memory for it.
fn input_ring<P: InputBytes>(
    alloc: Global,
    path: &Option<String>,
) -> Result<
    (
        Producer<ReaderMessage, Global, InputOrder<P>>,
        Reader<InputOrder<P>>,
    ),
    AllocError,
>
    ensures went { IfOk result (λ ends. CameBehind (option_map string_bytes path.now) (sent ends.0) []) }
    ensures place { IfOk result (λ ends. 0 < known_free ends.0) }
    ensures reader { IfOk result (λ ends. IsNewReader (option_map string_bytes path.now) ends.1) }
{
    let (mut producer, mut ring) = RingBuffer::with_protocol::<Global, InputOrder<P>>(
        alloc, TEXTS,
    )?;
    producer.push_reserved(ReaderMessage::Path(copy_path(alloc, path)?));
    ring.slots_beside(&mut producer);
    let _path = ring.pop_known();
    let reader = Reader {
        ring,
        has_ended: false,
        rests: false,
    };
    Ok((producer, reader))
}

/// A copy of a path.
///
/// The error is that there is no memory for it.
fn copy_path(alloc: Global, path: &Option<String>) -> Result<Option<String>, AllocError>
    ensures { IfOk result (λ copy. option_map string_bytes copy ≡ option_map string_bytes path.now) }
{
    match path {
        Some(path) => Ok(Some(path.to_string(alloc)?)),
        None => Ok(None),
    }
}

/// The input of this path, with the thread that reads it.
fn read_input<T: Threads, P: Pipes + Send + Drop + 'static>(
    threads: &T,
    alloc: Global,
    pipes: &P,
    path: String,
    stays: bool,
    ring: Producer<ReaderMessage, Global, InputOrder<P>>,
    stop: &Flag,
) -> Result<Input, DesksFault>
    requires { CameBehind (Some (string_bytes path)) (sent ring) [] }
{
    let (done, ended) = Flag::pair(alloc)?;
    let task = InputTask {
        path,
        stays,
        ring,
        stop: stop.another()?,
        done: ended,
    };
    Input::start(threads, alloc, pipes.another(), task, done)
}

/// The input of a desk that has none: its end comes at once.
fn no_input<P: InputBytes>(ring: Producer<ReaderMessage, Global, InputOrder<P>>) -> Input
    requires went { CameBehind None (sent ring) [] }
    requires place { 0 < known_free ring }
{
    let mut ring = ring;
    ring.push_reserved(ReaderMessage::End);
    Input::none()
}

/// The ring of the lines for a desk, and the thread that writes them behind the front, if the desk has an output.
fn open_output<
    T: Threads,
    W: Write + Send + Drop + 'static,
    P: Pipes + Outputs<W> + Send + Drop + 'static,
>(
    threads: &T,
    alloc: Global,
    pipes: &P,
    path: Option<String>,
    front: Vec<u8>,
    stop: &Flag,
) -> Result<(Writer, Output<W, P>), DesksFault>
    ensures { IfOk result (λ opened. IsOutputOpened (IsHandedBack W.contents P.stands P.hands_back) (record { path = option_map string_bytes path; front = front.items }) opened.0 opened.1) }
{
    let (producer, consumer) = RingBuffer::new(alloc, LINES)?;
    let writer = Writer { ring: producer };
    let known = Snapshot::of(&path);
    let output = match path {
        Some(path) => write_output(threads, alloc, pipes, path, front, consumer, stop, known)?,
        None => no_output(consumer, front, known),
    };
    Ok((writer, output))
}

/// The output of this path, with the thread that writes it.
#[tactic(auto, using(crate::proofs::WriterOutputs::output_started))]
fn write_output<
    T: Threads,
    W: Write + Send + Drop + 'static,
    P: Pipes + Outputs<W> + Send + Drop + 'static,
>(
    threads: &T,
    alloc: Global,
    pipes: &P,
    path: String,
    front: Vec<u8>,
    ring: Consumer<DeskLine>,
    stop: &Flag,
    known: Snapshot<Option<String>>,
) -> Result<Output<W, P>, DesksFault>
    requires path { option_map string_bytes known.value ≡ Some (string_bytes path) }
    requires new { received ring ≡ [] }
    ensures asked { IfOk result (λ output. asked_of output ≡ record { path = Some (string_bytes path); front = front.items }) }
    ensures output { IfOk result (λ output. (writer : OneWriter) → IsPair writer.ring ring → IsOutputOf (IsHandedBack W.contents P.stands P.hands_back) output writer) }
{
    let (began, opened) = Flag::pair(alloc)?;
    let (done, ended) = Flag::pair(alloc)?;
    let has_front = !front.is_empty();
    let first = Snapshot::of(&front);
    let task = OutputTask {
        path,
        front,
        ring,
        stop: stop.another()?,
        began: opened,
        done: ended,
    };
    let handle = start_output(threads, alloc, pipes.another(), task)?;
    Ok(Output {
        path: known,
        front: first,
        child: Some(OutputChild {
            handle,
            has_front,
            began,
            done,
        }),
        end: None,
        unseen: None,
        finished: None,
        left: 0,
    })
}

/// The output of a desk that has none: the lines are dropped.
#[tactic(auto, using(crate::proofs::WriterOutputs::output_missing))]
fn no_output<W: Write + Drop, P: Outputs<W> + Drop>(
    ring: Consumer<DeskLine>,
    front: Vec<u8>,
    known: Snapshot<Option<String>>,
) -> Output<W, P>
    requires { known.value ≡ None }
    ensures asked { asked_of result ≡ record { path = None; front = front.items } }
    ensures output { (writer : OneWriter) → IsOutputOf (IsHandedBack W.contents P.stands P.hands_back) result writer }
{
    Output {
        path: known,
        front: Snapshot::of(&front),
        child: None,
        end: None,
        unseen: Some(ring),
        finished: None,
        left: 0,
    }
}
