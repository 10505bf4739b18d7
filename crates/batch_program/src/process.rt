//! The program over the words, files and streams of the process.
ghost use Rattle.std.specs.Prelude.{◌≤◌};
ghost use Rattle.batch_program.specs.Programs.{IsExitStatus};

use crate::program::run_program;
use crate::threads::ThreadsOf;
use batch_pipes::Noted;
use batch_verdicts::{FilesOf, NO_MEMORY, OUT_OF_MEMORY, USAGE, complain};
use std::io::{BufWriter, ErrorKind};
use std::process::ExitCode;
use std::thread::Threads;
use std::{env, io};

/// How many bytes of the record wait before they are written in the midst of an input.
const OUTPUT_ROOM: usize = 65_536;

/// Carries out the command of the process's words over its files and streams, and gives the exit status. Plants run in threads that
/// the second handle starts, which `main` has beside the first.
// claim: range of statuses
pub fn run_process<T: Threads>(rt: &HostRuntime, threads: &T) -> ExitCode
    ensures { IsExitStatus result }
{
    let status = match words_of(rt) {
        Ok(words) => run_on_files(rt, threads, &words),
        Err(error) if error.kind() == ErrorKind::OutOfMemory => {
            complain(&mut rt.stderr(), OUT_OF_MEMORY, NO_MEMORY)
        }
        Err(_) => complain(&mut rt.stderr(), "an argument is no text", USAGE),
    };
    ExitCode::from(status)
}

/// Carries out the command of the words over the files, streams and threads of the process, and gives the exit status.
// claim: range of statuses
pub fn run_on_files<T: Threads>(rt: &HostRuntime, threads: &T, words: &[String]) -> u8
    ensures { result ≤ 4 }
{
    let alloc = rt.alloc();
    let mut input = Noted::new(rt.stdin());
    let mut errors = rt.stderr();
    let Ok(output) = BufWriter::with_capacity(alloc, OUTPUT_ROOM, io::writer(rt)) else {
        return complain(&mut errors, OUT_OF_MEMORY, NO_MEMORY);
    };
    let (status, _) = run_program(
        alloc,
        words,
        &FilesOf(rt),
        &ThreadsOf {
            threads,
            clock: *rt,
        },
        &mut input,
        Noted::new(output),
        &mut errors,
    );
    status
}

/// The words after the program's name.
fn words_of(rt: &HostRuntime) -> io::Result<Vec<String>> {
    Ok(env::args(rt)?.skip(1).collect(rt.alloc())?)
}
