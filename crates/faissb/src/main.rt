//! Reads a script from standard input, and writes the replies to standard output. Files are those of
//! the current folder.
//!
//! What the program does is [`run`], whose contract says it all. No contract reaches the rest,
//! which is this file: that `run` is handed the words of the command line, standard input, standard
//! output and the current folder, that the program ends with the status of [`exit_code`], and that
//! wrong words are answered with the line of [`usage`] on standard error. The script
//! `examples/statuses` runs the program and checks these.
#![tactic(auto)]

ghost use Rattle.std.specs.Prelude.{◌≡◌};
ghost use Rattle.std.specs.Process.{exit_status};
ghost use Rattle.faissb_core.specs.Runs.Statuses.{status_code};

use faissb_core::{Status, run, usage};
use outside::{FolderShelf, InputSource, OutputSink};
use std::env;
use std::io::{self, ErrorKind};
use std::process::ExitCode;

// The words of the command line, without the program's name.
fn words_of(rt: &HostRuntime) -> io::Result<Vec<String>> {
    let words = env::args(rt)?.skip(1).collect(rt.alloc())?;
    Ok(words)
}

// The run over standard input, standard output and the current folder.
fn run_words(rt: &HostRuntime, words: &[String]) -> Status {
    let mut script = InputSource::new(rt.reader());
    let mut out = OutputSink::new(std::io::writer(rt));
    let mut shelf = FolderShelf::new(rt, rt.alloc());
    run(rt.alloc(), words, &mut script, &mut out, &mut shelf)
}

// The exit status of the program.
fn exit_code(status: Status) -> ExitCode
    ensures { exit_status result ≡ status_code status }
{
    ExitCode::from(status.code())
}

fn main(rt: HostRuntime) -> ExitCode {
    let status = match words_of(&rt) {
        Ok(words) => run_words(&rt, &words),
        Err(error) if error.kind() == ErrorKind::OutOfMemory => Status::Memory,
        // A word that is not UTF-8 is as wrong as no word.
        Err(_) => run_words(&rt, &[]),
    };
    if status == Status::Usage {
        // Where standard error takes nothing, the exit status says it alone.
        let _ = eprintln!(rt; "{}", usage());
    }
    exit_code(status)
}
