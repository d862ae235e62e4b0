//! The tool on its host: the words of the command line, the files of the host, the standard output,
//! and on the standard error what a refusal means.
#![tactic(auto)]

mod first_line;

use first_line::KeepingSink;
use ix_diagnose::explain;
use ix_io::HostShelf;
use ix_tool::tool::run_tool;
use ix_words::status::Status;
use std::env::Env;
use std::process::ExitCode;
use std::rt::Files;
use std::{env, io};

/// The exit status where the runtime refuses the words for a cause other than memory.
const REFUSED: u8 = 3;

/// The words after the program's name.
fn words<R: Env + AllocGlobal>(rt: &R) -> io::Result<Vec<String>> {
    let mut args = env::args(rt)?;
    args.next();
    Ok(args.collect(rt.alloc())?)
}

/// Writes to the standard error what a line of the output refuses. Where memory, the file or the
/// standard error fails, nothing more is written.
fn tell<R: AllocGlobal + Files + Eprint>(rt: &R, line: &str, words: &[String]) {
    if let Some(text) = explain(rt.alloc(), line, words, &mut HostShelf::new(rt)) {
        let _ = rt.eprint(text);
    }
}

/// Runs the command of these words, and tells of a refusal on the standard error.
fn run_words<R: AllocGlobal + Files + Print + Eprint>(rt: &R, words: &[String]) -> Status {
    let mut shelf = HostShelf::new(rt);
    let mut sink = KeepingSink::new(rt);
    let status = run_tool(rt.alloc(), words, &mut shelf, &mut sink);
    if let Some(line) = sink.first_line() {
        match status {
            Status::Ok | Status::WriteFault | Status::Memory => {}
            _ => tell(rt, line, words),
        }
    }
    status
}

/// Runs the command of the words over the host's files, writes its output to the standard output
/// and what a refusal means to the standard error, and gives the exit status.
pub fn run<R: Env + AllocGlobal + Files + Print + Eprint>(rt: &R) -> ExitCode {
    match words(rt) {
        Ok(words) => ExitCode::from(run_words(rt, words.as_slice()).code()),
        Err(error) if error.kind() == io::ErrorKind::OutOfMemory => ExitCode::from(
            Status::Memory.code(),
        ),
        Err(_) => ExitCode::from(REFUSED),
    }
}
