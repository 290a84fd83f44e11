//! A temporal reasoner over CIDOC CRM records: checks the use of classes and properties, prints the orders between
//! the starts and the ends of periods, and what follows from them.
#![tactic(auto)]

#[cfg(test)]
mod tests;

ghost use Rattle.std.specs.Prelude.{◌≡◌};
ghost use Rattle.crm_cli.specs.Exits.{exit_status};

use crm_core::Status;
use crm_outside::{DirShelf, StdSink};
use crm_run::run;
use gathered_sink::Gathered;
use std::process::ExitCode;
use std::rt::Env;
use std::{env, io};

// The exit status of an outcome.
fn exit_code(status: Status) -> u8
    ensures { result ≡ exit_status status }
{
    match status {
        Status::Done => 0,
        Status::Findings => 1,
        Status::Refused => 2,
        Status::Usage => 3,
        Status::ReadFault => 4,
        Status::WriteFault => 5,
        Status::Memory => 6,
    }
}

// The words after the program's name.
fn given_words(rt: &(impl Env + AllocGlobal)) -> io::Result<Vec<String>> {
    let mut words = Vec::new(rt.alloc());
    for word in env::args(rt)?.skip(1) {
        words.push(word)?;
    }
    Ok(words)
}

// Does what the words say over the machine's files and its standard output, which is written in large pieces.
fn run_outside(rt: &HostRuntime, words: &[String]) -> Status {
    let mut shelf = DirShelf::new(rt);
    let Ok(mut out) = Gathered::new(rt.alloc(), StdSink::new(rt)) else {
        return Status::Memory;
    };
    let status = run(rt.alloc(), words, &mut shelf, &mut out);
    match out.finish() {
        (_, Ok(())) => status,
        (_, Err(_)) => Status::WriteFault,
    }
}

/// Ends with the status of the run, with 6 where there is no memory for the words, and with 7 where the system refuses
/// them for another cause.
fn main(rt: HostRuntime) -> ExitCode {
    match given_words(&rt) {
        Ok(words) => ExitCode::from(exit_code(run_outside(&rt, words.as_slice()))),
        Err(error) if error.kind() == io::ErrorKind::OutOfMemory => ExitCode::from(6),
        Err(_) => ExitCode::from(7),
    }
}
