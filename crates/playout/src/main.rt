// The program: with no argument it lists the job that the repository ships, else the table in the file named,
// and says whether the check passed. What load or the check refuses is explained on standard error, and the program
// ends with status 1. It rests on the crate reports, which builds every text that it prints of a table.
// Its page is docs/code-table.md.
#![tactic(auto)]

mod job;

use crate::job::JOB;
use reports::reports::{Report, report_on};
use std::alloc::AllocError;
use std::process::ExitCode;
use std::{env, fs, io};

// How the program ends where it does not end well: what was wrong is told already, or it is an error of the system's.
#[derive(Drop)]
enum Failure {
    Told,
    System(io::Error),
}

impl From<io::Error> for Failure {
    fn from(error: io::Error) -> Failure {
        Failure::System(error)
    }
}

impl From<AllocError> for Failure {
    fn from(error: AllocError) -> Failure {
        Failure::System(error.into())
    }
}

fn tell(rt: &HostRuntime, bytes: &[u8]) -> Result<(), Failure> {
    match report_on(rt.alloc(), bytes)? {
        Report::Passed { listing } => {
            println!(rt; "{listing}check: passed")?;
            Ok(())
        }
        Report::Broken { listing, words } => {
            print!(rt; "{listing}")?;
            eprintln!(rt; "{words}")?;
            Err(Failure::Told)
        }
        Report::Refused { words } => {
            eprintln!(rt; "{words}")?;
            Err(Failure::Told)
        }
    }
}

fn tell_file(rt: &HostRuntime, path: &str) -> Result<(), Failure> {
    match fs::read(rt, path) {
        Ok(bytes) => tell(rt, bytes.as_slice()),
        Err(error) => {
            eprintln!(rt; "cannot read {path}: {error}")?;
            Err(Failure::Told)
        }
    }
}

fn run(rt: &HostRuntime) -> Result<(), Failure> {
    match env::args(rt)?.nth(1) {
        None => tell(rt, &JOB),
        Some(path) => tell_file(rt, path.as_str()),
    }
}

fn main(rt: HostRuntime) -> io::Result<ExitCode> {
    match run(&rt) {
        Ok(()) => Ok(ExitCode::SUCCESS),
        Err(Failure::Told) => Ok(ExitCode::FAILURE),
        Err(Failure::System(error)) => {
            eprintln!(rt; "{error}")?;
            Ok(ExitCode::FAILURE)
        }
    }
}
