//! The lab commands over real files: `scaplab drill CAPTURE OUT`.
//! It prints the status in words and ends with its number.
//! Stands on labtop (the commands) and scap_world (real files).
#![tactic(auto)]

ghost use Rattle.std.specs.Prelude.{◌≡◌, ◌⊎◌, ◌++◌, codes, IfOk, MatchResult};
ghost use Rattle.scapconf.specs.StatusText.{number_of, status_text};

use labtop::lab_top;
use scap_world::FileShelf;
use scapconf::{Memory, Status};
use std::alloc::Global;
use std::fs::File;
use std::io::Write;
use std::process::ExitCode;
use std::rt::{Env, Files};
use std::{env, io};

const USAGE: &str = "usage: scaplab drill|make|audit|match WORDS";

/// The words of the command line. One that is no text makes them faulty.
fn words(rt: &(impl Env + AllocGlobal)) -> Result<Vec<String>, Status> {
    match env::args(rt) {
        Ok(args) => Ok(args.collect(rt.alloc())?),
        Err(fault) if fault.kind() == io::ErrorKind::InvalidData => Err(Status::Usage),
        Err(_) => Err(Status::Memory),
    }
}

fn run<R: Env + Files<File = File> + AllocGlobal + Drop>(rt: R) -> Result<Status, Status> {
    let alloc = rt.alloc();
    let owned = words(&rt)?;
    let mut words = Vec::new(alloc);
    for word in &owned {
        words.push(word.as_str())?;
    }
    Ok(lab_top(alloc, &words, &mut FileShelf::new(rt)).status)
}

/// The line of a status.
fn line_of(alloc: Global, usage: &str, status: Status) -> Result<Vec<u8>, Memory>
    ensures { IfOk result (λ line. line.items ≡ status_text usage.now status ++ codes "\n") }
{
    let mut line = Vec::new(alloc);
    status.put(usage, &mut line)?;
    line.push(b'\n')?;
    Ok(line)
}

/// Prints the status, which is want of memory where there is none for its text.
fn print(rt: &(impl Print + AllocGlobal), status: Status) -> io::Result<Status>
    ensures { IfOk result (λ printed. (printed ≡ status) ⊎ (printed ≡ Status.Memory)) }
{
    match line_of(rt.alloc(), USAGE, status) {
        Ok(line) => {
            io::writer(rt).write_all(&line)?;
            Ok(status)
        }
        Err(Memory) => {
            rt.println("out of memory")?;
            Ok(Status::Memory)
        }
    }
}

/// The number that the program ends with: that of the status that was printed, or of a write fault where it could not be.
fn exit_status(printed: io::Result<Status>) -> u8
    ensures { MatchResult printed (λ status. result ≡ number_of status) (λ _. result ≡ number_of Status.WriteFault) }
{
    printed.unwrap_or(Status::WriteFault).number()
}

fn main(rt: HostRuntime) -> ExitCode {
    let status = match run(rt) {
        Ok(status) => status,
        Err(status) => status,
    };
    ExitCode::from(exit_status(print(&rt, status)))
}
