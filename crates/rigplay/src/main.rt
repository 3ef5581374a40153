//! The program: standard input and output, the command line, and the exit status.
#![tactic(auto)]

ghost use Rattle.std.specs.Prelude.{◌≡◌, IfOk, All};
ghost use Rattle.rig_play.specs.Run.{AreTallies};
ghost use Rattle.rig_play.specs.Status.{status_of};

use rig_io::{Count, NoMemory, StdSink, StdSource, Tally};
use rig_play::{Status, run};
use rig_scene::limits::MAX_WORKERS;
use std::alloc::{AllocError, Global};
use std::process::ExitCode;
use std::rt::Env;
use std::{env, io};

/// The counts that a run is handed: one for each of the most workers of two graphs.
const TALLIES: usize = 2 * MAX_WORKERS;

/// The words of the command line, the program's name first. Words that aren't text make no command line, and neither
/// does their absence.
fn words_of<R: Env + AllocGlobal>(rt: &R) -> Result<Vec<String>, AllocError> {
    match env::args(rt) {
        Ok(words) => words.collect(rt.alloc()),
        Err(fault) if fault.kind() == io::ErrorKind::OutOfMemory => Err(AllocError),
        Err(_) => Ok(Vec::new(rt.alloc())),
    }
}

/// The counts of a run, each at 0.
fn new_tallies(alloc: Global) -> Result<Vec<Count>, NoMemory>
    ensures tallies { IfOk result (λ v. AreTallies ⟦<Count as Tally>⟧.count v.items) }
    ensures zero { IfOk result (λ v. All (λ t. ⟦<Count as Tally>⟧.count t ≡ 0) v.items) }
{
    let mut tallies = Vec::new(alloc);
    for _i in 0..TALLIES {
        tallies.push(Count::new())?;
    }
    Ok(tallies)
}

/// How the program ends: as its run did, or for want of memory where the run could not begin.
fn status_of(run: Result<Status, NoMemory>) -> Status
    ensures { result ≡ status_of run }
{
    match run {
        Ok(status) => status,
        Err(NoMemory) => Status::NoMemory,
    }
}

/// Runs the command line over standard input and output.
fn run_standard<R: Env + AllocGlobal + Input + Print>(rt: &R) -> Result<Status, NoMemory> {
    let words = words_of(rt)?;
    let mut tallies = new_tallies(rt.alloc())?;
    let mut source = StdSource::new(rt);
    let mut sink = StdSink::new(rt);
    Ok(run(rt.alloc(), &words, &mut source, &mut sink, &mut tallies))
}

fn main(rt: HostRuntime) -> ExitCode {
    ExitCode::from(status_of(run_standard(&rt)).code())
}

#[cfg(test)]
mod tests;
