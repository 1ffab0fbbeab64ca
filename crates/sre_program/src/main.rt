//! Does what the arguments of the command line say, from standard input to standard output.
#![tactic(auto)]

ghost use Rattle.std.specs.Prelude.{◌≡◌, ◌<◌};

use py_base::Steps;
use sre_commands::{Ending, run, status_of};
use std::alloc::Global;
use std::io;
use std::process::ExitCode;
use std::sync::ledger::{Blank, Ledger};
use std_edge::{StdSink, StdSource, arguments};

// Runs over a new counter of steps.
fn run_counted<S: py_base::Source, K: py_base::Sink, L: Ledger>(
    alloc: Global,
    arguments: &[String],
    source: &mut S,
    sink: &mut K,
    blank: Blank,
) -> u8
    requires name { blank.name ≡ L.name }
    requires parts { blank.parts ≡ L.parts }
    requires some { 0 < L.parts }
{
    let mut steps = Steps::<L>::new(blank);
    run(alloc, arguments, source, sink, &mut steps)
}

fn main(rt: HostRuntime) -> ExitCode {
    let arguments = match arguments(&rt) {
        Ok(arguments) => arguments,
        Err(error) if error.kind() == io::ErrorKind::OutOfMemory => {
            return ExitCode::from(status_of(Ending::NoMemory));
        }
        Err(_) => return ExitCode::from(status_of(Ending::NoCommand)),
    };
    let mut source = StdSource::new(rt.stdin());
    let mut sink = StdSink::new(rt.stdout());
    let status = run_counted::<_, _, std::marker::Brand>(
        rt.alloc(),
        &arguments,
        &mut source,
        &mut sink,
        Blank::new(1),
    );
    ExitCode::from(status)
}
