//! Makes one call on a text, integers or a pool over and over, and prints how often and a check sum.
#![tactic(auto)]

use std::io;
use std::process::ExitCode;
use std_edge::arguments;
use timed_calls::Request;

const USAGE: &str = "bench_driver NAME SIZE TIMES: no such call, or no such number";

// Says that the words ask for nothing.
fn refused(rt: &HostRuntime) -> io::Result<ExitCode> {
    eprintln!(rt; "{USAGE}")?;
    Ok(ExitCode::from(2))
}

// Makes the calls that three words ask for.
fn run(rt: &HostRuntime, name: &str, size: &str, times: &str) -> io::Result<ExitCode> {
    let Some(request) = Request::of_words(name, size, times) else {
        return refused(rt);
    };
    match request.sum(rt.alloc()) {
        Ok(sum) => {
            let times = request.times;
            println!(rt; "{name} {times} {sum}")?;
            Ok(ExitCode::SUCCESS)
        }
        Err(error) => {
            eprintln!(rt; "{error}")?;
            Ok(ExitCode::FAILURE)
        }
    }
}

fn main(rt: HostRuntime) -> io::Result<ExitCode> {
    let words = match arguments(&rt) {
        Ok(words) => words,
        Err(error) if error.kind() == io::ErrorKind::OutOfMemory => return Err(error),
        Err(_) => return refused(&rt),
    };
    match words.as_slice() {
        [name, size, times] => run(&rt, name.as_str(), size.as_str(), times.as_str()),
        _ => refused(&rt),
    }
}
