//! The arguments of the command line.

use std::{env, io};

/// The arguments, without the program's name.
pub fn arguments(rt: &HostRuntime) -> io::Result<Vec<String>> {
    let mut all = Vec::new(rt.alloc());
    for argument in env::args(rt)?.skip(1) {
        all.push(argument)?;
    }
    Ok(all)
}
