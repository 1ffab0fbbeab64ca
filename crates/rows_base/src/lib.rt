//! Tests of py_base: what CPython answers for errors, classes of characters and hashes, and streams
//! in memory.
#![tactic(auto)]

#[cfg(test)]
mod categories;
#[cfg(test)]
mod classes;
#[cfg(test)]
mod errors;
#[cfg(test)]
mod hashes;
#[cfg(test)]
mod keys;
#[cfg(test)]
mod streams;
#[cfg(test)]
mod whitespace;
