//! Tests of the code grammar, of searches and of the program, from a request's bytes to an answer's.
#![tactic(auto)]

#[cfg(test)]
mod codes;
#[cfg(test)]
mod cursors;
#[cfg(test)]
mod groups;
#[cfg(test)]
mod large;
#[cfg(test)]
mod outcomes;
#[cfg(test)]
mod program;
#[cfg(test)]
mod walks;
