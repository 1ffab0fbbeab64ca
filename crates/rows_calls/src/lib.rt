//! Tests of the calls of the bench and of the tables of calls.
#![tactic(auto)]

#[cfg(test)]
mod tables;
#[cfg(test)]
mod timed;
