//! The matcher: turns over a tree, with what is left to do and what is still to be tried.

mod anchors;
mod branches;
mod candidate;
mod choices;
mod first_unit;
mod frames;
mod iterations;
mod machine;
mod nodes;
mod references;
mod repeats;
pub mod search;
mod sets;
mod singles;
mod subject;
pub mod trail;
mod turns;
