//! Tests of py_intern: places of texts, copies of pools, and texts as keys.
#![tactic(auto)]

#[cfg(test)]
mod keys;
#[cfg(test)]
mod pools;
