//! Tests of py_sre: each call once on its happy path, and each error.
#![tactic(auto)]

#[cfg(test)]
mod many;
#[cfg(test)]
mod patterns;
#[cfg(test)]
mod substitution;
