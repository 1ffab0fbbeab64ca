//! Tests of py_format: templates that are filled with values. Expected values come from CPython,
//! but for what differs from it: floats, mixed keys, a `*` under a key, and what serves as a
//! mapping.
#![tactic(auto)]

#[cfg(test)]
mod binary;
#[cfg(test)]
mod by_chance;
#[cfg(test)]
mod errors;
#[cfg(test)]
mod hosts;
#[cfg(test)]
mod made;
#[cfg(test)]
mod texts;
