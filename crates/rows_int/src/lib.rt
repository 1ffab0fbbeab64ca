//! Tests of py_int: each call once on its happy path, and the edges of 128 bits; expected values
//! come from CPython.
#![tactic(auto)]

#[cfg(test)]
mod bools;
#[cfg(test)]
mod bytes;
#[cfg(test)]
mod literals;
#[cfg(test)]
mod numbers;
#[cfg(test)]
mod powers;
#[cfg(test)]
mod types;
#[cfg(test)]
mod values;
