//! Tests of py_text: what CPython answers for slices, searches, splits, joins and comparisons.
#![tactic(auto)]

#[cfg(test)]
mod pieces;
#[cfg(test)]
mod searching;
#[cfg(test)]
mod sharing;
#[cfg(test)]
mod slicing;
#[cfg(test)]
mod sums;
