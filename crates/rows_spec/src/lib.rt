//! Tests of py_spec: each call once on its happy path, and the faults of templates. Expected values
//! come from CPython, but for widths past 31 bits and floats, which are faults here, and for places
//! that it does not tell.
#![tactic(auto)]

#[cfg(test)]
mod byte_templates;
#[cfg(test)]
mod percent;
#[cfg(test)]
mod writing;
