//! Tests of py_str: what CPython answers for stripped, padded, quoted, encoded and tested texts.
#![tactic(auto)]

#[cfg(test)]
mod classes;
#[cfg(test)]
mod ends;
#[cfg(test)]
mod quotes;
#[cfg(test)]
mod texts;
#[cfg(test)]
mod widths;
