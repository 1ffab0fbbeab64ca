//! Tests of re_tree, re_parse and re_text: tokens of patterns, what is wrong with a pattern, its tree, and
//! what its code finds.
#![tactic(auto)]

#[cfg(test)]
mod compiling;
#[cfg(test)]
mod faults;
#[cfg(test)]
mod long;
#[cfg(test)]
mod tokens;
#[cfg(test)]
mod trees;
