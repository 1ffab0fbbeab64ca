//! Tests of how py_value copies and prints values, and of what a host is asked.
#![tactic(auto)]

#[cfg(test)]
mod copied;
#[cfg(test)]
mod deep;
#[cfg(test)]
mod made;
#[cfg(test)]
mod nested;
#[cfg(test)]
mod noting;
#[cfg(test)]
mod printed;
