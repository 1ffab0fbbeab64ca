//! Tests of py_value: values, how they are dropped, hosts, look-ups, and texts that values change.
#![tactic(auto)]

#[cfg(test)]
mod affixes;
#[cfg(test)]
mod dropped;
#[cfg(test)]
mod hosts;
#[cfg(test)]
mod looked_up;
#[cfg(test)]
mod lookup_errors;
#[cfg(test)]
mod made;
#[cfg(test)]
mod translated;
#[cfg(test)]
mod values;
