//! How values are dropped: by a loop that takes no memory, and not by a call for each level.

ghost use Rattle.std.specs.Prelude.{◌≡◌, ◌+◌, ◌<◌, ◌≤◌, true, false, MatchOption};
ghost use Rattle.py_value.specs.Plain.{depth, values_depth, entries_depth};
ghost use Rattle.py_value.specs.Weight.{weight, values_weight, entries_weight};
ghost use Rattle.py_value.specs.ValueView.{plain_of};

use crate::value::{PyDict, Value, ValueList};
use std::mem;

impl ValueList {
    // Exchanges the last value with the other one; false where there is none.
    fn exchange_last(&mut self, other: &mut Value) -> bool
        ensures total { values_weight self.new + weight (plain_of other.new)
            ≡ values_weight self.old + weight (plain_of other.old) }
        ensures lighter { result ≡ true → weight (plain_of other.new) ≤ values_weight self.old }
        ensures none { result ≡ false → (values_depth self.new ≡ 0) × (other.new ≡ other.old) }
    {
        let count = self.items.len();
        if count == 0 {
            return false;
        }
        mem::swap(&mut self.items[count - 1], other);
        true
    }

    // Takes the last value.
    fn pop_last(&mut self) -> Option<Value>
        ensures { MatchOption result (values_depth self.new ≡ 0)
            (λ v. values_weight self.new + weight (plain_of v) ≡ values_weight self.old) }
    {
        self.items.pop()
    }
}

impl PyDict {
    // Exchanges the value of the last key with the other one; false where there is no key.
    fn exchange_last(&mut self, other: &mut Value) -> bool
        ensures total { entries_weight self.new + weight (plain_of other.new)
            ≡ entries_weight self.old + weight (plain_of other.old) }
        ensures lighter { result ≡ true → weight (plain_of other.new) ≤ entries_weight self.old }
        ensures none { result ≡ false → (entries_depth self.new ≡ 0) × (other.new ≡ other.old) }
    {
        let count = self.entries.len();
        if count == 0 {
            return false;
        }
        mem::swap(&mut self.entries[count - 1].value, other);
        true
    }

    // Takes the last value, and its key away.
    fn pop_last(&mut self) -> Option<Value>
        ensures { MatchOption result (entries_depth self.new ≡ 0)
            (λ v. entries_weight self.new + weight (plain_of v) ≡ entries_weight self.old) }
    {
        let Some(item) = self.entries.pop() else {
            return None;
        };
        Some(item.value)
    }
}

impl Value {
    // Exchanges the last value that this one holds with the other; false where it holds none.
    fn exchange_last(&mut self, other: &mut Value) -> bool
        ensures total { weight (plain_of self.new) + weight (plain_of other.new)
            ≡ weight (plain_of self.old) + weight (plain_of other.old) }
        ensures lighter { result ≡ true
            → weight (plain_of other.new) < weight (plain_of self.old) }
        ensures holds { result ≡ true → 1 ≤ depth (plain_of self.old) }
        ensures none { result ≡ false → depth (plain_of self.new) ≤ 1 }
        ensures no_deeper { result ≡ false
            → depth (plain_of self.new) ≤ depth (plain_of self.old) }
        ensures same { result ≡ false → other.new ≡ other.old }
    {
        match self {
            Value::Tuple(list) => list.exchange_last(other),
            Value::List(list) => list.exchange_last(other),
            Value::Dict(dict) => dict.exchange_last(other),
            _ => false,
        }
    }

    // Takes the last value that this one holds.
    fn pop_last(&mut self) -> Option<Value>
        ensures total { MatchOption result (depth (plain_of self.new) ≤ 1)
            (λ v. weight (plain_of self.new) + weight (plain_of v) ≡ weight (plain_of self.old)) }
        ensures deep { MatchOption result (depth (plain_of self.new) ≤ depth (plain_of self.old))
            (λ _. 1 ≤ depth (plain_of self.old)) }
    {
        match self {
            Value::Tuple(list) => list.pop_last(),
            Value::List(list) => list.pop_last(),
            Value::Dict(dict) => dict.pop_last(),
            _ => None,
        }
    }
}

/// Drops a value and all that it holds, the last first. On the way down the value that holds the
/// next one takes its place there, so that the way up is kept in the values themselves.
#[cycle(drops)]
pub(crate) fn take_apart(value: Value) {
    let mut here = value;
    let mut above = Value::None;
    loop {
        if here.exchange_last(&mut above) {
            mem::swap(&mut here, &mut above);
        } else {
            here = above;
            match here.pop_last() {
                Some(holder) => above = holder,
                None => return,
            }
        }
    }
}
