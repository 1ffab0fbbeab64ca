//! The rows of a host in memory.

ghost use Rattle.std.specs.Prelude.{◌≡◌, ◌∷◌, ◌++◌, [], true, OnOk, OnErr, IsOkUnless, MatchOption, Some, None};
ghost use Rattle.py_value.specs.HostTable as spec;
ghost use Rattle.py_value.specs.ValueView.{plain_of};

use crate::host::HostMethod;
use crate::value::Value;
use py_base::{PyError, PyResult};
use std::alloc::Global;
use std::marker::Model;

/// What a handle answers to a method with a key; the key is None for a method without one.
#[derive(Drop)]
pub struct HostRow {
    pub handle: u64,
    pub method: HostMethod,
    pub key: Value,
    pub answer: Value,
}

/// Rows, of which the first that fits answers. Contracts see their list.
#[derive(Drop)]
pub struct HostTable {
    rows: Vec<HostRow>,
}

impl Model for HostTable {
    ghost use Rattle.std.specs.Prelude.{List};
    ghost use Rattle.py_value.specs.declared.host.table.HostRow.{HostRow};
    ghost use Rattle.std.specs.Coded.{codes};
    ghost use Rattle.py_value.specs.contracts.value.Value as value_code;

    ghost Value = { List HostRow };

    ghost coded = { Prim.hlevel (codes, value_code.the_row.coded) };

    ghost view = { λ table. table.rows.items };
}

// Whether the keys have one class and one value; None, a bool, an integer, a text and bytes are
// keys.
fn same_value(a: &Value, b: &Value) -> bool
    ensures { result ≡ spec.same_value (plain_of a.now) (plain_of b.now) }
{
    match (a, b) {
        (Value::None, Value::None) => true,
        (Value::Bool(a), Value::Bool(b)) => a == b,
        (Value::Int(a), Value::Int(b)) => a == b,
        (Value::Str(a), Value::Str(b)) => a == b,
        (Value::Bytes(a), Value::Bytes(b)) => a == b,
        _ => false,
    }
}

impl HostRow {
    // Whether the row answers for the handle, the method and the key.
    fn fits(&self, handle: u64, method: HostMethod, key: &Value) -> bool
        ensures { result ≡ spec.fits handle method (plain_of key.now) self.now }
    {
        self.handle == handle && self.method == method && same_value(&self.key, key)
    }
}

impl HostTable {
    /// No row. It takes no memory, and keeps the allocator for `push`.
    pub fn new(alloc: Global) -> HostTable
        ensures { result ≡ [] }
    {
        HostTable {
            rows: Vec::new(alloc),
        }
    }

    /// Puts a row last. On an error the row is dropped.
    pub fn push(&mut self, row: HostRow) -> PyResult<()>
        requires { spec.is_row_key (plain_of row.key) ≡ true }
        ensures ok { OnOk result (self.new ≡ self.old ++ row ∷ []) }
        ensures same { OnErr result (self.new ≡ self.old) }
        ensures err { IsOkUnless result PyError.NoMemory }
    {
        match self.rows.push(row) {
            Ok(()) => Ok(()),
            Err(_) => Err(PyError::NoMemory),
        }
    }

    // What the first row that fits answers.
    pub(crate) fn answer(&self, handle: u64, method: HostMethod, key: &Value) -> Option<&Value>
        ensures { MatchOption result
            (spec.first_answer handle method (plain_of key.now) self.now ≡ None)
            (λ v. spec.first_answer handle method (plain_of key.now) self.now
            ≡ Some (plain_of v.now)) }
    {
        for row in &self.rows {
            if row.fits(handle, method, key) {
                return Some(&row.answer);
            }
        }
        None
    }

    // Whether a row of items is of the handle.
    pub(crate) fn has_items(&self, handle: u64) -> bool
        ensures { result ≡ spec.has_items handle self.now }
    {
        for row in &self.rows {
            if row.fits(handle, HostMethod::GetItem, &row.key) {
                return true;
            }
        }
        false
    }
}
