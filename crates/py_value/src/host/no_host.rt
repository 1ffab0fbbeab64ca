//! A host of no handle.

use crate::host::{Host, HostAnswer};
use crate::value::Value;
use py_text::PyStr;

/// A host of no handle: every answer is None.
#[derive(Clone, Copy, Debug)]
pub struct NoHost;

impl Host for NoHost {
    ghost use Rattle.std.specs.Prelude.{◌≡◌, Ok, Some, None, false};
    ghost use Rattle.py_value.specs.NoHost.{no_table};

    ghost seen = { λ _. record {
      table = Some no_table;
      faults = 0;
      asked = None;
      runs_out = false;
    } };

    fn has_getitem(&self, _handle: u64) -> bool
        ensures none { result ≡ false }
    {
        false
    }

    fn get_attr(&mut self, _handle: u64, _name: &PyStr) -> Result<Option<Value>, HostAnswer>
        ensures none { result ≡ Ok None }
    {
        Ok(None)
    }

    fn get_item(&mut self, _handle: u64, _key: &Value) -> Result<Option<Value>, HostAnswer>
        ensures none { result ≡ Ok None }
    {
        Ok(None)
    }

    fn to_int(&mut self, _handle: u64) -> Result<Option<Value>, HostAnswer>
        ensures none { result ≡ Ok None }
    {
        Ok(None)
    }

    fn to_bytes(&mut self, _handle: u64) -> Result<Option<Value>, HostAnswer>
        ensures none { result ≡ Ok None }
    {
        Ok(None)
    }

    fn to_bool(&mut self, _handle: u64) -> Result<Option<Value>, HostAnswer>
        ensures none { result ≡ Ok None }
    {
        Ok(None)
    }

    fn len(&mut self, _handle: u64) -> Result<Option<Value>, HostAnswer>
        ensures none { result ≡ Ok None }
    {
        Ok(None)
    }

    fn index(&mut self, _handle: u64) -> Result<Option<Value>, HostAnswer>
        ensures none { result ≡ Ok None }
    {
        Ok(None)
    }

    fn str_of(&mut self, _handle: u64) -> Result<Option<Value>, HostAnswer>
        ensures none { result ≡ Ok None }
    {
        Ok(None)
    }

    fn repr_of(&mut self, _handle: u64) -> Result<Option<Value>, HostAnswer>
        ensures none { result ≡ Ok None }
    {
        Ok(None)
    }

    fn format_of(&mut self, _handle: u64, _spec: &PyStr) -> Result<Option<Value>, HostAnswer>
        ensures none { result ≡ Ok None }
    {
        Ok(None)
    }
}
