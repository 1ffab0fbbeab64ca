//! A value that is shared.

ghost use Rattle.std.specs.Prelude.{◌≡◌, IfOk, IsOkUnless};

use crate::value::Value;
use py_base::{PyError, PyResult};
use std::alloc::Global;
use std::rc::Rc;

/// A value that is shared: a clone is the same value, and copies nothing.
pub type ValueRef = Rc<Value>;

/// The value, to be shared.
pub fn value_ref(alloc: Global, value: Value) -> PyResult<ValueRef>
    ensures ok { IfOk result (λ made. made.value ≡ value) }
    ensures err { IsOkUnless result PyError.NoMemory }
{
    Ok(Rc::new(alloc, value)?)
}
