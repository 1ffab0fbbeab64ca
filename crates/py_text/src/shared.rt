//! A text that is shared.

ghost use Rattle.std.specs.Prelude.{◌≡◌, ◌++◌, chars, IfOk, OnOk, OnErr, IsOkUnless};

use crate::text::PyStr;
use py_base::{PyError, PyResult};
use std::alloc::{AllocError, Global};
use std::marker::Model;
use std::rc::Rc;

/// A text that is shared: a clone is the same text, and copies nothing. Contracts see the list of
/// its code points.
#[derive(Debug, Drop)]
pub struct PyStrRef {
    shared: Rc<PyStr>,
}

impl Model for PyStrRef {
    ghost use Rattle.std.specs.Prelude.{List, ℕ};

    ghost Value = { List ℕ };

    ghost view = { λ text. text.shared.value };
}

impl PyStr {
    /// The text, to be shared.
    pub fn new_ref(alloc: Global, zelf: PyStr) -> PyResult<PyStrRef>
        ensures ok { IfOk result (λ made. made ≡ zelf) }
        ensures err { IsOkUnless result PyError.NoMemory }
    {
        let shared = Rc::new(alloc, zelf)?;
        Ok(PyStrRef { shared })
    }
}

impl PyStrRef {
    /// The text, borrowed. It takes no memory.
    pub fn as_pystr(&self) -> &PyStr
        ensures { result.now ≡ self.now }
    {
        &self.shared
    }

    /// Appends a text. The text is copied where it is shared, so that others keep it as it was, and
    /// grows in place where it is not.
    pub fn concat_in_place(&mut self, alloc: Global, other: &str) -> PyResult<()>
        ensures ok { OnOk result (self.new ≡ self.old ++ chars other.now) }
        ensures same { OnErr result (self.new ≡ self.old) }
        ensures err { IsOkUnless result PyError.NoMemory }
    {
        if let Some(text) = Rc::get_mut(&mut self.shared) {
            return text.append(other);
        }
        let sum = self.shared.add_str(alloc, other)?;
        self.shared = Rc::new(alloc, sum)?;
        Ok(())
    }
}

impl Clone for PyStrRef {
    ghost use Rattle.std.specs.Prelude.{◌≡◌};

    ghost is_clone = { λ text copy. copy ≡ text };

    fn clone(&self) -> Result<PyStrRef, AllocError> {
        let shared = self.shared.clone()?;
        Ok(PyStrRef { shared })
    }
}
