//! Bytes.

ghost use Rattle.std.specs.Prelude.{◌≡◌, length, IfOk, IsOkUnless};

use py_base::{PyError, PyResult};
use std::alloc::Global;
use std::cmp::Ordering;
use std::hash::{Hash, Hasher};
use std::marker::Model;

/// Bytes. Contracts see their list.
#[derive(Debug, Drop)]
pub struct PyBytes {
    bytes: Vec<u8>,
}

impl Model for PyBytes {
    ghost use Rattle.std.specs.Prelude.{List, ℕ};

    ghost Value = { List ℕ };

    ghost view = { λ owned. owned.bytes.items };
}

impl From<Vec<u8>> for PyBytes {
    ghost use Rattle.std.specs.Prelude.{◌≡◌};

    ghost from_gives = { λ bytes made. made ≡ bytes.items };

    /// The bytes, moved. It takes no memory.
    fn from(bytes: Vec<u8>) -> PyBytes {
        PyBytes { bytes }
    }
}

impl PyBytes {
    /// A copy of the bytes.
    pub fn copy_of(alloc: Global, bytes: &[u8]) -> PyResult<PyBytes>
        ensures ok { IfOk result (λ made. made ≡ bytes.now) }
        ensures err { IsOkUnless result PyError.NoMemory }
    {
        let bytes = Vec::from_slice(alloc, bytes)?;
        Ok(PyBytes { bytes })
    }

    /// The bytes, borrowed.
    pub fn as_bytes(&self) -> &[u8]
        ensures { result.now ≡ self.now }
    {
        &self.bytes
    }

    /// How many bytes there are.
    pub fn len(&self) -> usize
        ensures { result ≡ length self.now }
    {
        self.bytes.len()
    }

    /// A copy of the bytes.
    pub fn try_clone(&self, alloc: Global) -> PyResult<PyBytes>
        ensures ok { IfOk result (λ made. made ≡ self.now) }
        ensures err { IsOkUnless result PyError.NoMemory }
    {
        PyBytes::copy_of(alloc, &self.bytes)
    }
}

impl PartialEq for PyBytes {
    ghost use Rattle.std.specs.Prelude.{◌==◌};
    ghost use Rattle.std.specs.Cmp.Lexicographic.{pointwise};
    ghost use Rattle.std.specs.Cmp.Rules.{comparing};
    ghost use Rattle.std.proofs.Common.{rules};

    ghost eq = { pointwise ◌==◌ };

    ghost laws = { Prim.search (comparing, rules) };

    fn eq(&self, other: &PyBytes) -> bool {
        self.bytes == other.bytes
    }
}

impl Eq for PyBytes {
    ghost use Rattle.std.specs.Cmp.Rules.{comparing};
    ghost use Rattle.std.proofs.Common.{rules};

    ghost laws = { Prim.search (comparing, rules) };
}

impl Ord for PyBytes {
    ghost use Rattle.std.specs.Cmp.Lexicographic.{slice_cmp};
    ghost use Rattle.std.specs.Ordering.{nat_cmp};
    ghost use Rattle.std.specs.Cmp.Rules.{comparing};
    ghost use Rattle.std.proofs.Common.{rules};

    ghost cmp = { slice_cmp nat_cmp };

    ghost total = { Prim.search (comparing, rules) };

    ghost matches_partial_cmp = { Prim.search (comparing, rules) };

    ghost matches_eq = { Prim.search (comparing, rules) };

    fn cmp(&self, other: &PyBytes) -> Ordering {
        self.as_bytes().cmp(other.as_bytes())
    }
}

impl PartialOrd for PyBytes {
    ghost use Rattle.std.specs.Cmp.Lexicographic.{slice_cmp};
    ghost use Rattle.std.specs.Ordering.{nat_cmp, as_partial_cmp};
    ghost use Rattle.std.specs.Cmp.Rules.{comparing};
    ghost use Rattle.std.specs.Cmp.{partial_order_from_own_ties};
    ghost use Rattle.std.proofs.Common.{rules};

    ghost partial_cmp = { as_partial_cmp (slice_cmp nat_cmp) };

    ghost laws = { partial_order_from_own_ties
        (Prim.search (comparing, rules)) (Prim.search (comparing, rules)) };

    fn partial_cmp(&self, other: &PyBytes) -> Option<Ordering> {
        Some(self.cmp(other))
    }
}

impl Hash for PyBytes {
    ghost use Rattle.std.specs.Hash as fed;
    ghost use Rattle.std.specs.Cmp.Rules.{comparing, hashing};
    ghost use Rattle.std.proofs.Common.{rules};

    ghost hash_input = { λ bytes. fed.slice fed.u8 bytes };

    ghost respects_eq = { Prim.search (hashing, rules) };

    fn hash<H: Hasher>(&self, state: &mut H) {
        self.as_bytes().hash(state);
    }
}
