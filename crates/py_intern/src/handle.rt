//! Handles: which place of its pool a text has.

ghost use Rattle.std.specs.Prelude.{◌≡◌};

use py_text::PyStr;
use std::marker::{Model, PhantomData};

/// The number of a `T` in a pool. It is copied, and keeps neither the pool nor the `T`:
/// a handle means something in its own pool, and in copies of that pool. Contracts see the number.
#[derive_where(Clone, Copy, Debug, PartialEq, Eq, PartialOrd, Ord, Hash)]
pub struct PyInterned<T> {
    place: usize,
    #[derive_where(skip)]
    kind: PhantomData<T>,
}

/// A handle of a text.
pub type PyStrInterned = PyInterned<PyStr>;

impl<T> Model for PyInterned<T> {
    ghost use Rattle.std.specs.Prelude.{ℕ};

    ghost Value = { ℕ };

    ghost view = { λ handle. handle.place };

    ghost inverse = { λ n. record { place = n; kind = record {} } };
}

impl<T> PyInterned<T> {
    /// The handle of a place.
    pub(crate) fn at(place: usize) -> PyInterned<T>
        ensures { result ≡ place }
    {
        PyInterned {
            place,
            kind: PhantomData,
        }
    }

    /// The place, counted from 0 in the order in which the pool's texts came.
    pub fn place(self) -> usize
        ensures { result ≡ self }
    {
        self.place
    }
}
