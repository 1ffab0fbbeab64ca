//! Why a line of a table has no answer in tokens.

use py_base::PyError;
use std::alloc::{AllocError, AllocFailed};

/// Why a call gives no tokens.
#[derive(Debug, Drop)]
pub enum Fault {
    /// Memory ran out outside of the call.
    NoMemory,
    /// The arguments are not those of the call.
    BadArguments,
    /// The table has no call of this name.
    NoCall,
    /// The call itself fails with this error.
    Error(PyError),
}

impl From<AllocError> for Fault {
    ghost use Rattle.std.specs.Prelude.{◌≡◌};
    ghost use Rattle.call_tables.specs.declared.fault.Fault.TheVariants.{NoMemory};

    ghost from_gives = { λ _ fault. fault ≡ NoMemory };

    fn from(_error: AllocError) -> Fault {
        Fault::NoMemory
    }
}

impl<T: Drop> From<AllocFailed<T>> for Fault {
    ghost use Rattle.std.specs.Prelude.{◌≡◌};
    ghost use Rattle.call_tables.specs.declared.fault.Fault.TheVariants.{NoMemory};

    ghost from_gives = { λ _ fault. fault ≡ NoMemory };

    fn from(_error: AllocFailed<T>) -> Fault {
        Fault::NoMemory
    }
}

impl From<PyError> for Fault {
    ghost use Rattle.std.specs.Prelude.{◌≡◌};
    ghost use Rattle.call_tables.specs.declared.fault.Fault.TheVariants.{Error};

    ghost from_gives = { λ error fault. fault ≡ Error error };

    fn from(error: PyError) -> Fault {
        Fault::Error(error)
    }
}
