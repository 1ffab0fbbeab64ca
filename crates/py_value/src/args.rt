//! The arguments of a call.

use crate::value::{PyDict, ValueList};

/// The arguments of a call: those by place, and those by name.
#[derive(Drop)]
pub struct FuncArgs {
    pub args: ValueList,
    pub kwargs: PyDict,
}
