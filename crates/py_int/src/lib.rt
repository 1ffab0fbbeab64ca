//! Integers within 128 bits, as Python's `int` has them, and bools. A call fails with `IntTooWide`
//! exactly where its mathematical result is below -2^127 or above 2^127 - 1.
#![tactic(auto)]

mod arithmetic;
mod attributes;
mod bits;
mod boolean;
mod bytes;
mod divide;
mod from_primitive;
mod inverse;
pub mod laws;
mod literal;
mod modular;
mod number;
mod power;
mod primitive;
mod residue;
mod round;
mod shift;

pub use boolean::PyBool;
pub use bytes::ArgByteOrder;
pub use number::{PyInt, PyIntRef};
pub use primitive::Primitive;
