//! Templates that are filled with values: `format % values` of "printf-style String Formatting" and
//! "printf-style Bytes Formatting" of the Python Library Reference.
#![tactic(auto)]

pub mod laws;
mod percent;

pub use percent::kind::Kind;
pub use percent::{StrFormats, cformat_bytes, cformat_string};
