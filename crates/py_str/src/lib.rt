//! Stripping, padding, quoting, codecs and tests of texts.
#![tactic(auto)]

mod ascii_tests;
mod bytes_more;
mod codec;
pub mod laws;
mod pad;
mod pushing;
mod quote;
mod str_more;
mod strip;
mod tabs;
mod tests_of;

pub use bytes_more::BytesMore;
pub use str_more::StrMore;
