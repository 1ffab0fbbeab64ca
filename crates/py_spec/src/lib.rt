//! The grammars of templates: what a template is made of, and how one value is written.
#![tactic(auto)]

pub mod laws;
mod percent;

pub use percent::byte_parts::CFormatBytes;
pub use percent::parts::{
    CConversionFlags, CFormatConversion, CFormatKey, CFormatPart, CFormatPrecision,
    CFormatQuantity, CFormatSpec, CFormatType, CNumberType,
};
pub use percent::template::CFormatString;
