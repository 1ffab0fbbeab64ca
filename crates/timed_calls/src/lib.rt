//! One call on a text, integers or a pool, made over and over, and the sum of what it gives.
#![tactic(auto)]

mod more_texts;
mod numbers;
mod pools;
mod request;
mod sample_texts;
mod searches;
mod texts;

pub use more_texts::MoreCall;
pub use numbers::NumberCall;
pub use pools::PoolCall;
pub use request::{Call, Request};
pub use sample_texts::{Language, text_of, text_with_end};
pub use searches::SearchCall;
pub use texts::TextCall;
