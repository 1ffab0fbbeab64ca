//! Pools of distinct texts, and handles that name a text by its place in its pool.
#![tactic(auto)]

mod handle;
mod keys;
pub mod laws;
mod pool;

pub use handle::{PyInterned, PyStrInterned};
pub use keys::{CachedPyStrRef, InternableString, MaybeInternedString};
pub use pool::{StringPool, as_interned_str};
