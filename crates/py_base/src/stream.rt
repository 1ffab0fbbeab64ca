//! Where bytes come from and go to.

pub(crate) mod mem_sink;
pub(crate) mod mem_source;
pub(crate) mod sink;
pub(crate) mod source;
