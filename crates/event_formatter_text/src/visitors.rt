//! Visitors that write the values of fields.

pub(crate) mod alt;
pub(crate) mod default;
pub(crate) mod json;
pub(crate) mod pretty;
