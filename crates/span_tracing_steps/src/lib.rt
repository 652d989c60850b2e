//! The steps of a trace, from a call to a reply: what is refused, and which stack is asked to do what.
#![tactic(auto)]

mod action;
mod callsite;
mod checks;
mod filters;
mod finding;
mod holds;
mod interest;
mod laws;
mod parts;
mod requests;
mod settings;
mod setup;
mod sinks;
mod spans;
mod table;

pub use action::{RecordRequest, Request};
pub use callsite::TraceCallsite;
pub use laws::cache_stays_valid;
pub use parts::{Thread, TraceParts};
pub use table::{GuardRow, StackTable, TraceTable};
