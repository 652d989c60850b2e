//! What callers hand to a trace and what it answers, as plain data; and the skeleton of a trace, which says in
//! `specs/` which step is refused, what it answers, and which spans are open afterwards.
#![tactic(auto)]

mod call;
mod call_copies;
mod call_equality;
mod call_error;
mod has_filters;
mod has_outputs;
mod has_registry;
mod has_sinks;
mod laws;
mod queue_call;
mod refusal;
mod setting;

pub use call::{
    DefaultCall, EnabledCall, EventCall, FollowsCall, NewSpanCall, Parent, RecordCall, Reply,
    ResetCall, SpanCall, SpanName, Step,
};
pub use call_error::CallError;
pub use has_filters::HasFilters;
pub use has_outputs::HasOutputs;
pub use has_registry::HasRegistry;
pub use has_sinks::HasSinks;
pub use laws::stays_counted;
pub use queue_call::{QueueCall, SinkCall};
pub use refusal::Refusal;
pub use setting::{OutputPlace, Setting, SettingCall, SpanMoments};
