//! The hub, which keeps callsites, subscribers and lanes; and, re-exported, what applications need of `tracing_core_fields`.
#![tactic(auto)]

mod callsite;
mod dispatch;
mod guard;
mod hub;
mod macros;
mod refusal;
mod run;

pub use callsite::DefaultCallsite;
pub use dispatch::Dispatch;
pub use guard::{DefaultGuard, WrongLane};
pub use hub::{
    CallsiteIndex, HandleCount, Hub, HubTable, KeptInterest, Lane, LaneDefault, RegisteredCallsite,
    RegisteredSubscriber, RequestParent,
};
pub use refusal::{
    AddError, HandleError, RegisterError, SetDefaultError, SetGlobalDefaultError, TooManyHandles,
    UnknownLane,
};
pub use run::{Book, Command, CommandError, CommandReply, NoRoom};
pub use tracing_core_fields::{
    AnyValue, Attributes, Callsite, Current, CurrentSpan, DebugText, DebugValue, DisplayValue,
    Empty, ErrorText, Event, Field, FieldSet, FieldValue, Id, Identifier, IndexedValues, Interest,
    Iter, Kind, LentValue, Level, LevelFilter, Metadata, NoSubscriber, OwnedMetadata, OwnedValue,
    ParseLevelError, ParseLevelFilterError, Record, RequestError, Subscriber, Texts, Value,
    ValueSet, Visit, VisitKinds, WeakDispatch, constant_kinds, debug, display,
    filters_read_their_names, interests_join_in_any_order, levels_read_their_names,
    numbers_are_read_as_usize,
};
pub use tracing_core_moments::At;

#[cfg(test)]
mod surface_tracing_core;
#[cfg(test)]
mod tests;
