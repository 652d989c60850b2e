//! The plain data of tracing (levels, metadata, fields, values, visits, span ids), the requests, and the subscribers that take them.
#![tactic(auto)]

mod callsite;
mod debug_text;
mod draft;
mod error_text;
mod field;
mod hex;
mod indexed_values;
mod kind;
mod level;
mod level_filter;
mod metadata;
mod number;
mod owned_copies;
mod owned_equality;
mod owned_metadata;
mod owned_value;
mod parse;
mod quoted;
mod rank;
mod record;
mod requests;
mod shown;
mod span;
mod texts;
mod value;
mod value_set;
mod visit;
mod visit_kinds;

pub use callsite::Identifier;
pub use debug_text::DebugText;
pub use error_text::ErrorText;
pub use field::{Field, FieldSet, Iter};
pub use indexed_values::{IndexedValues, LentValue};
pub use kind::{Kind, constant_kinds};
pub use level::{Level, ParseLevelError, levels_read_their_names};
pub use level_filter::{LevelFilter, ParseLevelFilterError, filters_read_their_names};
pub use metadata::Metadata;
pub use owned_equality::are_same_values;
pub use owned_metadata::OwnedMetadata;
pub use owned_value::{FieldValue, OwnedValue};
pub use parse::numbers_are_read_as_usize;
pub use requests::{
    Attributes, Callsite, Current, CurrentSpan, Event, Interest, InterestInner, NoSubscriber,
    Record, RequestError, Subscriber, WeakDispatch, inner_of, interest_of,
    interests_join_in_any_order, serial_of, weak_of,
};
pub use shown::{DebugValue, DisplayValue, debug, display};
pub use span::Id;
pub use texts::Texts;
pub use value::{Empty, Value};
pub use value_set::{AnyValue, ValueSet};
pub use visit::Visit;
pub use visit_kinds::VisitKinds;
