//! The registry: open spans, which of them each lane has entered, and what outputs keep with them.
#![tactic(auto)]

mod close_candidates;
mod extensions;
mod filter_count;
mod filter_map;
mod index;
mod kept_metadata;
mod lanes;
mod laws;
mod lookup;
mod parts;
mod record;
mod registry;
mod scope;
mod slot;
mod slot_index;
mod slot_room;
mod span;
mod span_ref;
mod span_slot;
mod spans;
mod table;

pub use extensions::{Extensions, ExtensionsMut};
pub use filter_map::{FilterId, FilterMap, TooManyFilters};
pub use laws::{
    closes_child_first, line_is_whole, open_is_least, registry_stays_sound,
    slots_keep_to_their_key, slots_stand_aside,
};
pub use lookup::{Data, LookupSpan, SpanData};
pub use record::SpanRecord;
pub use registry::Registry;
pub use scope::{Scope, ScopeFromRoot};
pub use slot::{InsertError, OutputKey, Slot, Tag, Timings};
pub use span_ref::SpanRef;
pub use table::{RegistryTable, SpanRow};

#[cfg(test)]
mod tests;
