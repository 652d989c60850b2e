//! A stack, which has outputs over one registry of spans, each a layer behind a filter.
#![tactic(auto)]

mod cached_interest;
mod interest_cache;
mod laws;
mod output;
mod output_slot;
mod output_slots;
mod parts;
mod refusals;
mod stack;
mod subscriber;

pub use laws::{
    dropped_events_tell_nobody, dropped_spans_tell_nobody, layers_keep_to_keys, numbers_stay,
    one_output_decides, registry_stands_alone, stack_registry_stays_sound, verdicts_are_own,
};
pub use output::{Output, StackError, StackRefusal, UnknownOutput};
pub use span_registry_layers_layers::{
    And, AttachError, Below, CallsiteTest, Context, ContextTest, DynFilterFn, Each, Filter,
    FilterExt, FilterFn, Filtered, Here, Identity, Inner, Layer, LayerExt, Layered, Listener,
    Listening, MetadataTest, Not, Or, Outer, Present, SpanCall, SubscriberExt, Told, Way,
    dynamic_filter_fn, filter_fn, joined_registry_stays_sound, layer_hears_what_its_filters_pass,
    tree_registry_stays_sound, trees_stay_attached,
};
pub use span_registry_layers_store::{
    Data, Extensions, ExtensionsMut, FilterId, FilterMap, InsertError, LookupSpan, OutputKey,
    Registry, RegistryTable, Scope, ScopeFromRoot, Slot, SpanData, SpanRecord, SpanRef, SpanRow,
    Tag, Timings, TooManyFilters, closes_child_first, line_is_whole, open_is_least,
    registry_stays_sound, slots_keep_to_their_key, slots_stand_aside,
};
pub use stack::{IntoOutputs, Stack};

#[cfg(test)]
mod tests;
