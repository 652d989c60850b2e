//! Filters and layers over a registry of spans.
#![tactic(auto)]

mod attached;
mod context;
mod filter;
mod filtered;
mod laws;
mod layer;
mod way;

pub use attached::AttachError;
pub use context::Context;
pub use filter::{
    And, CallsiteTest, ContextTest, DynFilterFn, Filter, FilterExt, FilterFn, MetadataTest, Not,
    Or, SpanCall, dynamic_filter_fn, either_hint, filter_fn,
};
pub use filtered::Filtered;
pub use laws::{
    joined_registry_stays_sound, layer_hears_what_its_filters_pass, tree_registry_stays_sound,
    trees_stay_attached,
};
pub use layer::{Identity, Layer, LayerExt, Layered, Listener, Listening, SubscriberExt, Told};
pub use way::{Below, Each, Here, Inner, Outer, Present, Way};
