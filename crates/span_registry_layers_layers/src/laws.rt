//! What holds of every tree of layers.
ghost use Rattle.span_registry_layers_layers.specs.Soundness.{AttachedIsSound, JoinedIsSound, TreeStaysSound};
ghost use Rattle.span_registry_layers_layers.specs.Trees.{StayAttached};
ghost use Rattle.span_registry_layers_layers.specs.Ways.{TreeTells, TreeTellsEvents, TreeTellsSpans};

use crate::layer::{Layer, Layered};
use crate::way::Way;

/// Each filter of a tree keeps its number, whatever is called.
pub fn trees_stay_attached<L: Layer>()
    ensures { StayAttached ⟦<L as Layer>⟧ }
{}

/// The registry of a tree is sound where the layers were attached to a sound one, and each call keeps it so:
/// ids rise, parents stand before their children, and the listed spans are the open ones. So closes are told
/// of a child before its parent.
pub fn tree_registry_stays_sound<L: Layer>()
    // Attaching layers to a sound registry leaves it sound.
    ensures start { AttachedIsSound ⟦<L as Layer>⟧ }
    ensures call { TreeStaysSound ⟦<L as Layer>⟧ }
{}

/// A further layer over a tree leaves its registry sound.
pub fn joined_registry_stays_sound<L: Layer, M: Layer>()
    ensures { JoinedIsSound ⟦<L as Layer>⟧ ⟦<M as Layer>⟧ ⟦<Layered<L, M> as Layer>⟧ }
{}

/// A layer of a tree is told exactly what all filters on the way down to it pass, whatever stands beside it: an event
/// where each of them, asked in turn there and then, passes it, a span that is made where each of them, asked in turn
/// when it is made, passes its callsite, and a later call on the span where each of them passed it then. An event that
/// a layer of the tree vetoes reaches nobody.
pub fn layer_hears_what_its_filters_pass<T: Layer, L: Layer, W: Way<T, L>>()
    // When the layers of a tree are told something, one of them hears it exactly where all filters on the way down to it pass it.
    ensures notified { (w : W) → TreeTells ⟦<T as Layer>⟧ ⟦<L as Layer>⟧ (W.leads w) (W.passes w) }
    // An event that the tree lets through is told to a layer exactly where all filters on the way down to it pass it; any other
    // changes no layer.
    ensures event { (w : W) → TreeTellsEvents ⟦<T as Layer>⟧ ⟦<L as Layer>⟧ (W.leads w) (W.passes w) }
    // A made span is told to a layer exactly where all filters on the way down to it, asked then, pass its callsite.
    ensures span { (w : W) → TreeTellsSpans ⟦<T as Layer>⟧ ⟦<L as Layer>⟧ (W.leads w) (W.asks w) }
{}
