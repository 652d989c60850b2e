//! Ways down a tree of layers to one of them. They are values for laws, which say what is told to the layer at the end.
ghost use Rattle.std.specs.Prelude.{◌≡◌, ℕ, Bool, true};
ghost use Rattle.tracing_core_fields.specs.PlainMetadata.{PlainMetadata};
ghost use Rattle.span_registry_layers_layers.specs.FilterViews.{View};
ghost use Rattle.span_registry_layers_layers.specs.Notices.{Said};

use crate::filter::Filter;
use crate::filtered::Filtered;
use crate::layer::{Layer, Layered};

/// A way down a tree of layers to one of them: that one is told exactly what all filters on the way pass.
pub trait Way<T: Layer, L: Layer> {
    ghost use Rattle.span_registry_layers_layers.specs.Ways.{KeepsWord, TellsWhere};

    // Which layer it leads to.
    ghost leads: { Self → T → L → Type 0 };

    // Whether all filters on it, asked in turn, may pass what is said: of an event when their turn comes, and of a
    // span by what they said of it when it was made.
    ghost passes: { Self → T → Said → View → Bool → Type 0 };

    // Whether all filters on it, asked in turn there and then, may pass what is made of a callsite.
    ghost asks: { Self → T → PlainMetadata → View → Bool → Type 0 };

    ghost tells: { (w : Self) → TellsWhere ⟦<T as Layer>⟧ ⟦<L as Layer>⟧ (leads w) (passes w) };

    ghost keeps: { (w : Self) → KeepsWord T.kept (passes w) (asks w) };
}

/// The tree itself.
#[derive(Clone, Copy, Debug, Drop)]
pub struct Here;

/// Down the outer one of two layers.
#[derive(Clone, Copy, Debug, Drop)]
pub struct Outer<W> {
    /// The way from there.
    pub rest: W,
}

/// Down the inner one of two layers.
#[derive(Clone, Copy, Debug, Drop)]
pub struct Inner<W> {
    /// The way from there.
    pub rest: W,
}

/// Down the layer below a filter.
#[derive(Clone, Copy, Debug, Drop)]
pub struct Below<W> {
    /// The way from there.
    pub rest: W,
}

/// Down one of several layers.
#[derive(Clone, Copy, Debug, Drop)]
pub struct Each<W> {
    /// Its place, counted from 0.
    pub place: usize,
    /// The way from there.
    pub rest: W,
}

/// Into a layer that may be absent, where it is there.
#[derive(Clone, Copy, Debug, Drop)]
pub struct Present<W> {
    /// The way from there.
    pub rest: W,
}

impl<T: Layer> Way<T, T> for Here {
    ghost use Rattle.span_registry_layers_layers.specs.Ways.{here_tells};

    ghost leads = { λ w x l. l ≡ x };

    ghost passes = { λ w x said v b. b ≡ true };

    ghost asks = { λ w x m v b. b ≡ true };

    ghost tells = { λ w. here_tells ⟦<T as Layer>⟧ };

    ghost keeps = { λ w x m v verdicts some id call u b kept stands p. p };
}

impl<A: Layer, B: Layer, L: Layer, W: Way<A, L>> Way<Layered<A, B>, L> for Outer<W> {
    ghost use Rattle.span_registry_layers_layers.specs.Ways.{Later, outer_keeps, outer_tells};

    ghost leads = { λ w x. W.leads w.rest x.layer };

    ghost passes = { λ w x said. Later (W.passes w.rest x.layer said) };

    ghost asks = { λ w x. W.asks w.rest x.layer };

    ghost tells = { λ w. outer_tells ⟦<A as Layer>⟧ ⟦<B as Layer>⟧ ⟦<L as Layer>⟧ ⟦<Layered<A, B> as Layer>⟧
        (λ x said v left y t. t) (W.leads w.rest) (W.passes w.rest) (W.tells w.rest) };

    ghost keeps = { λ w. outer_keeps A.kept B.kept (W.passes w.rest) (W.asks w.rest) (W.keeps w.rest) };
}

impl<A: Layer, B: Layer, L: Layer, W: Way<B, L>> Way<Layered<A, B>, L> for Inner<W> {
    ghost use Rattle.span_registry_layers_layers.specs.Ways.{inner_keeps, inner_tells};

    ghost leads = { λ w x. W.leads w.rest x.inner };

    ghost passes = { λ w x. W.passes w.rest x.inner };

    ghost asks = { λ w x. W.asks w.rest x.inner };

    ghost tells = { λ w. inner_tells ⟦<A as Layer>⟧ ⟦<B as Layer>⟧ ⟦<L as Layer>⟧ ⟦<Layered<A, B> as Layer>⟧
        (λ x said v left y t. t) (W.leads w.rest) (W.passes w.rest) (W.tells w.rest) };

    ghost keeps = { λ w. inner_keeps A.kept B.kept (W.passes w.rest) (W.asks w.rest) (W.keeps w.rest) };
}

impl<A: Layer, F: Filter, L: Layer, W: Way<A, L>> Way<Filtered<A, F>, L> for Below<W> {
    ghost use Rattle.span_registry_layers_layers.specs.Ways.{AsksBelow, PassesBelow, below_keeps, below_tells};

    ghost leads = { λ w x. W.leads w.rest x.layer };

    ghost passes = { λ w x. PassesBelow ⟦<F as Filter>⟧ (W.passes w.rest) x.id x };

    ghost asks = { λ w x. AsksBelow ⟦<F as Filter>⟧ (W.asks w.rest) x.id x };

    ghost tells = { λ w. below_tells ⟦<F as Filter>⟧ ⟦<A as Layer>⟧ ⟦<L as Layer>⟧ ⟦<Filtered<A, F> as Layer>⟧
        (W.leads w.rest) (W.passes w.rest) (W.tells w.rest) (λ x said v left y t. t) };

    ghost keeps = { λ w. below_keeps ⟦<F as Filter>⟧ ⟦<A as Layer>⟧ (W.passes w.rest) (W.asks w.rest)
        (W.keeps w.rest) };
}

impl<A: Layer, L: Layer, W: Way<A, L>> Way<Vec<A>, L> for Each<W> {
    ghost use Rattle.span_registry_layers_layers.specs.Ways.{AsksIn, LeadsIn, PassesIn, each_keeps, each_tells};

    ghost leads = { λ w. LeadsIn (λ (v : _). v.items) (W.leads w.rest) w.place };

    ghost passes = { λ w. PassesIn (λ (v : _). v.items) (W.passes w.rest) w.place };

    ghost asks = { λ w. AsksIn (λ (v : _). v.items) (W.asks w.rest) w.place };

    ghost tells = { λ w. each_tells ⟦<A as Layer>⟧ ⟦<L as Layer>⟧ ⟦<Vec<A> as Layer>⟧ (λ (v : _). v.items)
        (W.leads w.rest) (W.passes w.rest) (W.tells w.rest) w.place (λ x said v left y t. t) };

    ghost keeps = { λ w. each_keeps ⟦<A as Layer>⟧ (λ (v : _). v.items) (W.passes w.rest) (W.asks w.rest)
        (W.keeps w.rest) w.place };
}

impl<A: Layer, L: Layer, W: Way<A, L>> Way<Option<A>, L> for Present<W> {
    ghost use Rattle.span_registry_layers_layers.specs.Ways.{AsksIf, LeadsIf, PassesIf, present_keeps, present_tells};

    ghost leads = { λ w. LeadsIf (W.leads w.rest) };

    ghost passes = { λ w. PassesIf (W.passes w.rest) };

    ghost asks = { λ w. AsksIf (W.asks w.rest) };

    ghost tells = { λ w. present_tells ⟦<A as Layer>⟧ ⟦<L as Layer>⟧ ⟦<Option<A> as Layer>⟧ (W.leads w.rest)
        (W.passes w.rest) (W.tells w.rest) (λ x said v left y t. t) };

    ghost keeps = { λ w. present_keeps ⟦<A as Layer>⟧ (W.passes w.rest) (W.asks w.rest) (W.keeps w.rest) };
}
