//! Layers made of a layer.
ghost use Rattle.std.specs.Prelude.{◌≡◌};
ghost use Rattle.span_registry_layers_store.specs.Registries.{RegistryValue};
ghost use Rattle.span_registry_layers_layers.specs.Trees.{AttachGives, JoinGives};

use crate::attached::{AttachError, attach};
use crate::filtered::Filtered;
use crate::layer::{Layer, Layered};
use span_registry_layers_store::Registry;

/// Layers made of a layer.
pub trait LayerExt: Layer {
    /// The other layer over this one.
    fn and_then<L>(self, layer: L) -> Layered<L, Self>
    where
        Self: Sized,
        ensures { (result.layer ≡ layer) × (result.inner ≡ self) }
    {
        Layered::new(layer, self)
    }

    /// This layer over a registry, which numbers its filters: a subscriber.
    ///
    /// # Errors
    ///
    /// `AttachError` where the registry would have more than 64 filters. Both parts come back as they were.
    fn with_subscriber(
        self,
        registry: Registry,
    ) -> Result<Layered<Self, Registry>, AttachError<Self, Registry>>
    where
        Self: Sized,
        ensures { AttachGives ⟦<Self as Layer>⟧ self registry result }
    {
        attach(self, registry)
    }

    /// This layer, told what the filter passes.
    fn with_filter<F>(self, filter: F) -> Filtered<Self, F>
    where
        Self: Sized,
        ensures { (result.layer ≡ self) × (result.filter ≡ filter) }
    {
        Filtered::new(self, filter)
    }
}

impl<L: Layer> LayerExt for L {}

/// Layers over a registry.
pub trait SubscriberExt {
    // The registry that numbers the filters.
    ghost registry: { Self → RegistryValue };

    /// A layer over the registry, which numbers its filters: a subscriber.
    ///
    /// # Errors
    ///
    /// `AttachError` where the registry would have more than 64 filters. Both parts come back as they were.
    fn with<L: Layer>(self, layer: L) -> Result<Layered<L, Registry>, AttachError<L, Registry>>
    where
        Self: Sized,
        ensures { AttachGives ⟦<L as Layer>⟧ layer (registry self) result };
}

impl SubscriberExt for Registry {
    ghost registry = { λ r. r };

    fn with<L: Layer>(self, layer: L) -> Result<Layered<L, Registry>, AttachError<L, Registry>> {
        attach(layer, self)
    }
}

impl<M: Layer> Layered<M, Registry> {
    /// One more layer over the others, whose filters the registry numbers after theirs.
    ///
    /// # Errors
    ///
    /// `AttachError` where the registry would have more than 64 filters. Both parts come back as they were.
    pub fn with<L: Layer>(
        self,
        layer: L,
    ) -> Result<Layered<Layered<L, M>, Registry>, AttachError<L, Layered<M, Registry>>>
        ensures { JoinGives ⟦<L as Layer>⟧ ⟦<M as Layer>⟧ ⟦<Layered<L, M> as Layer>⟧ layer self result }
    {
        let Layered {
            layer: inner,
            inner: registry,
        } = self;
        match attach(layer, registry) {
            Ok(
                Layered {
                    layer,
                    inner: registry,
                },
            ) => { Ok(Layered::new(Layered::new(layer, inner), registry)) }
            Err(
                AttachError {
                    layer,
                    subscriber: registry,
                },
            ) => Err(AttachError {
                layer,
                subscriber: Layered::new(inner, registry),
            }),
        }
    }
}
