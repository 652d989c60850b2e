//! Which spans may not stay.

ghost use Rattle.std.specs.Prelude.{◌≡◌};
ghost use Rattle.span_registry_layers_store.specs.CloseCandidates.{after_close};

use tracing_core_fields::Id;

/// Which open spans may not stay, so that nobody has to look at the others.
#[derive(Clone, Copy, Debug, Drop)]
pub(crate) enum CloseCandidates {
    /// Each stays.
    Nobody,
    /// All others than the span of this id stay.
    One(Id),
    /// Nothing is known.
    Anybody,
}

impl CloseCandidates {
    /// The same after a close: where no other span could go, the parent of the one that closed alone can.
    pub(crate) fn after_close(self, parent: Option<Id>) -> CloseCandidates
        ensures { result ≡ after_close self parent }
    {
        match (self, parent) {
            (CloseCandidates::Anybody, _) => CloseCandidates::Anybody,
            (_, None) => CloseCandidates::Nobody,
            (_, Some(parent)) => CloseCandidates::One(parent),
        }
    }
}
