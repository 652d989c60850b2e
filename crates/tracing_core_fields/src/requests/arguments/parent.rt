//! Which span a request stands under.
ghost use Rattle.std.specs.Prelude.{◌≡◌};
ghost use Rattle.std.specs.Option.{option_copied};
ghost use Rattle.tracing_core_fields.specs.requests.PlainRequests.{explicit_parent};

use crate::Id;

/// Which span a request stands under.
#[derive(Clone, Copy, Debug)]
pub(crate) enum Parent {
    /// None.
    Root,
    /// The current one, where there is one.
    Current,
    /// This one.
    Explicit(Id),
}

impl Parent {
    // The span that was named.
    pub(crate) fn named(&self) -> Option<&Id>
        ensures { option_copied result ≡ explicit_parent self.now }
    {
        match self {
            Parent::Explicit(id) => Some(id),
            Parent::Root | Parent::Current => None,
        }
    }
}
