//! A layer of the program's own: it counts the events and spans that its output is told of.

ghost use Rattle.std.specs.Prelude.{◌≡◌};
ghost use Rattle.uses.specs.CountsKept.{counts_after};
ghost use Rattle.uses.specs.Tallies.{counted};

use span_registry_layers::{Context, Listener, Told};

/// How many events happened, and how many spans were made. The counts stop at the greatest number.
#[derive(Clone, Copy, Debug, PartialEq, Eq, Drop)]
pub struct Counts {
    pub events: u64,
    pub spans: u64,
}

impl Counts {
    /// Nothing happened yet.
    pub fn none() -> Counts
        ensures { (result.events ≡ 0) × (result.spans ≡ 0) }
    {
        Counts {
            events: 0,
            spans: 0,
        }
    }

    /// One event more.
    fn count_event(&mut self)
        ensures { self.new ≡ record self.old { events = counted self.old.events } }
    {
        self.events = self.events.saturating_add(1);
    }

    /// One span more.
    fn count_span(&mut self)
        ensures { self.new ≡ record self.old { spans = counted self.old.spans } }
    {
        self.spans = self.spans.saturating_add(1);
    }
}

/// Events and new spans are counted, and other notices change nothing. `Listening::new(counts)` is the layer: it vetoes
/// nothing, and writes nothing to the registry.
impl Listener for Counts {
    ghost heard = { λ x n y. y ≡ counts_after n x };

    fn hear(&mut self, call: &Told<'_, '_, '_, '_>, _context: &Context<'_>) {
        match call {
            Told::Event(_) => self.count_event(),
            Told::NewSpan(..) => self.count_span(),
            _ => {}
        }
    }
}
