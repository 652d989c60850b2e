//! What a callsite makes.
ghost use Rattle.std.specs.Prelude.{◌≡◌, ◌↔◌, IsTrue, true, false};

use std::marker::Model;

/// What a callsite makes: events, spans, or a hint alone.
///
/// A contract sees a kind as the record `PlainKind`.
#[derive(Clone, Copy, Debug)]
pub struct Kind {
    event: bool,
    span: bool,
    hint: bool,
}

impl Model for Kind {
    ghost use Rattle.tracing_core_fields.specs.PlainKind.{PlainKind};

    ghost Value = { PlainKind };

    ghost view = { λ kind. record { is_event = kind.event; is_span = kind.span; is_hint = kind.hint } };

    ghost inverse = { λ kind. record { event = kind.is_event; span = kind.is_span; hint = kind.is_hint } };
}

impl Kind {
    /// The callsite makes events.
    pub const EVENT: Kind = Kind {
        event: true,
        span: false,
        hint: false,
    };

    /// The callsite makes spans.
    pub const SPAN: Kind = Kind {
        event: false,
        span: true,
        hint: false,
    };

    /// Nothing is made: the metadata only asks whether it would be recorded.
    pub const HINT: Kind = Kind {
        event: false,
        span: false,
        hint: true,
    };

    /// Whether the callsite makes spans.
    pub fn is_span(&self) -> bool
        ensures { result ≡ self.now.is_span }
    {
        self.span
    }

    /// Whether the callsite makes events.
    pub fn is_event(&self) -> bool
        ensures { result ≡ self.now.is_event }
    {
        self.event
    }

    /// Whether the metadata only asks.
    pub fn is_hint(&self) -> bool
        ensures { result ≡ self.now.is_hint }
    {
        self.hint
    }

    /// The same kind, as a hint.
    pub const fn hint(self) -> Kind
        ensures { result ≡ record self { is_hint = true } }
    {
        Kind {
            event: self.event,
            span: self.span,
            hint: true,
        }
    }
}

/// `EVENT`, `SPAN` and `HINT`: the first makes events alone, the second spans alone, and the third nothing.
pub fn constant_kinds() -> (Kind, Kind, Kind)
    ensures event { result.0 ≡ record { is_event = true; is_span = false; is_hint = false } }
    ensures span { result.1 ≡ record { is_event = false; is_span = true; is_hint = false } }
    ensures hint { result.2 ≡ record { is_event = false; is_span = false; is_hint = true } }
{
    (Kind::EVENT, Kind::SPAN, Kind::HINT)
}

impl PartialEq for Kind {
    ghost use Rattle.std.specs.Cmp.{partial_equiv_from_equiv};
    ghost use Rattle.tracing_core_fields.specs.PlainKind.{is_same_kind, is_same_kind-equivalence};

    ghost eq = { is_same_kind };

    ghost laws = { partial_equiv_from_equiv is_same_kind-equivalence };

    fn eq(&self, other: &Kind) -> bool
        ensures test { result ≡ is_same_kind self.now other.now }
        ensures same { IsTrue result ↔ (self.now ≡ other.now) }
    {
        self.event == other.event && self.span == other.span && self.hint == other.hint
    }
}

impl Eq for Kind {
    ghost use Rattle.tracing_core_fields.specs.PlainKind.{is_same_kind-equivalence};

    ghost laws = { is_same_kind-equivalence };
}
