//! Visitors over other visitors.
ghost use Rattle.std.specs.Prelude.{◌≡◌};
ghost use Rattle.std.specs.Borrow.{sem};
ghost use Rattle.tracing_core_fields.specs.DebugText.{plain_debug};
ghost use Rattle.event_formatter_text.specs.VisitorAdapters.{alternate, messaged};
ghost use Rattle.event_formatter_text.specs.Loans.{LendsInAlt, LendsInMessages};

use crate::field_text::is_message;
use tracing_core_fields::{DebugText, Field, Visit};

/// Hands each value to the inner visitor, a debug value by its alternate text.
#[derive(Clone, Copy, Debug)]
pub struct Alt<V>(V);

impl<V> Alt<V> {
    /// Hands values to this visitor.
    pub fn new(visitor: V) -> Alt<V>
        ensures { result.0 ≡ visitor }
    {
        Alt(visitor)
    }

    /// The visitor that it hands values to.
    pub fn inner(&self) -> &V
        ensures { result.now ≡ self.now.0 }
    {
        &self.0
    }

    /// The visitor that it hands values to, for writing.
    pub fn inner_mut(&mut self) -> &mut V
        ensures inner { result.now ≡ self.old.0 }
        ensures* ends { sem 𝓛 (LendsInAlt V.row self.entry result) }
    {
        &mut self.0
    }

    /// The visitor that it hands values to.
    pub fn into_inner(self) -> V
        ensures { result ≡ self.0 }
    {
        self.0
    }
}

// The debug text with its alternate form in place of the plain one.
fn alternate_of<'t>(value: &DebugText<'t>) -> DebugText<'t>
    ensures { plain_debug result ≡ alternate (plain_debug value.now) }
{
    match value {
        DebugText::Texts { alternate, .. } => DebugText::Texts {
            plain: alternate,
            alternate,
        },
        other => *other,
    }
}

impl<V: Visit> Visit for Alt<V> {
    type Error = V::Error;

    ghost shows = { λ before field value answer after. V.shows before.0 field (alternate value) answer after.0 };

    fn record_debug(&mut self, field: &Field<'_>, value: &DebugText<'_>) -> Result<(), V::Error> {
        self.0.record_debug(field, &alternate_of(value))
    }
}

/// Hands each value to the inner visitor, a text named `message` as a debug value of its characters.
#[derive(Clone, Copy, Debug)]
pub struct Messages<V>(V);

impl<V> Messages<V> {
    /// Hands values to this visitor.
    pub fn new(visitor: V) -> Messages<V>
        ensures { result.0 ≡ visitor }
    {
        Messages(visitor)
    }

    /// The visitor that it hands values to.
    pub fn inner(&self) -> &V
        ensures { result.now ≡ self.now.0 }
    {
        &self.0
    }

    /// The visitor that it hands values to, for writing.
    pub fn inner_mut(&mut self) -> &mut V
        ensures inner { result.now ≡ self.old.0 }
        ensures* ends { sem 𝓛 (LendsInMessages V.row self.entry result) }
    {
        &mut self.0
    }

    /// The visitor that it hands values to.
    pub fn into_inner(self) -> V
        ensures { result ≡ self.0 }
    {
        self.0
    }
}

// A text as a debug value of its characters, where the field is the message.
fn messaged_of<'t>(name: &str, value: &DebugText<'t>) -> DebugText<'t>
    ensures { plain_debug result ≡ messaged name.now (plain_debug value.now) }
{
    match value {
        DebugText::Str(text) if is_message(name) => DebugText::Texts {
            plain: text,
            alternate: text,
        },
        other => *other,
    }
}

impl<V: Visit> Visit for Messages<V> {
    type Error = V::Error;

    ghost shows = { λ before field value answer after. V.shows before.0 field (messaged field.name value) answer after.0 };

    fn record_debug(&mut self, field: &Field<'_>, value: &DebugText<'_>) -> Result<(), V::Error> {
        self.0
            .record_debug(field, &messaged_of(field.name(), value))
    }
}
