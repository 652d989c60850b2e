//! The current span.
ghost use Rattle.std.specs.Prelude.{◌≡◌, Some};
ghost use Rattle.std.specs.Option.{option_map, option_copied};
ghost use Rattle.tracing_core_fields.specs.Metadata.{plain_metadata};
ghost use Rattle.tracing_core_fields.specs.requests.Currents.{PlainCurrent, Inside, Outside, Untold, plain_current, is_told, span_told};
ghost use Rattle.tracing_core_fields.specs.requests.Currents.{id_told, metadata_told, plain_span, current_metadata};

use crate::{Id, Metadata};

/// What a subscriber tells of the current span: which one it is, that there is none, or nothing.
#[derive(Clone, Copy, Debug)]
pub struct Current<'m> {
    // There is a current span where both of these are known.
    id: Option<Id>,
    metadata: Option<&'m Metadata<'m>>,
    // Where there is none: whether that was told.
    outside: bool,
}

impl<'m> Current<'m> {
    /// The current span is this one.
    pub fn new(id: Id, metadata: &'m Metadata<'m>) -> Current<'m>
        ensures plain { plain_current result ≡ Inside id (plain_metadata metadata.now) }
        ensures metadata { current_metadata result ≡ Some metadata.now }
    {
        Current {
            id: Some(id),
            metadata: Some(metadata),
            ..Current::unknown()
        }
    }

    /// There is no current span.
    pub fn none() -> Current<'m>
        ensures { plain_current result ≡ Outside }
    {
        Current {
            id: None,
            metadata: None,
            outside: true,
        }
    }

    /// It isn't known which span is current.
    pub fn unknown() -> Current<'m>
        ensures { plain_current result ≡ Untold }
    {
        Current {
            id: None,
            metadata: None,
            outside: false,
        }
    }

    /// Whether the subscriber told which span is current, or that none is.
    pub fn is_known(&self) -> bool
        ensures { result ≡ is_told (plain_current self.now) }
    {
        (self.id.is_some() && self.metadata.is_some()) || self.outside
    }

    /// The id and the metadata of the current span, where there is one.
    pub fn into_inner(self) -> Option<(Id, &'m Metadata<'m>)>
        ensures id { option_map (λ span. span.0) result ≡ id_told (plain_current self.entry) }
        ensures metadata { option_map (λ span. span.1.now) result ≡ current_metadata self.entry }
        ensures plain { option_map plain_span result ≡ span_told (plain_current self.entry) }
    {
        match (self.id, self.metadata) {
            (Some(id), Some(metadata)) => Some((id, metadata)),
            _ => None,
        }
    }

    /// The id of the current span, where there is one.
    pub fn id(&self) -> Option<&Id>
        ensures { option_copied result ≡ id_told (plain_current self.now) }
    {
        match (&self.id, self.metadata) {
            (Some(id), Some(_)) => Some(id),
            _ => None,
        }
    }

    /// The metadata of the current span, where there is one.
    pub fn metadata(&self) -> Option<&'m Metadata<'m>>
        ensures metadata { option_copied result ≡ current_metadata self.now }
        ensures plain { option_map plain_metadata (option_copied result) ≡ metadata_told (plain_current self.now) }
    {
        match (self.id, self.metadata) {
            (Some(_), Some(metadata)) => Some(metadata),
            _ => None,
        }
    }
}

impl<'m> From<Current<'m>> for Option<Id> {
    ghost from_gives = { λ current id. id ≡ id_told (plain_current current) };

    fn from(current: Current<'m>) -> Option<Id>
        ensures { result ≡ id_told (plain_current current.entry) }
    {
        match (current.id, current.metadata) {
            (Some(own), Some(_)) => Some(own),
            _ => None,
        }
    }
}

impl<'m> From<&Current<'m>> for Option<Id> {
    ghost from_gives = { λ current id. id ≡ id_told (plain_current current.now) };

    fn from(current: &Current<'m>) -> Option<Id>
        ensures { result ≡ id_told (plain_current current.now) }
    {
        current.id().copied()
    }
}

impl<'a, 'm> From<&'a Current<'m>> for Option<&'a Id> {
    ghost from_gives = { λ current id. option_copied id ≡ id_told (plain_current current.now) };

    fn from(current: &'a Current<'m>) -> Option<&'a Id>
        ensures { option_copied result ≡ id_told (plain_current current.now) }
    {
        current.id()
    }
}

impl<'m> From<&Current<'m>> for Option<&'m Metadata<'m>> {
    ghost from_gives = { λ current metadata. option_copied metadata ≡ current_metadata current.now };

    fn from(current: &Current<'m>) -> Option<&'m Metadata<'m>>
        ensures { option_copied result ≡ current_metadata current.now }
    {
        current.metadata()
    }
}
