//! The formatter of fields as JSON.
ghost use Rattle.std.specs.Prelude.{codes};
ghost use Rattle.event_formatter_text.specs.Members.{values_object, with_members};
ghost use Rattle.event_formatter_text.specs.SpanFields.{no_fields};

use crate::error::FormatError;
use crate::format_fields::FormatFields;
use crate::formatted_fields::FormattedFields;
use crate::json_object::push_object;
use crate::members::{members_in, with_fields, words_in};
use crate::record_fields::RecordFields;
use crate::settings::Settings;
use crate::writer::Writer;
use std::alloc::{AllocError, Global};

/// Writes fields as one JSON object: the last value of each key, in byte order of the keys. Numbers of at most 64 bits
/// and bools stand as they are, also where they come as debug values, bytes as an array of numbers, all else as strings.
/// Nothing is sanitized, and there are no styles: JSON's own escapes are all.
#[derive(Clone, Copy, Debug, Default, PartialEq, Eq)]
pub struct JsonFields;

impl JsonFields {
    /// The formatter.
    pub fn new() -> JsonFields {
        JsonFields
    }
}

impl FormatFields for JsonFields {
    ghost text_of = { λ _ settings values. values_object values };

    ghost started = { λ _ settings. record (no_fields settings) { text = codes "{}" } };

    ghost added = { λ _ fields values. with_members values fields };

    #[tactic(auto, using(crate::proofs::GivenMembers::object_written, crate::proofs::GivenMembers::object_refused))]
    fn format_fields<R: RecordFields>(
        &self,
        alloc: Global,
        writer: &mut Writer<'_>,
        fields: &R,
    ) -> Result<(), FormatError> {
        let members = with_fields(alloc, Vec::new(alloc), fields)?;
        push_object(writer.out, members.as_slice())?;
        Ok(())
    }

    fn start(&self, alloc: Global, settings: Settings) -> Result<FormattedFields, AllocError> {
        let text = String::from_str(alloc, "{}")?;
        Ok(FormattedFields::from_parts(text, Vec::new(alloc), settings))
    }

    #[tactic(auto, using(crate::proofs::GivenMembers::members_added, crate::proofs::GivenMembers::members_refused))]
    fn add_fields<R: RecordFields>(
        &self,
        alloc: Global,
        current: &mut FormattedFields,
        fields: &R,
    ) -> Result<(), FormatError> {
        let kept = members_in(alloc, current.words.as_slice())?;
        let members = with_fields(alloc, kept, fields)?;
        let mut text = String::new(alloc);
        push_object(&mut text, members.as_slice())?;
        let words = words_in(alloc, members)?;
        current.text = text;
        current.words = words;
        Ok(())
    }
}
