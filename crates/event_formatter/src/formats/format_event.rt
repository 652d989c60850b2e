//! What writes the line of an event.
ghost use Rattle.std.specs.Prelude.{◌≡◌, ℕ, List, Option, string_bytes};
ghost use Rattle.tracing_core_fields.specs.requests.PlainRequests.{PlainEvent, plain_event};
ghost use Rattle.event_formatter_text.specs.Lists.{Formats};
ghost use Rattle.event_formatter_text.specs.declared.settings.Settings.{Settings};
ghost use Rattle.event_formatter.specs.formats.Contexts.{PlainContext, plain_context};

use crate::formats::context::FmtContext;
use event_formatter_text::{FormatError, FormatFields, Settings};
use std::alloc::Global;
use tracing_core_fields::Event;

/// Writes the line of an event.
pub trait FormatEvent: Drop {
    // The line of an event, where it can be formatted.
    ghost line_of: { Self → Settings → PlainContext → PlainEvent → Option (List ℕ) };

    /// Appends the line of an event, with its end.
    ///
    /// The formatter may keep what makes the next line cheaper, but it goes on writing the same lines.
    ///
    /// # Errors
    ///
    /// A value that can't be formatted, or out of memory. What was appended before is to be dropped.
    fn format_event<N: FormatFields>(
        &mut self,
        alloc: Global,
        context: &FmtContext<'_, '_, N>,
        out: &mut String,
        settings: Settings,
        event: &Event<'_, '_>,
    ) -> Result<(), FormatError>
        ensures formatter { (s : Settings) (c : PlainContext) (e : PlainEvent) →
            line_of self.new s c e ≡ line_of self.old s c e }
        ensures text { Formats (line_of self.old settings (plain_context N.text_of context.now) (plain_event event.now))
            (string_bytes out.old) result (string_bytes out.new) };
}
