//! The spans that a line shows.
ghost use Rattle.std.specs.Prelude.{◌≡◌, ◌<◌, ◌++◌, ℕ, List, OnOk, length, string_bytes};
ghost use Rattle.event_formatter_lines.specs.Shown.{PlainShown, name_in_chain, plain_shown, span_at};

use event_formatter_text::{Settings, push_bold};
use std::alloc::AllocError;

/// A span that a line shows.
#[derive(Clone, Copy, Debug)]
pub struct ShownSpan<'a> {
    /// Its name.
    pub name: &'a str,
    /// Its target.
    pub target: &'a str,
    /// The text that is kept of its fields.
    pub text: &'a str,
}

/// The spans that a line shows, from the root on.
///
/// A line is written from these two calls alone, so that a layer can lend what it keeps with its spans, and nothing is copied.
/// What a line may show of a span stands in [`ShownSpan`] and nowhere else.
pub trait ShownSpans {
    // The spans, from the root on.
    ghost spans: { Self → List PlainShown };

    /// How many spans there are.
    fn count(&self) -> usize
        ensures { result ≡ length (spans self.now) };

    /// The span at the index.
    fn span(&self, index: usize) -> ShownSpan<'_>
        requires { index < length (spans self.now) }
        ensures { plain_shown result ≡ span_at (spans self.now) index };
}

/// Appends a span's name as it stands in a chain of spans.
#[inline(always)]
pub(crate) fn push_name_in_chain(
    out: &mut String,
    settings: Settings,
    span: &ShownSpan<'_>,
) -> Result<(), AllocError>
    ensures { OnOk result (string_bytes out.new ≡ string_bytes out.old
        ++ name_in_chain settings (plain_shown span.now)) }
{
    push_bold(out, settings, span.name)
}
