//! How much of what is kept of a new span found memory.
ghost use Rattle.std.specs.Prelude.{◌≡◌};
ghost use Rattle.event_formatter_lines.specs.slots.FieldsAndTimings.{is_whole};

/// How much of what is kept of a new span found memory.
#[derive(Clone, Copy, Debug, PartialEq, Eq)]
pub enum FirstText {
    /// All of it, with the text of the span's first list of values.
    Whole,
    /// All but that text. The text that spans start with stands in its place.
    Started,
    /// Nothing, as the places in the span's list found none, or the text that spans start with.
    Nothing,
}

impl FirstText {
    /// Whether all that is kept of the span found memory.
    pub fn is_whole(self) -> bool
        ensures { result ≡ is_whole self }
    {
        matches!(self, FirstText::Whole)
    }
}
