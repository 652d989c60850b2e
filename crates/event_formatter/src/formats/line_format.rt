//! The formats, by what stands where in a line.
ghost use Rattle.std.specs.Prelude.{◌≡◌, IsTrue, true};
ghost use Rattle.event_formatter_lines.specs.Json.{default_shape};
ghost use Rattle.event_formatter.specs.formats.Lines.{is_padded};
ghost use Rattle.event_formatter.specs.declared.formats.line_format.LineFormat.{LineFormat};
ghost use Rattle.event_formatter.specs.declared.formats.line_format.LineFormat.TheVariants as format;

use event_formatter_lines::JsonShape;

/// The spans from the root with their fields, and then the event, in one line.
#[derive(Clone, Copy, Debug, Default, Drop, PartialEq, Eq)]
pub struct Full;

/// The names of the spans, the event, and then the fields of the spans, in one line.
#[derive(Clone, Copy, Debug, Default, Drop, PartialEq, Eq)]
pub struct Compact;

/// Several lines for an event: the event, its place in the source, and a line for each span. It has no styles.
#[derive(Clone, Copy, Debug, Drop, PartialEq, Eq)]
pub struct Pretty {
    pub(crate) display_location: bool,
}

impl Pretty {
    /// With the place in the source.
    pub fn new() -> Pretty
        ensures { result.display_location ≡ true }
    {
        Pretty {
            display_location: true,
        }
    }

    /// Sets whether the place in the source is shown.
    pub fn with_source_location(self, display_location: bool) -> Pretty
        ensures { result.display_location ≡ display_location }
    {
        Pretty { display_location }
    }
}

impl Default for Pretty {
    ghost is_default = { λ p. p.display_location ≡ true };

    fn default() -> Pretty {
        Pretty::new()
    }
}

/// One JSON object for an event. It has no styles, and nothing is sanitized but by JSON's own escapes.
#[derive(Clone, Copy, Debug, Drop, PartialEq, Eq)]
pub struct Json {
    pub(crate) shape: JsonShape,
}

impl Json {
    /// With the event's fields in an object of their own, the innermost span, and the list of spans.
    pub fn new() -> Json
        ensures { result.shape ≡ default_shape }
    {
        Json {
            shape: JsonShape::default(),
        }
    }

    /// Sets whether the event's fields stand among the members of the line.
    pub fn flatten_event(self, flatten_event: bool) -> Json
        ensures { result.shape ≡ record self.shape { flatten_event = flatten_event } }
    {
        Json {
            shape: JsonShape {
                flatten_event,
                ..self.shape
            },
        }
    }

    /// Sets whether the innermost span is shown.
    pub fn with_current_span(self, display_current_span: bool) -> Json
        ensures { result.shape ≡ record self.shape { current_span = display_current_span } }
    {
        Json {
            shape: JsonShape {
                current_span: display_current_span,
                ..self.shape
            },
        }
    }

    /// Sets whether the list of spans is shown.
    pub fn with_span_list(self, display_span_list: bool) -> Json
        ensures { result.shape ≡ record self.shape { span_list = display_span_list } }
    {
        Json {
            shape: JsonShape {
                span_list: display_span_list,
                ..self.shape
            },
        }
    }
}

impl Default for Json {
    ghost is_default = { λ json. json.shape ≡ default_shape };

    fn default() -> Json {
        Json::new()
    }
}

/// One of the formats.
#[derive(Clone, Copy, Debug, Drop, PartialEq, Eq)]
pub enum LineFormat {
    /// See [`Full`].
    Full,
    /// See [`Compact`].
    Compact,
    /// See [`Pretty`].
    Pretty(Pretty),
    /// See [`Json`].
    Json(Json),
}

impl LineFormat {
    // Whether the texts of a thread are brought to a common width.
    pub(crate) fn is_padded(self) -> bool
        ensures { result ≡ is_padded self }
    {
        match self {
            LineFormat::Full | LineFormat::Compact => true,
            LineFormat::Pretty(_) | LineFormat::Json(_) => false,
        }
    }

    // Whether it is the full format.
    pub(crate) fn is_full(self) -> bool
        ensures { IsTrue result → self ≡ format.Full }
    {
        matches!(self, LineFormat::Full)
    }

    // Whether it is JSON in the default shape.
    pub(crate) fn is_default_json(self) -> bool
        ensures { IsTrue result → self ≡ format.Json (record { shape = default_shape }) }
    {
        let LineFormat::Json(json) = self else {
            return false;
        };
        !json.shape.flatten_event && json.shape.current_span && json.shape.span_list
    }
}

/// What says in which format a line is written.
pub trait EventShape: Drop {
    // The format.
    ghost shape: { Self → LineFormat };

    /// The format of lines in this shape.
    fn line_format(&self) -> LineFormat
        ensures { result ≡ shape self.now };
}

impl EventShape for Full {
    ghost shape = { λ _. format.Full };

    fn line_format(&self) -> LineFormat {
        LineFormat::Full
    }
}

impl EventShape for Compact {
    ghost shape = { λ _. format.Compact };

    fn line_format(&self) -> LineFormat {
        LineFormat::Compact
    }
}

impl EventShape for Pretty {
    ghost shape = { λ p. format.Pretty p };

    fn line_format(&self) -> LineFormat {
        LineFormat::Pretty(*self)
    }
}

impl EventShape for Json {
    ghost shape = { λ json. format.Json json };

    fn line_format(&self) -> LineFormat {
        LineFormat::Json(*self)
    }
}

impl EventShape for LineFormat {
    ghost shape = { λ format. format };

    fn line_format(&self) -> LineFormat {
        *self
    }
}
