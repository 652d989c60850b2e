//! What a line shows of an event, and how.
ghost use Rattle.std.specs.Prelude.{◌≡◌, ℕ, ℤ, false, true, Some, None, length, string_bytes};
ghost use Rattle.tracing_core_fields.specs.requests.PlainRequests.{plain_event};
ghost use Rattle.event_formatter_text.specs.Lists.{Formats};
ghost use Rattle.event_formatter_lines.specs.Heads.{usual_head};
ghost use Rattle.event_formatter_lines.specs.Json.{default_shape, json_line};
ghost use Rattle.event_formatter.specs.formats.Contexts.{plain_context};
ghost use Rattle.event_formatter.specs.formats.Headings.{time_or_unknown};
ghost use Rattle.event_formatter.specs.formats.Lines.{line_in, with_styles};
ghost use Rattle.event_formatter.specs.formats.Parts.{default_parts};

use crate::formats::cold_path::out_of_memory;
use crate::formats::context::FmtContext;
use crate::formats::format_event::FormatEvent;
use crate::formats::full::push_usual;
use crate::formats::heading::{fill_id, fill_moment, fill_name, fill_time};
use crate::formats::line::{head_with, push_line, shown, with_styles};
use crate::formats::line_format::{Compact, EventShape, Full, Json, LineFormat, Pretty};
use crate::formats::parts::Parts;
use event_formatter_lines::{FormatTime, ShownSpans, SystemTime, push_json_line_in_span};
use event_formatter_text::{FormatError, FormatFields, Settings};
use std::alloc::Global;
use tracing_core_fields::Event;

/// Writes lines in a format: the full, the compact, the pretty or the JSON one, with the parts that are asked for.
///
/// For the compact, the pretty and the JSON format it keeps room for the texts of time and thread, so that no line needs memory for them
/// once there was one. A full line has them in the line itself.
#[derive(Drop)]
pub struct Format<F, T> {
    pub(crate) shape: F,
    pub(crate) timer: T,
    pub(crate) parts: Parts,
    pub(crate) ansi: Option<bool>,
    time: String,
    thread_name: String,
    thread_id: String,
}

impl Format<Full, SystemTime> {
    /// The full format with time, level and target.
    pub fn new(alloc: Global) -> Format<Full, SystemTime>
        ensures parts { result.parts ≡ default_parts }
        ensures ansi { result.ansi ≡ None }
    {
        Format {
            shape: Full,
            timer: SystemTime::new(),
            parts: Parts::default(),
            ansi: None,
            time: String::new(alloc),
            thread_name: String::new(alloc),
            thread_id: String::new(alloc),
        }
    }

    /// The same as [`Format::new`].
    pub fn default(alloc: Global) -> Format<Full, SystemTime>
        ensures parts { result.parts ≡ default_parts }
        ensures ansi { result.ansi ≡ None }
    {
        Format::new(alloc)
    }
}

impl<F: Drop, T: Drop> Format<F, T> {
    /// In the shape that this one says. The parts that are shown stay as they are: of the pretty format's place,
    /// [`with_source_location`](Format::with_source_location) asks for the file and the line.
    pub fn with_shape<G: Drop>(self, shape: G) -> Format<G, T>
        ensures shape { result.shape ≡ shape }
        ensures rest { (result.timer ≡ self.timer) × (result.parts ≡ self.parts) × (result.ansi ≡ self.ansi) }
    {
        let Format {
            timer,
            parts,
            ansi,
            time,
            thread_name,
            thread_id,
            ..
        } = self;
        Format {
            shape,
            timer,
            parts,
            ansi,
            time,
            thread_name,
            thread_id,
        }
    }

    /// In the compact format.
    pub fn compact(self) -> Format<Compact, T>
        ensures { (result.timer ≡ self.timer) × (result.parts ≡ self.parts) × (result.ansi ≡ self.ansi) }
    {
        self.with_shape(Compact)
    }

    /// In the pretty format, with the file and the line's number.
    pub fn pretty(self) -> Format<Pretty, T>
        ensures shape { result.shape.display_location ≡ true }
        ensures parts { result.parts ≡ record self.parts { file = true; line_number = true } }
        ensures rest { (result.timer ≡ self.timer) × (result.ansi ≡ self.ansi) }
    {
        self.with_source_location(true).with_shape(Pretty::new())
    }

    /// In the JSON format.
    pub fn json(self) -> Format<Json, T>
        ensures shape { result.shape.shape ≡ default_shape }
        ensures rest { (result.timer ≡ self.timer) × (result.parts ≡ self.parts) × (result.ansi ≡ self.ansi) }
    {
        self.with_shape(Json::new())
    }

    /// With the time of this timer. Whether a time is shown stays as it was.
    pub fn with_timer<U: Drop>(self, timer: U) -> Format<F, U>
        ensures timer { result.timer ≡ timer }
        ensures rest { (result.shape ≡ self.shape) × (result.parts ≡ self.parts) × (result.ansi ≡ self.ansi) }
    {
        let Format {
            shape,
            parts,
            ansi,
            time,
            thread_name,
            thread_id,
            ..
        } = self;
        Format {
            shape,
            timer,
            parts,
            ansi,
            time,
            thread_name,
            thread_id,
        }
    }

    /// Without a time and the space behind it.
    pub fn without_time(self) -> Format<F, ()>
        ensures parts { result.parts ≡ record self.parts { timestamp = false } }
        ensures rest { (result.shape ≡ self.shape) × (result.ansi ≡ self.ansi) }
    {
        let mut format = self.with_timer(());
        format.parts.timestamp = false;
        format
    }

    /// Sets whether lines have styles, whatever the settings of what they are written to say.
    pub fn with_ansi(mut self, ansi: bool) -> Format<F, T>
        ensures { result ≡ record self { ansi = Some ansi } }
    {
        self.ansi = Some(ansi);
        self
    }

    /// Sets whether the target is shown.
    pub fn with_target(mut self, display_target: bool) -> Format<F, T>
        ensures { result ≡ record self { parts = record self.parts { target = display_target } } }
    {
        self.parts.target = display_target;
        self
    }

    /// Sets whether the level is shown.
    pub fn with_level(mut self, display_level: bool) -> Format<F, T>
        ensures { result ≡ record self { parts = record self.parts { level = display_level } } }
    {
        self.parts.level = display_level;
        self
    }

    /// Sets whether the numbers of threads are shown.
    pub fn with_thread_ids(mut self, display_thread_ids: bool) -> Format<F, T>
        ensures { result ≡ record self { parts = record self.parts { thread_ids = display_thread_ids } } }
    {
        self.parts.thread_ids = display_thread_ids;
        self
    }

    /// Sets whether the names of threads are shown.
    pub fn with_thread_names(mut self, display_thread_names: bool) -> Format<F, T>
        ensures { result ≡ record self { parts = record self.parts { thread_names = display_thread_names } } }
    {
        self.parts.thread_names = display_thread_names;
        self
    }

    /// Sets whether the source file is shown.
    pub fn with_file(mut self, display_file: bool) -> Format<F, T>
        ensures { result ≡ record self { parts = record self.parts { file = display_file } } }
    {
        self.parts.file = display_file;
        self
    }

    /// Sets whether the line in the source file is shown.
    pub fn with_line_number(mut self, display_line_number: bool) -> Format<F, T>
        ensures { result ≡ record self { parts = record self.parts { line_number = display_line_number } } }
    {
        self.parts.line_number = display_line_number;
        self
    }

    /// Sets whether the source file and the line in it are shown.
    pub fn with_source_location(mut self, display_location: bool) -> Format<F, T>
        ensures { result ≡ record self {
          parts = record self.parts { file = display_location; line_number = display_location };
        } }
    {
        self.parts.file = display_location;
        self.parts.line_number = display_location;
        self
    }
}

impl<T: Drop> Format<Json, T> {
    /// Sets whether the event's fields stand among the members of the line.
    pub fn flatten_event(mut self, flatten_event: bool) -> Format<Json, T>
        ensures { result ≡ record self {
          shape = record self.shape { shape = record self.shape.shape { flatten_event = flatten_event } };
        } }
    {
        self.shape = self.shape.flatten_event(flatten_event);
        self
    }

    /// Sets whether the innermost span is shown.
    pub fn with_current_span(mut self, display_current_span: bool) -> Format<Json, T>
        ensures { result ≡ record self {
          shape = record self.shape { shape = record self.shape.shape { current_span = display_current_span } };
        } }
    {
        self.shape = self.shape.with_current_span(display_current_span);
        self
    }

    /// Sets whether the list of spans is shown.
    pub fn with_span_list(mut self, display_span_list: bool) -> Format<Json, T>
        ensures { result ≡ record self {
          shape = record self.shape { shape = record self.shape.shape { span_list = display_span_list } };
        } }
    {
        self.shape = self.shape.with_span_list(display_span_list);
        self
    }
}

impl<F: Drop, T: FormatTime + Drop> Format<F, T> {
    // Appends the line of an event in any format. It stands out of line, so that other lines need no room for what it needs.
    #[inline(never)]
    fn push_shaped<N: FormatFields>(
        &mut self,
        alloc: Global,
        context: &FmtContext<'_, '_, N>,
        out: &mut String,
        settings: Settings,
        shape: LineFormat,
        event: &Event<'_, '_>,
    ) -> Result<(), FormatError>
        ensures rest { (self.new.shape ≡ self.old.shape) × (self.new.parts ≡ self.old.parts) × (self.new.ansi ≡ self.old.ansi) }
        ensures timer { (s : ℤ) (n : ℕ) → T.text_at self.new.timer s n ≡ T.text_at self.old.timer s n }
        ensures text { let c = plain_context N.text_of context.now in
            Formats (line_in shape self.old.parts settings (T.text_at self.old.timer c.seconds c.nanoseconds) c
            (plain_event event.now)) (string_bytes out.old) result (string_bytes out.new) }
    {
        let (parts, thread) = (self.parts, context.thread());
        let has_time = fill_time(alloc, &mut self.time, parts, &mut self.timer, context.at())?;
        let has_name = fill_name(&mut self.thread_name, shape.is_padded(), parts, thread)?;
        let has_id = fill_id(&mut self.thread_id, shape.is_padded(), parts, thread)?;
        let head = head_with(
            parts,
            shown(has_time, self.time.as_str()),
            shown(has_name, self.thread_name.as_str()),
            shown(has_id, self.thread_id.as_str()),
            event.metadata(),
        );
        push_line(alloc, out, settings, shape, parts, &head, context, event)
    }

    // Appends the JSON line of an event in one span, with no other part than time, level and target.
    #[inline(never)]
    fn push_json_in_span<N: FormatFields>(
        &mut self,
        alloc: Global,
        context: &FmtContext<'_, '_, N>,
        out: &mut String,
        event: &Event<'_, '_>,
    ) -> Result<(), FormatError>
        requires { length context.now.ids.now ≡ 1 }
        ensures rest { (self.new.shape ≡ self.old.shape) × (self.new.parts ≡ self.old.parts) × (self.new.ansi ≡ self.old.ansi) }
        ensures timer { (s : ℤ) (n : ℕ) → T.text_at self.new.timer s n ≡ T.text_at self.old.timer s n }
        ensures text { let c = plain_context N.text_of context.now in let m = (plain_event event.now).metadata in
            let time = time_or_unknown (T.text_at self.old.timer c.seconds c.nanoseconds) in
            Formats (json_line default_shape (usual_head time m.level m.target) c.loose (plain_event event.now).values)
            (string_bytes out.old) result (string_bytes out.new) }
    {
        let Ok(()) = fill_moment(alloc, &mut self.time, &mut self.timer, context.at()) else {
            return Err(out_of_memory());
        };
        let metadata = event.metadata();
        let spans = context.loose_spans();
        let span = spans.span(0);
        push_json_line_in_span(
            out,
            self.time.as_str(),
            *metadata.level(),
            metadata.target(),
            &span,
            event,
        )
    }

    // Appends the line of an event in any format. It lends a copy of the context, so that usual full lines, which share the caller's, read
    // it from registers.
    #[inline(always)]
    fn push_out_of_line<N: FormatFields>(
        &mut self,
        alloc: Global,
        context: &FmtContext<'_, '_, N>,
        out: &mut String,
        settings: Settings,
        shape: LineFormat,
        event: &Event<'_, '_>,
    ) -> Result<(), FormatError>
        ensures rest { (self.new.shape ≡ self.old.shape) × (self.new.parts ≡ self.old.parts) × (self.new.ansi ≡ self.old.ansi) }
        ensures timer { (s : ℤ) (n : ℕ) → T.text_at self.new.timer s n ≡ T.text_at self.old.timer s n }
        ensures text { let c = plain_context N.text_of context.now in
            Formats (line_in shape self.old.parts settings (T.text_at self.old.timer c.seconds c.nanoseconds) c
            (plain_event event.now)) (string_bytes out.old) result (string_bytes out.new) }
    {
        let copied = context.copied();
        if self.parts.are_default()
            && shape.is_default_json()
            && copied.loose_spans().count() == 1
        {
            return self.push_json_in_span(alloc, &copied, out, event);
        }
        self.push_shaped(alloc, &copied, out, settings, shape, event)
    }
}

impl<F: EventShape, T: FormatTime + Drop> FormatEvent for Format<F, T> {
    ghost line_of = { λ format settings c e. line_in (F.shape format.shape) format.parts
        (with_styles format.ansi settings) (T.text_at format.timer c.seconds c.nanoseconds) c e };

    #[inline(always)]
    fn format_event<N: FormatFields>(
        &mut self,
        alloc: Global,
        context: &FmtContext<'_, '_, N>,
        out: &mut String,
        settings: Settings,
        event: &Event<'_, '_>,
    ) -> Result<(), FormatError> {
        let settings = with_styles(self.ansi, settings);
        let shape = self.shape.line_format();
        if shape.is_full() && self.parts.are_default() && !settings.styles {
            return push_usual(alloc, out, settings, &mut self.timer, context, event);
        }
        self.push_out_of_line(alloc, context, out, settings, shape, event)
    }
}
