//! The builders of a layer's format.
ghost use Rattle.std.specs.Prelude.{◌≡◌, false, true};
ghost use Rattle.event_formatter_lines.specs.Json.{default_shape};
ghost use Rattle.event_formatter.specs.fmt_layer.Builders.{SameButFormat, SameButTimer, with_fields};

use crate::fmt_layer::layer::Layer;
use crate::formats::{Compact, Format, Json, Pretty};
use event_formatter_text::JsonFields;

impl<N: Drop, F: Drop, T: Drop, W: Drop> Layer<N, Format<F, T>, W> {
    /// With the time of this timer.
    pub fn with_timer<U: Drop>(self, timer: U) -> Layer<N, Format<F, U>, W>
        ensures timer { result.format.timer ≡ timer }
        ensures format { (result.format.shape ≡ self.format.shape) × (result.format.parts ≡ self.format.parts)
            × (result.format.ansi ≡ self.format.ansi) }
        ensures rest { SameButFormat self result }
    {
        self.map_event_format(|format| format.with_timer(timer))
    }

    /// Without a time. Spans that are made from now on have no timings.
    pub fn without_time(self) -> Layer<N, Format<F, ()>, W>
        ensures format { (result.format.shape ≡ self.format.shape)
            × (result.format.parts ≡ record self.format.parts { timestamp = false })
            × (result.format.ansi ≡ self.format.ansi) }
        ensures rest { SameButTimer self result }
    {
        let mut layer = self.map_event_format(|format| format.without_time());
        layer.config.has_timer = false;
        layer
    }

    /// In the compact format.
    pub fn compact(self) -> Layer<N, Format<Compact, T>, W>
        ensures format { (result.format.timer ≡ self.format.timer) × (result.format.parts ≡ self.format.parts)
            × (result.format.ansi ≡ self.format.ansi) }
        ensures rest { SameButFormat self result }
    {
        self.map_event_format(|format| format.compact())
    }

    /// In the pretty format, with the file and the line's number, and fields of spans as `name: value`.
    pub fn pretty(self) -> Layer<Pretty, Format<Pretty, T>, W>
        ensures shape { result.format.shape.display_location ≡ true }
        ensures format { (result.format.timer ≡ self.format.timer)
            × (result.format.parts ≡ record self.format.parts { file = true; line_number = true })
            × (result.format.ansi ≡ self.format.ansi) }
        ensures config { result.config ≡ with_fields result.config.fields self.config }
        ensures rest { (result.threads ≡ self.threads) × (result.output ≡ self.output) }
    {
        self.map_event_format(|format| format.pretty())
            .fmt_fields(Pretty::new())
    }

    /// In the JSON format, with fields of spans kept as JSON.
    pub fn json(self) -> Layer<JsonFields, Format<Json, T>, W>
        ensures shape { result.format.shape.shape ≡ default_shape }
        ensures format { (result.format.timer ≡ self.format.timer) × (result.format.parts ≡ self.format.parts)
            × (result.format.ansi ≡ self.format.ansi) }
        ensures config { result.config ≡ with_fields result.config.fields self.config }
        ensures rest { (result.threads ≡ self.threads) × (result.output ≡ self.output) }
    {
        self.map_event_format(|format| format.json())
            .fmt_fields(JsonFields)
    }

    /// Sets whether the target is shown.
    pub fn with_target(self, display_target: bool) -> Layer<N, Format<F, T>, W>
        ensures format { result.format ≡ record self.format { parts = record self.format.parts { target = display_target } } }
        ensures rest { SameButFormat self result }
    {
        self.map_event_format(|format| format.with_target(display_target))
    }

    /// Sets whether the level is shown.
    pub fn with_level(self, display_level: bool) -> Layer<N, Format<F, T>, W>
        ensures format { result.format ≡ record self.format { parts = record self.format.parts { level = display_level } } }
        ensures rest { SameButFormat self result }
    {
        self.map_event_format(|format| format.with_level(display_level))
    }

    /// Sets whether the numbers of threads are shown.
    pub fn with_thread_ids(self, display_thread_ids: bool) -> Layer<N, Format<F, T>, W>
        ensures format { result.format ≡ record self.format { parts = record self.format.parts { thread_ids = display_thread_ids } } }
        ensures rest { SameButFormat self result }
    {
        self.map_event_format(|format| format.with_thread_ids(display_thread_ids))
    }

    /// Sets whether the names of threads are shown.
    pub fn with_thread_names(self, display_thread_names: bool) -> Layer<N, Format<F, T>, W>
        ensures format { result.format ≡ record self.format { parts = record self.format.parts { thread_names = display_thread_names } } }
        ensures rest { SameButFormat self result }
    {
        self.map_event_format(|format| format.with_thread_names(display_thread_names))
    }

    /// Sets whether the source file is shown.
    pub fn with_file(self, display_file: bool) -> Layer<N, Format<F, T>, W>
        ensures format { result.format ≡ record self.format { parts = record self.format.parts { file = display_file } } }
        ensures rest { SameButFormat self result }
    {
        self.map_event_format(|format| format.with_file(display_file))
    }

    /// Sets whether the line in the source file is shown.
    pub fn with_line_number(self, display_line_number: bool) -> Layer<N, Format<F, T>, W>
        ensures format { result.format ≡ record self.format { parts = record self.format.parts { line_number = display_line_number } } }
        ensures rest { SameButFormat self result }
    {
        self.map_event_format(|format| format.with_line_number(display_line_number))
    }

    /// Sets whether the source file and the line in it are shown.
    pub fn with_source_location(self, display_location: bool) -> Layer<N, Format<F, T>, W>
        ensures format { result.format ≡ record self.format {
          parts = record self.format.parts {
            file = display_location;
            line_number = display_location;
          };
        } }
        ensures rest { SameButFormat self result }
    {
        self.map_event_format(|format| format.with_source_location(display_location))
    }
}

impl<N: Drop, T: Drop, W: Drop> Layer<N, Format<Json, T>, W> {
    /// Sets whether the event's fields stand among the members of the line.
    pub fn flatten_event(self, flatten_event: bool) -> Layer<N, Format<Json, T>, W>
        ensures format { result.format ≡ record self.format {
          shape = record self.format.shape {
            shape = record self.format.shape.shape { flatten_event = flatten_event };
          };
        } }
        ensures rest { SameButFormat self result }
    {
        self.map_event_format(|format| format.flatten_event(flatten_event))
    }

    /// Sets whether the innermost span is shown.
    pub fn with_current_span(self, display_current_span: bool) -> Layer<N, Format<Json, T>, W>
        ensures format { result.format ≡ record self.format {
          shape = record self.format.shape {
            shape = record self.format.shape.shape { current_span = display_current_span };
          };
        } }
        ensures rest { SameButFormat self result }
    {
        self.map_event_format(|format| format.with_current_span(display_current_span))
    }

    /// Sets whether the list of spans is shown.
    pub fn with_span_list(self, display_span_list: bool) -> Layer<N, Format<Json, T>, W>
        ensures format { result.format ≡ record self.format {
          shape = record self.format.shape {
            shape = record self.format.shape.shape { span_list = display_span_list };
          };
        } }
        ensures rest { SameButFormat self result }
    {
        self.map_event_format(|format| format.with_span_list(display_span_list))
    }
}
