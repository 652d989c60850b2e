//! The layer that writes lines of events to a maker of writers, and the formats that it may have.
#![tactic(auto)]

mod fmt_layer;
mod formats;
mod shorthands;

pub use event_formatter_lines::{
    DateTime, FirstText, FixedText, FmtSpan, FormatTime, Head, JsonShape, Place, ShownSpan,
    ShownSpans, SystemTime, Thread, TimingStep, Uptime, add_record, json_fields_keep_objects,
    json_lines_end_once, keep_new, kept_text, lines_are_harmless, lines_are_json,
    moments_of_constants, push_compact_line, push_duration, push_full_line, push_json_line,
    push_pretty_line, rekeeping_is_local, spans_extend_objects, step_timings,
};
pub use event_formatter_text::{
    Alt, BadRoute, BoxMakeWriter, ClosureWriter, DefaultFields, DefaultVisitor, Delimited,
    EitherWriter, FieldClosure, FieldFn, FieldFnVisitor, FormatError, FormatFields,
    FormattedFields, JsonFields, JsonVisitor, LineTaker, MakeExt, MakeOutput, MakeVisitor,
    MakeWriter, MakeWriterExt, Messages, MetadataTest, OptionalWriter, OrElse, PrettyFields,
    PrettyVisitor, RecordFields, Route, Settings, Tee, VisitDelimited, VisitFmt, VisitOutput,
    VisitWrite, WithFilter, WithMaxLevel, WithMinLevel, WriteField, WritePiece, Writer, debug_fn,
    fields_are_harmless, lists_of_strings_are_json, messages_and_errors_are_harmless,
    objects_keep_last_values, sanitized_texts_are_harmless,
};
pub use fmt_layer::Layer;
pub use formats::{
    Compact, CurrentThread, EventShape, Fields, FmtContext, Format, FormatEvent, Full, Json,
    LineFormat, Parts, Pretty, ScopedSpans, Timer, fill_scope, ids_lead_back,
};
pub use shorthands::{format, json, layer, time, uptime};

#[cfg(test)]
mod tests;
