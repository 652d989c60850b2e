//! Lines in each format, the times in them, and what an output keeps with spans for them.
#![tactic(auto)]

mod compact;
mod fields;
mod fmt_span;
mod full;
mod head;
mod json;
mod laws;
mod place;
mod pretty;
mod shown;
mod slots;
mod times;

pub use compact::{push_compact_head, push_compact_line};
pub use fmt_span::FmtSpan;
pub use full::{push_full_head, push_full_line, push_place, push_spans, push_target};
pub use head::{Head, push_level};
pub use json::{JsonShape, push_json_line, push_json_line_in_span};
pub use laws::{
    json_fields_keep_objects, json_lines_end_once, lines_are_harmless, lines_are_json,
    moments_of_constants, spans_extend_objects,
};
pub use place::{Place, Thread};
pub use pretty::push_pretty_line;
pub use shown::{ShownSpan, ShownSpans};
pub use slots::{
    FirstText, TimingStep, add_record, keep_new, kept_text, rekeeping_is_local, step_timings,
};
pub use times::{
    DateTime, FixedText, FormatTime, SystemTime, Uptime, push_duration, push_thread_id,
    push_thread_name, timings_after_close, timings_after_enter, timings_after_exit,
    timings_at_start,
};
