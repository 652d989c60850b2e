//! Formats of lines: which parts of an event a line shows, and in which order.

pub(crate) mod cold_path;
mod context;
mod fields;
mod format;
mod format_event;
mod full;
mod heading;
mod laws;
mod line;
mod line_format;
mod parts;
mod pretty;
mod scope;
mod timer;

pub use context::{CurrentThread, FmtContext};
pub use fields::Fields;
pub use format::Format;
pub use format_event::FormatEvent;
pub use laws::ids_lead_back;
pub use line_format::{Compact, EventShape, Full, Json, LineFormat, Pretty};
pub use parts::Parts;
pub use scope::{ScopedSpans, fill_scope};
pub use timer::Timer;
