//! Times in lines: moments, the time since a start, and how long a span was busy and idle.

mod date_time;
mod digits;
mod duration;
mod system_time;
mod thread;
mod timer;
mod timings;
mod uptime;

pub use date_time::DateTime;
pub use duration::push_duration;
pub use system_time::SystemTime;
pub use thread::{push_thread_id, push_thread_name};
pub use timer::{FixedText, FormatTime};
pub use timings::{timings_after_close, timings_after_enter, timings_after_exit, timings_at_start};
pub use uptime::Uptime;
