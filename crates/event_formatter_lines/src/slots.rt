//! What an output of a formatter keeps with spans: the texts of their fields, and how long they were busy and idle.

mod adding;
mod first_text;
mod laws;
mod new_span;
mod own_fields;
mod own_slots;
mod reading;
mod recorded;
mod settings_number;
mod timings;

pub use first_text::FirstText;
pub use laws::rekeeping_is_local;
pub use new_span::keep_new;
pub use reading::kept_text;
pub use recorded::add_record;
pub use timings::{TimingStep, step_timings};
