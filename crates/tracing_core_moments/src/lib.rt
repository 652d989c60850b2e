//! Moments, periods of time, dates, the names of log files, and `At`, the lane and moment of a request.
#![tactic(auto)]

mod at;
mod date;
mod laws;
mod moment;
mod name;
mod named;
mod period;
mod read;

pub use at::At;
pub use date::{date_text, stamp_text};
pub use laws::{dates_count_days, names_rise, periods_differ, worked_dates, worked_names};
pub use moment::{BadMoment, Moment};
pub use name::name_text;
pub use named::second_named;
pub use period::PeriodKind;
pub use read::{read_name, read_stamp};

#[cfg(test)]
mod tests;
