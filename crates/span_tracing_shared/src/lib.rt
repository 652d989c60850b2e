//! A trace that lanes share: a journal of its steps, a seat for each lane, and a lock around both.
#![tactic(auto)]

mod book;
mod call;
mod carries_out;
mod closes;
mod entry;
mod laws;
mod mask;
mod seat;
mod shared;
#[cfg(test)]
mod tests;

pub use book::{Book, Closed, NotOpened};
pub use call::Call;
pub use carries_out::CarriesOut;
pub use entry::Entry;
pub use laws::{journals_compose, left_out_make_no_difference, replies_count};
pub use mask::Mask;
pub use seat::{Seat, SeatError};
pub use shared::{Gate, Open, Shared, SharedNotOpened, Torn, fits, is_of_lane};
