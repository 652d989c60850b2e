//! Worker steps: lines from a queue to an appender.

mod laws;
mod step;
#[cfg(test)]
mod tests;

pub use laws::{
    batches_may_be_cut, first_lines_are_taken, steps_have_one_end, steps_may_be_cut,
    steps_may_change_places,
};
pub use step::{Batched, Written, batch};
