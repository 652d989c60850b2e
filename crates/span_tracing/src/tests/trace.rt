//! Runs and calls of a trace over stacks of two outputs, with the replies and the bytes of their files.

mod refused;
mod roads;
mod running;
mod settings;
mod several;
mod stage;
