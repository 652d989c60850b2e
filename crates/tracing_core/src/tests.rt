//! The tests of the crates below.

mod fields;
mod hub;
mod requests;
mod values;
