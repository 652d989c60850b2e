//! Callers of the crates, one file for each way of use, to copy from. Each contract says what its caller gets; that of the service is
//! empty.
#![tactic(auto)]

pub mod boxed;
pub mod choice;
pub mod filter;
pub mod hub;
pub mod lanes;
pub mod layer;
pub mod program;
pub mod queue;
pub mod rolling;
pub mod service;
#[cfg(test)]
mod tests;
pub mod two_stacks;
pub mod visitor;
