//! Callsites that a hub can be told of.

mod default;

pub use default::DefaultCallsite;
