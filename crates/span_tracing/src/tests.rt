//! The tests of the crates below; one output, several stacks, folders that refuse, queues, and random runs over stacks of four outputs
//! beside slow models of them.

mod common;
mod copies;
mod faulty;
mod files;
mod holders;
mod live;
mod masks;
mod model;
mod outputs;
mod queue_script;
mod queues;
mod random;
mod refused_calls;
mod shared;
mod single;
mod sinks;
mod steps;
mod surface;
mod sweeps;
mod threads;
mod trace;
mod turns;
