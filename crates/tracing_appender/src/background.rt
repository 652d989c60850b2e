//! A writer that a worker thread writes to, behind a queue.

mod builder;
mod channel;
mod counter;
mod guard;
mod handover;
mod live;
mod maker;
mod output;
mod sender;
mod worker;

pub use builder::{
    DEFAULT_BUFFERED_LINES_LIMIT, NonBlockingBuilder, StartError, StartRefusal, non_blocking,
};
#[cfg(test)]
pub(crate) use channel::Channel;
pub use counter::ErrorCounter;
pub use guard::WorkerGuard;
pub use live::{LiveQueue, NoLive, RecordedQueue};
pub use sender::NonBlocking;
