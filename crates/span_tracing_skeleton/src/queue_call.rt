//! What is done to the queue of a sink.

use tracing_core_moments::Moment;

/// What is done to the queue of a sink.
#[derive(Clone, Copy, Debug, PartialEq, Eq)]
pub enum QueueCall {
    /// A step of a worker: the first so many queued lines, or all before the mark, go to the files at the moment.
    Work(usize, Moment),
    /// The first held line is offered to the queue.
    Admit,
    /// The mark that closes the queue is put behind the lines that are queued now.
    Shutdown,
}

/// A call on the queue of a sink.
#[derive(Clone, Copy, Debug, PartialEq, Eq)]
pub struct SinkCall {
    /// The number of the sink. Sinks are numbered from 0 through all stacks and their outputs, in order.
    pub sink: usize,
    /// What is done to its queue.
    pub call: QueueCall,
}
