//! Laws over the definitions.

ghost use Rattle.tracing_appender_queue.specs.worker.Batches.{FirstLines, MayBeCut};
ghost use Rattle.tracing_appender_queue.specs.worker.Steps.{FoldersMayBeCut, SinksMayBeCut, StepsHaveOneEnd};
ghost use Rattle.tracing_appender_queue.specs.worker.Workers.{StepsMayBeCut, StepsMayChangePlaces};

/// A step takes the first lines of a queue, or all before the mark.
pub fn first_lines_are_taken()
    ensures { FirstLines }
{}

/// A step may be cut in two at one moment: the same lines in the same order, the same queue, the same sink,
/// and, where nothing is refused, the same folder and counts.
pub fn batches_may_be_cut()
    // A step of `j + k` lines takes the lines of one of `j` and then those of one of `k`, and leaves the same queue.
    ensures lines { MayBeCut }
    // The lines of two steps at one moment are handed to a sink as those of one step.
    ensures sinks { SinksMayBeCut }
    // Where the second of two steps finds a folder that refuses nothing and takes each write whole, and writes each line whole, both
    // leave exactly what one step leaves.
    ensures folders { FoldersMayBeCut }
{}

/// What becomes of a step's lines, and what they leave, is settled by the state before it, under any plan of
/// refusals, while no memory is refused.
pub fn steps_have_one_end()
    ensures { StepsHaveOneEnd }
{}

/// A worker's step may be cut in as many steps at its moment as one likes, where the folder refuses nothing and the
/// lines are written whole. These leave exactly the queue and the sink that the one leaves, with its folder, and the
/// numbers of lines that they took add up.
pub fn steps_may_be_cut()
    ensures { StepsMayBeCut }
{}

/// Neighbouring steps of two workers, each with a queue and a sink of its own, may change places, each with its
/// own moment.
pub fn steps_may_change_places()
    ensures { StepsMayChangePlaces }
{}
