//! Queues of sinks, step by step.
ghost use Rattle.span_tracing.specs.Ready.{IsStep};
ghost use Rattle.span_tracing_skeleton.specs.PlainData.{OfQueue};
ghost use Rattle.span_tracing_skeleton.specs.declared.queue_call.QueueCall.TheVariants.{Admit, Shutdown, Work};

use crate::trace::Trace;
use event_formatter::{FormatEvent, Layer};
use event_formatter_text::FormatFields;
use span_registry_layers_layers::Filter;
use span_tracing_laws::steps_follow;
use span_tracing_outputs::{AnySink, PendingLines, RoutedSinks, TraceStack};
use span_tracing_skeleton::{QueueCall, Reply};
use tracing_appender::LiveQueue;
use tracing_appender_rolling::Folder;
use tracing_core_fields::Subscriber;
use tracing_core_moments::Moment;

impl<N: FormatFields + Drop, E: FormatEvent, F: Filter, D: Folder, Q: LiveQueue> Trace<
    TraceStack<N, E, F, RoutedSinks<AnySink<D, Q>>>,
> {
    /// A step of a worker: the first so many lines of a sink's queue, or all before its mark, go to the sink's files at the moment, and a
    /// mark that then stands first closes the queue. It answers how many lines it took. Sinks are numbered from 0 through all stacks and
    /// their outputs, in order; a stack may have been released, but not taken.
    ///
    /// Refused where there is no such sink (`UnknownSink`), where it has no queue (`NotQueued`), and at a moment out of range
    /// (`BadMoment`).
    pub fn work(&mut self, sink: usize, lines: usize, moment: Moment) -> Reply
        ensures { IsStep D.contents D.failed Q.settles ⟦<TraceStack<N, E, F, RoutedSinks<AnySink<D, Q>>> as Subscriber>⟧
            ⟦<N as FormatFields>⟧ E.line_of ⟦<F as Filter>⟧ ⟦<Layer<N, E, PendingLines> as span_registry_layers_layers::Layer>⟧ self.old
            (OfQueue (record { sink = sink; call = Work lines moment })) result self.new }
    {
        steps_follow::<N, E, F, D, Q>();
        self.parts.drive(sink, QueueCall::Work(lines, moment))
    }

    /// Offers the first line that is held beside a sink's queue to the queue. Sinks are numbered as by [`work`](Trace::work).
    ///
    /// Refused where there is no such sink (`UnknownSink`), where it has no queue (`NotQueued`), where no line is held (`NothingHeld`),
    /// where the queue is closed (`Closed`; the line is given up then), where it has no room (`NoRoom`), and where there is no memory.
    pub fn admit(&mut self, sink: usize) -> Reply
        ensures { IsStep D.contents D.failed Q.settles ⟦<TraceStack<N, E, F, RoutedSinks<AnySink<D, Q>>> as Subscriber>⟧
            ⟦<N as FormatFields>⟧ E.line_of ⟦<F as Filter>⟧ ⟦<Layer<N, E, PendingLines> as span_registry_layers_layers::Layer>⟧ self.old
            (OfQueue (record { sink = sink; call = Admit })) result self.new }
    {
        steps_follow::<N, E, F, D, Q>();
        self.parts.drive(sink, QueueCall::Admit)
    }

    /// Puts the mark behind the lines that wait in a sink's queue. The queue closes when a step of a worker takes the mark, and what stands
    /// behind it then is left for good. Sinks are numbered as by [`work`](Trace::work). It takes no memory.
    ///
    /// Refused where there is no such sink (`UnknownSink`), where it has no queue (`NotQueued`), where the mark was put before
    /// (`MarkSent`), and where the queue has no room for it (`NoRoom`).
    pub fn shutdown(&mut self, sink: usize) -> Reply
        ensures { IsStep D.contents D.failed Q.settles ⟦<TraceStack<N, E, F, RoutedSinks<AnySink<D, Q>>> as Subscriber>⟧
            ⟦<N as FormatFields>⟧ E.line_of ⟦<F as Filter>⟧ ⟦<Layer<N, E, PendingLines> as span_registry_layers_layers::Layer>⟧ self.old
            (OfQueue (record { sink = sink; call = Shutdown })) result self.new }
    {
        steps_follow::<N, E, F, D, Q>();
        self.parts.drive(sink, QueueCall::Shutdown)
    }
}
