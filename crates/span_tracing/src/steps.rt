//! Steps of a trace, one at a time and in runs.
ghost use Rattle.std.specs.Prelude.{◌≡◌, IfOk, OnErr};
ghost use Rattle.tracing_core_fields.specs.IndexedEntries.{lent_entries};
ghost use Rattle.span_tracing.specs.SpanMoments.{moments_of};
ghost use Rattle.span_tracing.specs.Ready.{FileRunGives, IsStep, RunsReady};
ghost use Rattle.span_tracing.specs.Roads.{road_of};
ghost use Rattle.span_tracing_skeleton.specs.PlainData.{CloneHandleStep, CloneStep, CloseStep, DefaultStep, EnabledStep, EnterStep};
ghost use Rattle.span_tracing_skeleton.specs.PlainData.{EventStep, ExitStep, FollowsFromStep, GlobalStep, RecordStep, ReleaseStep};
ghost use Rattle.span_tracing_skeleton.specs.PlainData.{OfTrace, ResetStep, SetStep, SpanStep, any_step, any_steps};
ghost use Rattle.span_tracing_skeleton.specs.declared.setting.Setting.TheVariants.{Ansi, SpanEvents};
ghost use Rattle.span_tracing_steps.specs.Runs.{Asking, Caching, RunGives, StepBy};
ghost use Rattle.span_tracing_steps.specs.AnySteps.{ActGives, AnyStepGives, holds_in, must_wait};

use crate::trace::Trace;
use event_formatter::{FormatEvent, Layer};
use event_formatter_lines::FmtSpan;
use event_formatter_text::FormatFields;
use span_registry_layers_layers::Filter;
use span_tracing_laws::{files_follow, runs_follow, steps_follow};
use span_tracing_outputs::{AnySink, PendingLines, RoutedSinks, TraceStack};
use span_tracing_skeleton::{
    DefaultCall, EnabledCall, FollowsCall, HasOutputs, HasRegistry, HasSinks, Parent, Refusal,
    Reply, ResetCall, Setting, SettingCall, SpanCall, SpanMoments, SpanName, Step,
};
use span_tracing_steps::{RecordRequest, Request};
use std::alloc::AllocError;
use tracing_appender::LiveQueue;
use tracing_appender_rolling::Folder;
use tracing_core_fields::{Identifier, IndexedValues, LentValue, Subscriber};
use tracing_core_moments::Moment;

// The same set, as a step has it.
fn moments_of(events: FmtSpan) -> SpanMoments
    ensures { result ≡ moments_of events }
{
    SpanMoments {
        new: events.contains(FmtSpan::NEW),
        enter: events.contains(FmtSpan::ENTER),
        exit: events.contains(FmtSpan::EXIT),
        close: events.contains(FmtSpan::CLOSE),
    }
}

impl<T: Subscriber + HasRegistry + HasOutputs + HasSinks> Trace<T> {
    /// Whether a line is held beside the queue of a sink. Each step but those on queues is refused then (`Busy`), and changes nothing. A
    /// stack that was taken doesn't count.
    pub fn is_busy(&self) -> bool
        ensures { result ≡ holds_in T.holds self.now }
    {
        self.parts.is_busy()
    }

    // Whether a step has to wait until no line is held.
    fn must_wait(&self, step: &Step) -> bool
        ensures { result ≡ must_wait (holds_in T.holds self.now) (any_step step.now) }
    {
        match step {
            Step::Queue(_) => false,
            _ => self.is_busy(),
        }
    }

    // A step that doesn't have to wait, as its parts take it.
    pub(crate) fn act(&mut self, step: &Step) -> Reply
        ensures { ActGives ⟦<T as Subscriber>⟧ T.registry_of T.set T.drives self.old (any_step step.now) result self.new }
    {
        match step {
            Step::SetGlobalDefault(handle) => self.parts.set_global_default(*handle),
            Step::Event(event) => self.parts.event(&Request {
                lane: event.lane,
                moment: event.moment,
                callsite: event.callsite.0,
                parent: event.parent,
                values: IndexedValues::Owned(event.values.as_slice()),
            }),
            Step::Enabled(call) => self.parts.enabled(call),
            Step::NewSpan(span) => self.parts.new_span(&Request {
                lane: span.lane,
                moment: span.moment,
                callsite: span.callsite.0,
                parent: span.parent,
                values: IndexedValues::Owned(span.values.as_slice()),
            }),
            Step::Record(record) => self.parts.record(&RecordRequest {
                lane: record.lane,
                moment: record.moment,
                span: record.span,
                values: IndexedValues::Owned(record.values.as_slice()),
            }),
            Step::RecordFollowsFrom(call) => self.parts.record_follows_from(call),
            Step::Enter(call) => self.parts.enter(call),
            Step::Exit(call) => self.parts.exit(call),
            Step::CloneSpan(call) => self.parts.clone_span(call),
            Step::TryClose(call) => self.parts.try_close(call),
            Step::SetDefault(call) => self.parts.set_default(call),
            Step::ResetDefault(call) => self.parts.reset_default(call),
            Step::CloneHandle(handle) => self.parts.clone_handle(*handle),
            Step::Release(handle) => self.parts.release(*handle),
            Step::Set(call) => self.parts.set(call),
            Step::Queue(ask) => self.parts.drive(ask.sink, ask.call),
        }
    }

    // A step, as its parts take it.
    fn act_or_wait(&mut self, step: &Step) -> Reply
        ensures { AnyStepGives ⟦<T as Subscriber>⟧ T.registry_of T.set T.drives T.holds self.old (any_step step.now) result self.new }
    {
        if self.must_wait(step) {
            return Reply::Refused(Refusal::Busy);
        }
        self.act(step)
    }

    // A step; before it the trace asks anew, where that is wanted.
    fn act_by(&mut self, asks: bool, next: &Step) -> Reply
        ensures { StepBy ⟦<T as Subscriber>⟧ T.registry_of T.set T.drives T.holds (road_of asks) self.old (any_step next.now) result
            self.new }
    {
        if asks {
            self.parts.rebuild_interest_cache();
        }
        self.act_or_wait(next)
    }

    // Steps in order.
    fn run_all(&mut self, asks: bool, steps: &[Step]) -> Result<Vec<Reply>, AllocError>
        ensures run { IfOk result
            (λ replies. RunGives ⟦<T as Subscriber>⟧ T.registry_of T.set T.drives T.holds (road_of asks) self.old (any_steps steps.now)
            replies.items self.new) }
        ensures err { OnErr result (self.new ≡ self.old) }
    {
        let mut replies = Vec::with_capacity(self.parts.alloc(), steps.len())?;
        for step in steps {
            replies.push_reserved(self.act_by(asks, step));
        }
        Ok(replies)
    }
}

impl<N: FormatFields + Drop, E: FormatEvent, F: Filter, D: Folder, Q: LiveQueue> Trace<
    TraceStack<N, E, F, RoutedSinks<AnySink<D, Q>>>,
> {
    /// Makes the stack with this handle the one that lanes reach which have no default of their own. It holds the stack from then on, and
    /// is set once: refused where it was set (`GlobalSet`), and for a handle that isn't there or is spent. Takes no memory.
    pub fn set_global_default(&mut self, handle: usize) -> Reply
        ensures { IsStep D.contents D.failed Q.settles ⟦<TraceStack<N, E, F, RoutedSinks<AnySink<D, Q>>> as Subscriber>⟧
            ⟦<N as FormatFields>⟧ E.line_of ⟦<F as Filter>⟧ ⟦<Layer<N, E, PendingLines> as span_registry_layers_layers::Layer>⟧ self.old
            (OfTrace (GlobalStep handle)) result self.new }
    {
        self.step(&Step::SetGlobalDefault(handle))
    }

    /// Gives a lane a default of its own: the stack with this handle, which the lane holds from then on, or none, so that it reaches
    /// nothing. Answers the number of a guard that keeps the default before. Refused for a lane or a handle that isn't there, a spent
    /// handle, and where the stack has too many holders or there is no memory for the guard.
    pub fn set_default(&mut self, lane: usize, handle: Option<usize>) -> Reply
        ensures { IsStep D.contents D.failed Q.settles ⟦<TraceStack<N, E, F, RoutedSinks<AnySink<D, Q>>> as Subscriber>⟧
            ⟦<N as FormatFields>⟧ E.line_of ⟦<F as Filter>⟧ ⟦<Layer<N, E, PendingLines> as span_registry_layers_layers::Layer>⟧ self.old
            (OfTrace (DefaultStep (record { lane = lane; handle = handle }))) result self.new }
    {
        self.step(&Step::SetDefault(DefaultCall { lane, handle }))
    }

    /// Gives a lane the default back that the guard with this number keeps, and spends the guard. Guards may be spent in any order. What
    /// the lane had holds its stack no more; where nobody else does, the stack is released. Refused for a lane that isn't there, and for a
    /// guard that is spent or isn't this lane's (`WrongLane`). Takes no memory.
    pub fn reset_default(&mut self, lane: usize, guard: usize) -> Reply
        ensures { IsStep D.contents D.failed Q.settles ⟦<TraceStack<N, E, F, RoutedSinks<AnySink<D, Q>>> as Subscriber>⟧
            ⟦<N as FormatFields>⟧ E.line_of ⟦<F as Filter>⟧ ⟦<Layer<N, E, PendingLines> as span_registry_layers_layers::Layer>⟧ self.old
            (OfTrace (ResetStep (record { lane = lane; guard = guard }))) result self.new }
    {
        self.step(&Step::ResetDefault(ResetCall { lane, guard }))
    }

    /// Takes one more handle of the stack with this handle, and answers its number. Refused for a handle that isn't there or is spent, and
    /// where the stack has too many holders or there is no memory.
    pub fn clone_handle(&mut self, handle: usize) -> Reply
        ensures { IsStep D.contents D.failed Q.settles ⟦<TraceStack<N, E, F, RoutedSinks<AnySink<D, Q>>> as Subscriber>⟧
            ⟦<N as FormatFields>⟧ E.line_of ⟦<F as Filter>⟧ ⟦<Layer<N, E, PendingLines> as span_registry_layers_layers::Layer>⟧ self.old
            (OfTrace (CloneHandleStep handle)) result self.new }
    {
        self.step(&Step::CloneHandle(handle))
    }

    /// Spends a handle. Where nobody else holds its stack, the stack is released, and waits for
    /// [`take_retired`](Trace::take_retired). Refused for a handle that isn't there or is spent. Takes no memory.
    pub fn release(&mut self, handle: usize) -> Reply
        ensures { IsStep D.contents D.failed Q.settles ⟦<TraceStack<N, E, F, RoutedSinks<AnySink<D, Q>>> as Subscriber>⟧
            ⟦<N as FormatFields>⟧ E.line_of ⟦<F as Filter>⟧ ⟦<Layer<N, E, PendingLines> as span_registry_layers_layers::Layer>⟧ self.old
            (OfTrace (ReleaseStep handle)) result self.new }
    {
        self.step(&Step::Release(handle))
    }

    /// Sets whether the full and compact lines of an output, and the texts of spans that are made from now on, have styles. Texts that an
    /// open span has already stay as they are. Outputs are numbered from 0 through all stacks, in the order in which they were added.
    /// Refused for an output that isn't there (`NoOutput`), and for one of a released stack. Takes no memory.
    pub fn set_ansi(&mut self, output: usize, has_styles: bool) -> Reply
        ensures { IsStep D.contents D.failed Q.settles ⟦<TraceStack<N, E, F, RoutedSinks<AnySink<D, Q>>> as Subscriber>⟧
            ⟦<N as FormatFields>⟧ E.line_of ⟦<F as Filter>⟧ ⟦<Layer<N, E, PendingLines> as span_registry_layers_layers::Layer>⟧ self.old
            (OfTrace (SetStep (record { output = output; setting = Ansi has_styles }))) result self.new }
    {
        self.step(&Step::Set(SettingCall {
            output,
            setting: Setting::Ansi(has_styles),
        }))
    }

    /// Sets at which moments of a span an output has a line for it. Whether the line of a close shows the span's times is settled when the
    /// span is made. Outputs are numbered, and refused, as by [`set_ansi`](Trace::set_ansi). Takes no memory.
    pub fn set_span_events(&mut self, output: usize, events: FmtSpan) -> Reply
        ensures { IsStep D.contents D.failed Q.settles ⟦<TraceStack<N, E, F, RoutedSinks<AnySink<D, Q>>> as Subscriber>⟧
            ⟦<N as FormatFields>⟧ E.line_of ⟦<F as Filter>⟧ ⟦<Layer<N, E, PendingLines> as span_registry_layers_layers::Layer>⟧ self.old
            (OfTrace (SetStep (record { output = output; setting = SpanEvents (moments_of events) }))) result self.new }
    {
        self.step(&Step::Set(SettingCall {
            output,
            setting: Setting::SpanEvents(moments_of(events)),
        }))
    }

    /// Makes an event on a lane, for the stack that the lane reaches. A line that finds no memory is missing alone, and counted.
    #[inline(always)]
    pub fn event(
        &mut self,
        lane: usize,
        moment: Moment,
        callsite: Identifier,
        parent: Parent,
        values: &[LentValue<'_>],
    ) -> Reply
        ensures { IsStep D.contents D.failed Q.settles ⟦<TraceStack<N, E, F, RoutedSinks<AnySink<D, Q>>> as Subscriber>⟧
            ⟦<N as FormatFields>⟧ E.line_of ⟦<F as Filter>⟧ ⟦<Layer<N, E, PendingLines> as span_registry_layers_layers::Layer>⟧ self.old
            (OfTrace (EventStep (record {
              lane = lane;
              moment = moment;
              callsite = callsite.0;
              parent = parent;
              values = lent_entries values.now;
            }))) result self.new }
    {
        steps_follow::<N, E, F, D, Q>();
        if self.parts.is_busy() {
            return Reply::Refused(Refusal::Busy);
        }
        self.parts.event(&Request {
            lane,
            moment,
            callsite: callsite.0,
            parent,
            values: IndexedValues::Lent(values),
        })
    }

    /// Asks whether some output's filter of the stack that the lane reaches passes a callsite: by it a new span would be made, and an event
    /// unless the filters refuse the event itself. It is `false` where the lane reaches no stack. Each output's filter is asked, and
    /// what it answers is marked ([`passed_by`](TraceStack::passed_by)). Asking takes no memory.
    pub fn enabled(&mut self, lane: usize, moment: Moment, callsite: Identifier) -> Reply
        ensures { IsStep D.contents D.failed Q.settles ⟦<TraceStack<N, E, F, RoutedSinks<AnySink<D, Q>>> as Subscriber>⟧
            ⟦<N as FormatFields>⟧ E.line_of ⟦<F as Filter>⟧ ⟦<Layer<N, E, PendingLines> as span_registry_layers_layers::Layer>⟧ self.old
            (OfTrace (EnabledStep (record { lane = lane; moment = moment; callsite = callsite }))) result self.new }
    {
        self.step(&Step::Enabled(EnabledCall {
            lane,
            moment,
            callsite,
        }))
    }

    /// Makes a new span on a lane in the stack that the lane reaches, and answers its name, or none where it is dropped or the lane reaches
    /// nothing. A text that finds no memory is missing alone,
    /// and counted.
    pub fn new_span(
        &mut self,
        lane: usize,
        moment: Moment,
        callsite: Identifier,
        parent: Parent,
        values: &[LentValue<'_>],
    ) -> Reply
        ensures { IsStep D.contents D.failed Q.settles ⟦<TraceStack<N, E, F, RoutedSinks<AnySink<D, Q>>> as Subscriber>⟧
            ⟦<N as FormatFields>⟧ E.line_of ⟦<F as Filter>⟧ ⟦<Layer<N, E, PendingLines> as span_registry_layers_layers::Layer>⟧ self.old
            (OfTrace (SpanStep (record {
              lane = lane;
              moment = moment;
              callsite = callsite.0;
              parent = parent;
              values = lent_entries values.now;
            }))) result self.new }
    {
        steps_follow::<N, E, F, D, Q>();
        if self.parts.is_busy() {
            return Reply::Refused(Refusal::Busy);
        }
        self.parts.new_span(&Request {
            lane,
            moment,
            callsite: callsite.0,
            parent,
            values: IndexedValues::Lent(values),
        })
    }

    /// Adds values to a span's. A field is told by its place among those of the span's callsite; one that the callsite lacks is passed
    /// over.
    pub fn record(
        &mut self,
        lane: usize,
        moment: Moment,
        span: Option<SpanName>,
        values: &[LentValue<'_>],
    ) -> Reply
        ensures { IsStep D.contents D.failed Q.settles ⟦<TraceStack<N, E, F, RoutedSinks<AnySink<D, Q>>> as Subscriber>⟧
            ⟦<N as FormatFields>⟧ E.line_of ⟦<F as Filter>⟧ ⟦<Layer<N, E, PendingLines> as span_registry_layers_layers::Layer>⟧ self.old
            (OfTrace (RecordStep (record { lane = lane; moment = moment; span = span; values = lent_entries values.now })))
            result self.new }
    {
        steps_follow::<N, E, F, D, Q>();
        if self.parts.is_busy() {
            return Reply::Refused(Refusal::Busy);
        }
        self.parts.record(&RecordRequest {
            lane,
            moment,
            span,
            values: IndexedValues::Lent(values),
        })
    }

    /// Records that a span follows from another one of the same stack. Nothing shows it yet.
    pub fn record_follows_from(
        &mut self,
        lane: usize,
        moment: Moment,
        span: Option<SpanName>,
        follows: Option<SpanName>,
    ) -> Reply
        ensures { IsStep D.contents D.failed Q.settles ⟦<TraceStack<N, E, F, RoutedSinks<AnySink<D, Q>>> as Subscriber>⟧
            ⟦<N as FormatFields>⟧ E.line_of ⟦<F as Filter>⟧ ⟦<Layer<N, E, PendingLines> as span_registry_layers_layers::Layer>⟧ self.old
            (OfTrace (FollowsFromStep (record { lane = lane; moment = moment; span = span; follows = follows }))) result self.new }
    {
        self.step(&Step::RecordFollowsFrom(FollowsCall {
            lane,
            moment,
            span,
            follows,
        }))
    }

    /// Enters a span on a lane.
    pub fn enter(&mut self, lane: usize, moment: Moment, span: Option<SpanName>) -> Reply
        ensures { IsStep D.contents D.failed Q.settles ⟦<TraceStack<N, E, F, RoutedSinks<AnySink<D, Q>>> as Subscriber>⟧
            ⟦<N as FormatFields>⟧ E.line_of ⟦<F as Filter>⟧ ⟦<Layer<N, E, PendingLines> as span_registry_layers_layers::Layer>⟧ self.old
            (OfTrace (EnterStep (record { lane = lane; moment = moment; span = span }))) result self.new }
    {
        steps_follow::<N, E, F, D, Q>();
        if self.parts.is_busy() {
            return Reply::Refused(Refusal::Busy);
        }
        self.parts.enter(&SpanCall { lane, moment, span })
    }

    /// Leaves a span on a lane: its last entry there goes.
    pub fn exit(&mut self, lane: usize, moment: Moment, span: Option<SpanName>) -> Reply
        ensures { IsStep D.contents D.failed Q.settles ⟦<TraceStack<N, E, F, RoutedSinks<AnySink<D, Q>>> as Subscriber>⟧
            ⟦<N as FormatFields>⟧ E.line_of ⟦<F as Filter>⟧ ⟦<Layer<N, E, PendingLines> as span_registry_layers_layers::Layer>⟧ self.old
            (OfTrace (ExitStep (record { lane = lane; moment = moment; span = span }))) result self.new }
    {
        steps_follow::<N, E, F, D, Q>();
        if self.parts.is_busy() {
            return Reply::Refused(Refusal::Busy);
        }
        self.parts.exit(&SpanCall { lane, moment, span })
    }

    /// Takes one more handle of a span. Refused for a span that isn't open, and where it has as many handles as can be counted
    /// (`TooManyHandles`). Takes no memory.
    pub fn clone_span(&mut self, lane: usize, moment: Moment, span: Option<SpanName>) -> Reply
        ensures { IsStep D.contents D.failed Q.settles ⟦<TraceStack<N, E, F, RoutedSinks<AnySink<D, Q>>> as Subscriber>⟧
            ⟦<N as FormatFields>⟧ E.line_of ⟦<F as Filter>⟧ ⟦<Layer<N, E, PendingLines> as span_registry_layers_layers::Layer>⟧ self.old
            (OfTrace (CloneStep (record { lane = lane; moment = moment; span = span }))) result self.new }
    {
        self.step(&Step::CloneSpan(SpanCall { lane, moment, span }))
    }

    /// Gives up one handle of a span; answers whether the span closed. Refused (`UnknownSpan`) for a span that isn't open, and for one that
    /// an entry or a child keeps open while it has no handle left.
    pub fn try_close(&mut self, lane: usize, moment: Moment, span: Option<SpanName>) -> Reply
        ensures { IsStep D.contents D.failed Q.settles ⟦<TraceStack<N, E, F, RoutedSinks<AnySink<D, Q>>> as Subscriber>⟧
            ⟦<N as FormatFields>⟧ E.line_of ⟦<F as Filter>⟧ ⟦<Layer<N, E, PendingLines> as span_registry_layers_layers::Layer>⟧ self.old
            (OfTrace (CloseStep (record { lane = lane; moment = moment; span = span }))) result self.new }
    {
        steps_follow::<N, E, F, D, Q>();
        if self.parts.is_busy() {
            return Reply::Refused(Refusal::Busy);
        }
        self.parts.try_close(&SpanCall { lane, moment, span })
    }

    /// Takes a step, and answers its reply.
    pub fn step(&mut self, step: &Step) -> Reply
        ensures { IsStep D.contents D.failed Q.settles ⟦<TraceStack<N, E, F, RoutedSinks<AnySink<D, Q>>> as Subscriber>⟧
            ⟦<N as FormatFields>⟧ E.line_of ⟦<F as Filter>⟧ ⟦<Layer<N, E, PendingLines> as span_registry_layers_layers::Layer>⟧ self.old
            (any_step step.now) result self.new }
    {
        steps_follow::<N, E, F, D, Q>();
        self.act_or_wait(step)
    }

    /// Steps in order, with a reply to each. A step that is refused for lack of memory does nothing, and the others run.
    ///
    /// Where the trace is ready, each sink of an output of a stack takes exactly those lines that the output's machine offers and the route
    /// sends to it. Where the sink dropped none, its folder's contents are known, and its appender agreed with a sink before
    /// (`AgreesSink`), these lines stand in its files behind what was found and handed over before, as far as retention left the files.
    ///
    /// # Errors
    ///
    /// Out of memory for the replies, whose room is made first: then nothing was done.
    pub fn run(&mut self, steps: &[Step]) -> Result<Vec<Reply>, AllocError>
        // There is one reply for each step, and each step goes as it would alone, from where the one before left the trace.
        ensures gives { IfOk result (λ replies. FileRunGives D.contents D.failed
            ⟦<TraceStack<N, E, F, RoutedSinks<AnySink<D, Q>>> as Subscriber>⟧ Caching self.old (any_steps steps.now) replies.items self.new) }
        // Where the trace is ready, replies, sinks and files are as `RunsToFiles` says, and the trace is ready afterwards.
        ensures run { IfOk result
            (λ replies. RunsReady D.contents D.failed Q.settles ⟦<N as FormatFields>⟧ E.line_of ⟦<F as Filter>⟧
            ⟦<Layer<N, E, PendingLines> as span_registry_layers_layers::Layer>⟧
            Caching self.old (any_steps steps.now) replies.items self.new) }
        // Where there is no memory for the replies, nothing was done.
        ensures err { OnErr result (self.new ≡ self.old) }
    {
        runs_follow::<N, E, F, D, Q>();
        files_follow::<N, E, F, D, Q>();
        self.run_all(false, steps)
    }

    /// Steps in order, as [`run`](Trace::run) takes them, but before each one the trace asks anew of each callsite, as
    /// [`rebuild_interest_cache`](Trace::rebuild_interest_cache) does. So no step goes by an older answer. It takes the longer the more
    /// callsites there are.
    ///
    /// # Errors
    ///
    /// Out of memory for the replies, whose room is made first: then nothing was done.
    pub fn run_asking(&mut self, steps: &[Step]) -> Result<Vec<Reply>, AllocError>
        // There is one reply for each step, and each step goes as it would alone once the trace asked anew, from where the
        // one before left it.
        ensures gives { IfOk result (λ replies. FileRunGives D.contents D.failed
            ⟦<TraceStack<N, E, F, RoutedSinks<AnySink<D, Q>>> as Subscriber>⟧ Asking self.old (any_steps steps.now) replies.items self.new) }
        // Where the trace is ready, replies, sinks and files are those of the same machine, and the trace is ready afterwards.
        ensures run { IfOk result
            (λ replies. RunsReady D.contents D.failed Q.settles ⟦<N as FormatFields>⟧ E.line_of ⟦<F as Filter>⟧
            ⟦<Layer<N, E, PendingLines> as span_registry_layers_layers::Layer>⟧
            Asking self.old (any_steps steps.now) replies.items self.new) }
        // Where there is no memory for the replies, nothing was done.
        ensures err { OnErr result (self.new ≡ self.old) }
    {
        runs_follow::<N, E, F, D, Q>();
        files_follow::<N, E, F, D, Q>();
        self.run_all(true, steps)
    }
}
