//! A stack whose outputs have sinks, as a subscriber.
ghost use Rattle.std.specs.Prelude.{◌≡◌, ◌≤◌, ◌++◌, IfOk, IsTrue, length, nat_eq, take, true};
ghost use Rattle.span_registry_layers_store.specs.Verdicts.{all_pass};
ghost use Rattle.span_registry_layers.specs.CacheValidity.{CacheIsValid};
ghost use Rattle.span_registry_layers.specs.OutputSlots.{marks_of};
ghost use Rattle.span_registry_layers.specs.SpanNotices.{each_sees};
ghost use Rattle.span_registry_layers.specs.Stacks.{cleared, is_above};
ghost use Rattle.span_tracing_outputs.specs.TraceStacks.{IsAtRest, NewGives};

use crate::hand::{clear_lines, hand_over};
use crate::output_sinks::OutputSinks;
use crate::pending::PendingLines;
use crate::sink::LineSink;
use event_formatter::{FormatEvent, Layer};
use event_formatter_text::FormatFields;
use span_registry_layers::Stack;
use span_registry_layers_layers::{Filter, Filtered};
use std::marker::Model;
use tracing_core_fields::{
    Attributes, CurrentSpan, Event, Id, Interest, Level, LevelFilter, Metadata, Record,
    RequestError, Subscriber, WeakDispatch,
};
use tracing_core_moments::At;

/// A stack of outputs, and for each output a sink that takes its lines. They go there at the end of each
/// request, after all outputs were told, so that no output keeps a line between requests.
///
/// A contract sees it as a `TraceStackValue`.
pub struct TraceStack<N, E, F, S: LineSink> {
    pub(crate) stack: Stack<Filtered<Layer<N, E, PendingLines>, F>>,
    pub(crate) sinks: OutputSinks<S>,
}

/// It is written down, so that whoever lets a stack go needs no proof of his own for each of its parts.
impl<N: Drop, E: Drop, F: Drop, S: LineSink> Drop for TraceStack<N, E, F, S> {
    fn drop(self) {
        let TraceStack {
            stack: _stack,
            sinks: _sinks,
        } = self;
    }
}

impl<N, E, F, S: LineSink> Model for TraceStack<N, E, F, S> {
    ghost use Rattle.span_tracing_outputs.specs.TraceStacks.{IsAtRest, TraceStackValue};

    ghost Value = { TraceStackValue N E F S };

    ghost view = { λ t. record { stack = t.stack; sinks = t.sinks } };

    ghost invariant = { λ t. IsAtRest t.stack t.sinks };
}

/// There are not as many sinks as outputs. Both are as they were.
#[derive(Drop)]
pub struct UnpairedSinks<N, E, F, S> {
    /// The outputs.
    pub stack: Stack<Filtered<Layer<N, E, PendingLines>, F>>,
    /// The sinks.
    pub sinks: Vec<S>,
}

#[tactic(auto, using(crate::proofs::OutputSinkPairs::counted))]
fn has_exactly<O>(stack: &Stack<O>, count: usize) -> bool
    ensures { result ≡ nat_eq (length stack.now.rows) count }
{
    if stack.output(count).is_some() {
        return false;
    }
    match count.checked_sub(1) {
        None => true,
        Some(last) => stack.output(last).is_some(),
    }
}

// Of each of the first outputs of a stack, whether it sees a span.
fn seen_in<O>(stack: &Stack<O>, span: &Id) -> [bool; 64]
    ensures exact { result ≡ take 64 (each_sees stack.now.registry span.now stack.now.rows ++ all_pass) }
    ensures outputs { length stack.now.rows ≤ 64 → take (length stack.now.rows) result
        ≡ each_sees stack.now.registry span.now stack.now.rows }
{
    let mut seen = [true; 64];
    for place in 0..64 {
        seen[place] = stack.sees(place, span).unwrap_or(true);
    }
    seen
}

// Of each of the first outputs of a stack, whether its filter passed the callsite of the last request.
fn passed_in<O>(stack: &Stack<O>) -> [bool; 64]
    ensures exact { result ≡ take 64 (marks_of stack.now.rows ++ all_pass) }
    ensures outputs { length stack.now.rows ≤ 64 → take (length stack.now.rows) result ≡ marks_of stack.now.rows }
{
    let mut passed = [true; 64];
    for place in 0..64 {
        passed[place] = stack.passed(place).unwrap_or(true);
    }
    passed
}

impl<N: FormatFields + Drop, E: FormatEvent, F: Filter, S: LineSink> TraceStack<N, E, F, S> {
    /// Gives each output of a stack the sink at its place. Lines that outputs kept before are forgotten.
    ///
    /// # Errors
    ///
    /// `UnpairedSinks` where there are not as many sinks as outputs. Both come back.
    pub fn new(
        stack: Stack<Filtered<Layer<N, E, PendingLines>, F>>,
        sinks: Vec<S>,
    ) -> Result<TraceStack<N, E, F, S>, UnpairedSinks<N, E, F, S>>
        // It is made exactly where there are as many sinks as outputs, and forgets the lines that outputs kept; else both come back
        // unchanged.
        ensures gives { NewGives stack sinks.items result }
        // A valid cache stays valid.
        ensures valid { CacheIsValid ⟦<F as Filter>⟧ stack → IfOk result (λ made. CacheIsValid ⟦<F as Filter>⟧
            made.stack) }
    {
        if !has_exactly(&stack, sinks.len()) {
            return Err(UnpairedSinks { stack, sinks });
        }
        let mut stack = stack;
        clear_lines(&mut stack, sinks.len());
        Ok(TraceStack {
            stack,
            sinks: OutputSinks::new(sinks),
        })
    }
}

impl<N, E, F, S: LineSink> TraceStack<N, E, F, S> {
    /// The stack of outputs.
    pub fn stack(&self) -> &Stack<Filtered<Layer<N, E, PendingLines>, F>>
        ensures { result.now ≡ self.now.stack }
    {
        &self.stack
    }

    // Whether the stack stays as it is at events of this level that name no parent: it has no line to hand over then.
    pub(crate) fn stack_ignores(&self, level: Level) -> bool
        ensures rest { IsAtRest self.now.stack self.now.sinks }
        ensures ignores { IsTrue result → (is_above self.now.stack.hint level ≡ true)
            × (cleared self.now.stack ≡ self.now.stack) }
    {
        self.stack.ignores(level)
    }

    /// Of each output, by its place, whether it sees a span: the span is open, and the output's filter passed it when it was
    /// made. Behind the last output each place has `true`, as a span's verdicts have where no filter has the number.
    ///
    /// Of a new span these are what the outputs' filters answered.
    pub fn seen_by(&self, span: &Id) -> [bool; 64]
        ensures exact { result ≡ take 64 (each_sees self.now.stack.registry span.now self.now.stack.rows ++ all_pass) }
        // Where there are no more outputs, as in each stack that is ready, the first places tell of all of them.
        ensures outputs { length self.now.stack.rows ≤ 64 → take (length self.now.stack.rows) result
            ≡ each_sees self.now.stack.registry span.now self.now.stack.rows }
    {
        seen_in(&self.stack, span)
    }

    /// Of each output, by its place, whether its filter passed the callsite of the last question, or of the last event or new span that was
    /// handed over: the mask of that request. Behind the last output each place has `true`.
    pub fn passed_by(&self) -> [bool; 64]
        ensures exact { result ≡ take 64 (marks_of self.now.stack.rows ++ all_pass) }
        // Where there are no more outputs, as in each stack that is ready, the first places tell of all of them.
        ensures outputs { length self.now.stack.rows ≤ 64 → take (length self.now.stack.rows) result ≡ marks_of self.now.stack.rows }
    {
        passed_in(&self.stack)
    }

    /// The sinks, each at the place of its output.
    pub fn sinks(&self) -> &[S]
        ensures { result.now ≡ self.now.sinks }
    {
        self.sinks.as_slice()
    }
}

/// It answers as its stack does, and is steady while the stack is.
impl<N: FormatFields + Drop, E: FormatEvent, F: Filter, S: LineSink> Subscriber
    for TraceStack<N, E, F, S> {
    ghost use Rattle.std.specs.Prelude.{Some};
    ghost use Rattle.span_registry_layers.specs.CommonAnswers.{CommonInterest, common_hint};
    ghost use Rattle.span_registry_layers.specs.CacheValidity.{CacheIsValid};
    ghost use Rattle.span_registry_layers.specs.OutputSlots.{filters_of};
    ghost use Rattle.span_registry_layers.specs.Stacks.{PassesCached};
    ghost use Rattle.span_registry_layers.specs.Questions.{stack_quiet};
    ghost use Rattle.span_registry_layers.specs.Steadiness.{asked_stays, stack_fair, stack_single};
    ghost use Rattle.span_tracing_outputs.specs.TraceStacks.{TraceMoves};
    ghost use Rattle.span_tracing_outputs.specs.TraceSteadiness.{trace_stays};

    ghost answers = { λ x m at b. PassesCached ⟦<F as Filter>⟧ x.stack m at b };

    ghost says = { λ x m k. CommonInterest ⟦<F as Filter>⟧ m (filters_of x.stack.rows) k };

    ghost hint = { λ x. common_hint ⟦<F as Filter>⟧ (Some 0) (filters_of x.stack.rows) };

    ghost moves = { λ x c r y. TraceMoves ⟦<F as Filter>⟧
        ⟦<Layer<N, E, PendingLines> as span_registry_layers_layers::Layer>⟧ S.takes x c r y };

    ghost steady = { λ x. CacheIsValid ⟦<F as Filter>⟧ x.stack };

    ghost fair = { λ x k. stack_fair ⟦<F as Filter>⟧ x.stack k };

    ghost single = { λ x m at a b k p q. stack_single ⟦<F as Filter>⟧ x.stack m at a b k p q };

    ghost stays = { λ x c r y moved k. trace_stays ⟦<F as Filter>⟧
        ⟦<Layer<N, E, PendingLines> as span_registry_layers_layers::Layer>⟧ S.takes x c r y moved k };

    ghost quiet = { λ x m n at now r y b moved k. stack_quiet ⟦<F as Filter>⟧ x.stack y.stack n now b
        (asked_stays ⟦<F as Filter>⟧ ⟦<Layer<N, E, PendingLines> as span_registry_layers_layers::Layer>⟧ x.stack m at r
        y.stack moved.0) };

    fn on_register_dispatch(&mut self, dispatch: &WeakDispatch) {
        self.stack.on_register_dispatch(dispatch);
    }

    fn register_callsite(&mut self, metadata: &Metadata<'_>) -> Interest {
        self.stack.register_callsite(metadata)
    }

    fn enabled(&mut self, metadata: &Metadata<'_>, at: At) -> bool {
        Subscriber::enabled(&mut self.stack, metadata, at)
    }

    fn max_level_hint(&mut self) -> Option<LevelFilter> {
        self.stack.max_level_hint()
    }

    fn new_span(
        &mut self,
        attributes: &Attributes<'_, '_>,
        at: At,
    ) -> Result<Option<Id>, RequestError> {
        let made = Subscriber::new_span(&mut self.stack, attributes, at);
        hand_over(&mut self.stack, &mut self.sinks, at);
        made
    }

    fn record(&mut self, span: &Id, values: &Record<'_>, at: At) -> Result<(), RequestError> {
        let recorded = Subscriber::record(&mut self.stack, span, values, at);
        hand_over(&mut self.stack, &mut self.sinks, at);
        recorded
    }

    fn record_follows_from(&mut self, span: &Id, follows: &Id, at: At) -> Result<(), RequestError> {
        let recorded = Subscriber::record_follows_from(&mut self.stack, span, follows, at);
        hand_over(&mut self.stack, &mut self.sinks, at);
        recorded
    }

    fn event_enabled(&mut self, event: &Event<'_, '_>, at: At) -> bool {
        Subscriber::event_enabled(&mut self.stack, event, at)
    }

    fn event(&mut self, event: &Event<'_, '_>, at: At) -> Result<(), RequestError> {
        let told = Subscriber::event(&mut self.stack, event, at);
        hand_over(&mut self.stack, &mut self.sinks, at);
        told
    }

    fn enter(&mut self, span: &Id, at: At) -> Result<(), RequestError> {
        let entered = Subscriber::enter(&mut self.stack, span, at);
        hand_over(&mut self.stack, &mut self.sinks, at);
        entered
    }

    fn exit(&mut self, span: &Id, at: At) {
        Subscriber::exit(&mut self.stack, span, at);
        hand_over(&mut self.stack, &mut self.sinks, at);
    }

    fn clone_span(&mut self, span: &Id, at: At) -> Result<Id, RequestError> {
        Subscriber::clone_span(&mut self.stack, span, at)
    }

    fn drop_span(&mut self, span: Id, at: At) {
        Subscriber::drop_span(&mut self.stack, span, at);
        hand_over(&mut self.stack, &mut self.sinks, at);
    }

    fn try_close(&mut self, span: Id, at: At) -> bool {
        let closed = Subscriber::try_close(&mut self.stack, span, at);
        hand_over(&mut self.stack, &mut self.sinks, at);
        closed
    }

    fn current_span(&mut self, at: At) -> CurrentSpan {
        Subscriber::current_span(&mut self.stack, at)
    }
}
