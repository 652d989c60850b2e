//! A trace that keeps a journal of its steps, and a lane with a seat at it.
ghost use Rattle.std.specs.Prelude.{◌≡◌, IfOk};
ghost use Rattle.span_tracing.specs.StepFollows.{TraceIsReady};

use crate::bench::Bench;
use crate::counting::CountingFolder;
use crate::fault::Fault;
use crate::lines::Counter;
use crate::stack::{LevelStack, OPENED, outputs_of, sink_of};
use crate::stage::{EVENT_FIELDS, LANE, OUTER_FIELDS, counted, done, made, moment_at};
use crate::times::Times;
use span_registry_layers::Filter;
use span_tracing::laws::{leveled_outputs_are_honest, sites_stay_ready};
use span_tracing::{
    AnySink, CarriesOut, EventCall, FieldValue, Fields, Folder, Format, LineFormat, Lines,
    NewSpanCall, NoLive, OwnedValue, Parent, Reply, RoutedSinks, Seat, Shared, Site, SpanCall,
    Step, Timer, Trace, is_of_lane, open_trace,
};
use std::alloc::Global;
use std::marker::Brand;
use std::rt::Clock;
use std::sync::Wait;
use std::sync::ledger::{Blank, Ledger};
use std::time::Instant;
use tracing_core::{Identifier, Level, LevelFilter};

type CountingTrace = Trace<LevelStack<CountingFolder, NoLive>>;

/// A trace, with a callsite of spans and one of events.
#[derive(Drop)]
struct Opened<T> {
    trace: T,
    outer: Identifier,
    event: Identifier,
}

/// The callsites of the spans and of the events.
struct Callsites {
    outer: Identifier,
    event: Identifier,
}

/// Registers the callsites. A ready trace stays so.
fn register<D: Folder>(trace: &mut Trace<LevelStack<D, NoLive>>) -> Result<Callsites, Fault>
    ensures { TraceIsReady ⟦<LevelFilter as Filter>⟧ ⟦<Lines as span_registry_layers::Layer>⟧ trace.old →
        TraceIsReady ⟦<LevelFilter as Filter>⟧ ⟦<Lines as span_registry_layers::Layer>⟧ trace.new }
{
    sites_stay_ready::<
        Fields,
        Format<LineFormat, Timer>,
        LevelFilter,
        RoutedSinks<AnySink<D, NoLive>>,
    >();
    let outer = Site::span(trace, "app", "outer", Level::INFO, &OUTER_FIELDS)?;
    let event = Site::event(trace, "app", "event", Level::INFO, &EVENT_FIELDS)?;
    Ok(Callsites {
        outer: outer.identifier,
        event: event.identifier,
    })
}

/// A trace over a folder, which is ready for its first step.
fn open<D: Folder>(alloc: Global, folder: D) -> Result<Opened<Trace<LevelStack<D, NoLive>>>, Fault>
    ensures { IfOk result (λ opened. TraceIsReady ⟦<LevelFilter as Filter>⟧ ⟦<Lines as span_registry_layers::Layer>⟧ opened.trace) }
{
    leveled_outputs_are_honest::<D, NoLive>();
    let mut sinks = Vec::new(alloc);
    sinks.push(sink_of(alloc, Bench::Shared, folder, "shared"))?;
    let outputs = outputs_of(alloc, Bench::Shared, sinks)?;
    let mut trace = open_trace(alloc, outputs, OPENED)?;
    let Callsites { outer, event } = register(&mut trace)?;
    Ok(Opened {
        trace,
        outer,
        event,
    })
}

/// A lane's seat at a trace.
#[derive(Drop)]
struct Desk<L: Ledger, T: CarriesOut> {
    shared: Shared<L, T>,
    seat: Seat<L>,
    event: Step,
}

/// A field with a number.
fn number(field: usize, value: u64) -> FieldValue {
    FieldValue {
        field,
        value: OwnedValue::U64(value),
    }
}

/// An event with a message and a number.
fn event_step(alloc: Global, callsite: Identifier) -> Result<Step, Fault> {
    let mut values = Vec::new(alloc);
    values.push(FieldValue {
        field: 0,
        value: OwnedValue::Text(String::from_str(alloc, "hi")?),
    })?;
    values.push(number(1, 0))?;
    Ok(Step::Event(EventCall {
        lane: LANE,
        moment: OPENED,
        callsite,
        parent: Parent::Contextual,
        values,
    }))
}

/// Makes an event's step that of its number: so a step is lent again and again.
fn set_number(step: &mut Step, i: u64) {
    if let Step::Event(call) = step {
        call.moment = moment_at(i);
        if let Some(second) = call.values.get_mut(1) {
            second.value = OwnedValue::U64(i % 10);
        }
    }
}

/// One step by the seat's lane.
fn call<L: Ledger, T: CarriesOut, R: Wait>(
    rt: &R,
    shared: &Shared<L, T>,
    seat: &mut Seat<L>,
    step: &Step,
) -> Result<Reply, Fault> {
    if !is_of_lane(step, seat.lane()) {
        return Err(Fault::OddReply);
    }
    Ok(shared.call(rt, seat, step)?)
}

impl<L: Ledger, T: CarriesOut> Desk<L, T> {
    fn enter_span<R: Wait>(
        &mut self,
        rt: &R,
        alloc: Global,
        callsite: Identifier,
    ) -> Result<(), Fault> {
        let mut values = Vec::new(alloc);
        values.push(number(0, 42))?;
        let opening = Step::NewSpan(NewSpanCall {
            lane: LANE,
            moment: OPENED,
            callsite,
            parent: Parent::Contextual,
            values,
        });
        let name = made(call(rt, &self.shared, &mut self.seat, &opening)?)?;
        let entering = Step::Enter(SpanCall {
            lane: LANE,
            moment: OPENED,
            span: Some(name),
        });
        done(call(rt, &self.shared, &mut self.seat, &entering)?)
    }

    /// Tells of events, whose second field is their number mod 10.
    fn tell<R: Wait>(&mut self, rt: &R, count: u64) -> Result<(), Fault> {
        for i in 0..count {
            set_number(&mut self.event, i);
            done(call(rt, &self.shared, &mut self.seat, &self.event)?)?;
        }
        Ok(())
    }

    /// The trace, where the seat has its whole journal.
    fn close(self, alloc: Global) -> Result<T, Fault> {
        let Desk { shared, seat, .. } = self;
        let mut seats = Vec::new(alloc);
        seats.push(seat)?;
        match shared.close(seats) {
            Ok(closed) => Ok(closed.trace),
            Err(_) => Err(Fault::OddReply),
        }
    }
}

/// A seat at a trace, in a span.
fn sit<L: Ledger, T: CarriesOut, R: Wait>(
    rt: &R,
    alloc: Global,
    blank: Blank,
    opened: Opened<T>,
) -> Result<Desk<L, T>, Fault>
    requires { (blank.name ≡ L.name) × (blank.parts ≡ L.parts) × (blank.parts ≡ 2) × T.ready opened.trace }
{
    let Opened {
        trace,
        outer,
        event,
    } = opened;
    let event = event_step(alloc, event)?;
    let Ok(shared) = Shared::<L, T>::new(alloc, blank, 2, trace) else {
        return Err(Fault::OutOfMemory);
    };
    let seat = shared.seat(rt, LANE)?;
    let mut desk = Desk {
        shared,
        seat,
        event,
    };
    desk.enter_span(rt, alloc, outer)?;
    Ok(desk)
}

/// Times steps of a trace, until its journal is let go.
fn time_steps<L: Ledger, T: CarriesOut, R: Clock + Wait>(
    rt: &R,
    alloc: Global,
    blank: Blank,
    opened: Opened<T>,
    count: u64,
) -> Result<Times, Fault>
    requires { (blank.name ≡ L.name) × (blank.parts ≡ L.parts) × (blank.parts ≡ 2) × T.ready opened.trace }
{
    let mut desk = sit::<L, T, R>(rt, alloc, blank, opened)?;
    let start = Instant::now(rt)?;
    desk.tell(rt, count)?;
    let calls = start.elapsed(rt)?.as_nanos();
    drop(desk);
    let all = start.elapsed(rt)?.as_nanos();
    Ok(Times { calls, all })
}

/// The trace after such steps.
fn trace_after<L: Ledger, T: CarriesOut, R: Wait>(
    rt: &R,
    alloc: Global,
    blank: Blank,
    opened: Opened<T>,
    count: u64,
) -> Result<T, Fault>
    requires { (blank.name ≡ L.name) × (blank.parts ≡ L.parts) × (blank.parts ≡ 2) × T.ready opened.trace }
{
    let mut desk = sit::<L, T, R>(rt, alloc, blank, opened)?;
    desk.tell(rt, count)?;
    desk.close(alloc)
}

/// Times steps of a trace over a folder that only counts, until its journal is let go.
pub(crate) fn time_shared<R: Clock + Wait>(
    rt: &R,
    alloc: Global,
    count: u64,
) -> Result<Times, Fault> {
    let opened = open(alloc, CountingFolder::new(alloc))?;
    time_steps::<Brand, CountingTrace, R>(rt, alloc, Blank::new(2), opened, count)
}

/// Counts what such steps hand over.
pub(crate) fn count_shared<R: Wait>(rt: &R, alloc: Global, count: u64) -> Result<Counter, Fault> {
    let opened = open(alloc, CountingFolder::new(alloc))?;
    let trace = trace_after::<Brand, CountingTrace, R>(rt, alloc, Blank::new(2), opened, count)?;
    counted(&trace)
}
