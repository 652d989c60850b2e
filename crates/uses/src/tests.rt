//! Each caller once on its happy path.

ghost use Rattle.std.specs.Prelude.{◌≡◌, nat_le};
ghost use Rattle.span_registry_layers.specs.CacheValidity.{CacheIsValid};
ghost use Rattle.tracing_core.specs.Metadata.{plain_metadata};

mod clocked;
mod json;
mod lanes;
mod live_lanes;
mod service;
mod skipped;
mod two_stacks;

use crate::boxed::{under_both, under_box, under_context_closure};
use crate::choice::{by_closure, by_level, under_choice};
use crate::filter::{hand, under_closure, under_level, under_verbosity};
use crate::hub::{Tally, events_of, hub_of, log_event, reach_by_default};
use crate::layer::Counts;
use crate::program::{log_both, log_text, open_trace};
use crate::queue::{close_behind, dropping_queue, next_line, offer_text, two_in_order};
use crate::rolling::{files_of, open_daily, write_line};
use crate::visitor::{kinds_of, texts_of};
use span_registry_layers::{
    Context, ContextTest, DynFilterFn, Filter, Filtered, Identity, Listening, MetadataTest, Output,
    OutputKey, Stack,
};
use span_tracing::{Moment, Reply};
use std::test::Fail;
use tracing_core::{
    AnyValue, At, Attributes, DebugText, DefaultCallsite, Event, FieldSet, Identifier, Kind, Level,
    LevelFilter, Metadata,
};

/// 2025-02-17T10:01:00Z.
const MONDAY: Moment = Moment {
    seconds: 1_739_786_460,
    nanoseconds: 0,
};

const PLACE: At = At {
    lane: 0,
    seconds: 0,
    nanoseconds: 0,
};

/// What is known of an event of this level, from a callsite without fields.
fn event_at(level: Level, callsite: Identifier) -> Metadata<'static> {
    let fields = FieldSet::new(&[], callsite);
    Metadata::new("e", "app", level, None, None, None, fields, Kind::EVENT)
}

/// Passes warnings and errors.
fn is_quiet(metadata: &Metadata<'_>) -> bool
    ensures { result ≡ nat_le (plain_metadata metadata.now).level 2 }
{
    *metadata.level() <= Level::WARN
}

/// The same, whatever the context shows.
fn is_quiet_anywhere(metadata: &Metadata<'_>, _context: &Context<'_>) -> bool
    ensures { result ≡ nat_le (plain_metadata metadata.now).level 2 }
{
    is_quiet(metadata)
}

/// Whether a stack takes an event, and passes WARN and not DEBUG.
fn passes_warnings<F: Filter>(stack: &mut Stack<Filtered<Identity, F>>) -> Result<bool, Fail>
    requires { CacheIsValid ⟦<F as Filter>⟧ stack.old }
{
    let warn = event_at(Level::WARN, Identifier(7));
    let debug = event_at(Level::DEBUG, Identifier(8));
    let event = Event::new(&warn, warn.fields().value_set_all(&[]));
    hand(stack, &event, PLACE)?;
    Ok(stack.enabled(&warn, PLACE) && !stack.enabled(&debug, PLACE))
}

#[test]
fn levels_pass_warnings(rt: HostRuntime) -> Result<(), Fail> {
    let alloc = rt.alloc();
    let mut level = under_level(alloc, LevelFilter::WARN).ok().ok_or("room")?;
    assert!(rt; passes_warnings(&mut level)?);
    let mut own = under_verbosity(alloc, LevelFilter::WARN)
        .ok()
        .ok_or("room")?;
    assert!(rt; passes_warnings(&mut own)?);
    Ok(())
}

#[test]
fn a_closure_passes_warnings(rt: HostRuntime) -> Result<(), Fail> {
    let quiet: MetadataTest = Box::new(rt.alloc(), is_quiet)?;
    let mut stack = under_closure(rt.alloc(), quiet, LevelFilter::WARN)
        .ok()
        .ok_or("room")?;
    assert!(rt; passes_warnings(&mut stack)?);
    Ok(())
}

#[test]
fn a_box_passes_warnings(rt: HostRuntime) -> Result<(), Fail> {
    let boxed: Box<dyn Filter> = Box::new(rt.alloc(), LevelFilter::WARN)?;
    let mut stack = under_box(rt.alloc(), boxed).ok().ok_or("room")?;
    assert!(rt; passes_warnings(&mut stack)?);
    Ok(())
}

#[test]
fn a_closure_over_contexts_passes_warnings(rt: HostRuntime) -> Result<(), Fail> {
    let quiet: ContextTest = Box::new(rt.alloc(), is_quiet_anywhere)?;
    let filter = DynFilterFn::new(quiet);
    let mut stack = under_context_closure(rt.alloc(), filter)
        .ok()
        .ok_or("room")?;
    assert!(rt; passes_warnings(&mut stack)?);
    Ok(())
}

#[test]
fn a_level_and_a_closure_pass_warnings(rt: HostRuntime) -> Result<(), Fail> {
    let quiet: MetadataTest = Box::new(rt.alloc(), is_quiet)?;
    let mut stack = under_both(rt.alloc(), LevelFilter::DEBUG, quiet)
        .ok()
        .ok_or("room")?;
    assert!(rt; passes_warnings(&mut stack)?);
    Ok(())
}

#[test]
fn a_choice_passes_warnings(rt: HostRuntime) -> Result<(), Fail> {
    let quiet: MetadataTest = Box::new(rt.alloc(), is_quiet)?;
    let mut chosen = under_choice(rt.alloc(), by_closure(quiet))
        .ok()
        .ok_or("room")?;
    let mut other = under_choice(rt.alloc(), by_level(LevelFilter::WARN))
        .ok()
        .ok_or("room")?;
    assert!(rt; passes_warnings(&mut chosen)? && passes_warnings(&mut other)?);
    Ok(())
}

#[test]
fn a_layer_counts(rt: HostRuntime) -> Result<(), Fail> {
    let alloc = rt.alloc();
    let mut outputs = Vec::new(alloc);
    let output = Output {
        key: OutputKey(1),
        output: Filtered::new(Listening::new(Counts::none()), LevelFilter::INFO),
    };
    outputs.push(output).ok().ok_or("room")?;
    let mut stack = Stack::new(alloc, outputs).ok().ok_or("a stack")?;
    let info = event_at(Level::INFO, Identifier(7));
    let debug = event_at(Level::DEBUG, Identifier(8));
    stack.event(&Event::new(&info, info.fields().value_set_all(&[])), PLACE)?;
    stack.event(
        &Event::new(&debug, debug.fields().value_set_all(&[])),
        PLACE,
    )?;
    let fields = FieldSet::new(&[], Identifier(9));
    let level = Level::INFO;
    let span = Metadata::new("s", "app", level, None, None, None, fields, Kind::SPAN);
    let made = stack.new_span(&Attributes::new(&span, fields.value_set_all(&[])), PLACE)?;
    assert!(rt; made.is_some());
    let counts = *stack.output(0).ok_or("an output")?.inner().listener();
    assert_eq!(rt;
        counts,
        Counts {
            events: 1,
            spans: 1
        }
    );
    Ok(())
}

#[test]
fn a_tally_counts_what_its_lane_logs(rt: HostRuntime) -> Result<(), Fail> {
    let info = event_at(Level::INFO, Identifier(7));
    let debug = event_at(Level::DEBUG, Identifier(8));
    let mut quiet = DefaultCallsite::new(&info);
    let mut loud = DefaultCallsite::new(&debug);
    let (mut hub, dispatch) = hub_of(rt.alloc(), Tally::new(LevelFilter::INFO))
        .ok()
        .ok_or("a hub")?;
    let lane = hub.thread()?;
    assert!(rt; quiet.register(&mut hub).is_ok());
    assert!(rt; loud.register(&mut hub).is_ok());
    assert!(rt; quiet.interest().is_always());
    let at = At {
        lane,
        seconds: 0,
        nanoseconds: 0,
    };
    let told = Event::new(&info, info.fields().value_set_all(&[]));
    let dropped = Event::new(&debug, debug.fields().value_set_all(&[]));
    assert!(rt; !log_event(&mut hub, &told, at));
    assert_eq!(rt; reach_by_default(&mut hub, &dispatch), Ok(()));
    assert!(rt; log_event(&mut hub, &told, at));
    assert!(rt; !log_event(&mut hub, &dropped, at));
    assert_eq!(rt; events_of(&hub, &dispatch), Some(1));
    assert!(rt; reach_by_default(&mut hub, &dispatch).is_err());
    Ok(())
}

#[test]
fn a_program_logs_a_line(rt: HostRuntime) -> Result<(), Fail> {
    let alloc = rt.alloc();
    let mut trace = open_trace(alloc, "app", LevelFilter::INFO, MONDAY)
        .ok()
        .ok_or("a trace")?;
    let names = FieldSet::new(&["message"], Identifier(2));
    let done = Metadata::new(
        "done",
        "app",
        Level::INFO,
        None,
        None,
        None,
        names,
        Kind::EVENT,
    );
    assert!(rt; trace.register(Identifier(2), &done).is_ok());
    let reply = log_text(&mut trace, MONDAY, Identifier(2), "finished");
    assert!(rt; reply == Reply::Done);
    // The level leaves out what is more verbose.
    let names = FieldSet::new(&["message"], Identifier(3));
    let level = Level::DEBUG;
    let detail = Metadata::new("detail", "app", level, None, None, None, names, Kind::EVENT);
    assert!(rt; trace.register(Identifier(3), &detail).is_ok());
    let reply = log_text(&mut trace, MONDAY, Identifier(3), "a detail");
    assert!(rt; reply == Reply::Done);
    let (reply, last) = log_both(&mut trace, MONDAY, Identifier(2), "saved", "sent");
    assert!(rt; reply == Reply::Done && last == Reply::Done);
    let sink = trace.sink(0).ok_or("a sink")?;
    let files = sink.appender().ok_or("a folder")?.folder().files()?;
    let file = files.first().ok_or("no file")?;
    assert_eq!(rt; file.name, "app.2025-02-17.log");
    let lines = b" INFO app: finished\n INFO app: saved\n INFO app: sent\n";
    assert_eq!(rt; file.bytes, lines.as_slice());
    Ok(())
}

#[test]
fn lines_come_out_in_order(rt: HostRuntime) -> Result<(), Fail> {
    let alloc = rt.alloc();
    let (one, two) = two_in_order(alloc, "a", "b")?;
    assert_eq!(rt; one.ok_or("no line")?.as_slice(), b"a".as_slice());
    assert_eq!(rt; two.ok_or("no line")?.as_slice(), b"b".as_slice());
    let mut queue = dropping_queue(alloc, 2);
    assert!(rt; offer_text(&mut queue, "c")?);
    close_behind(&mut queue)?;
    assert!(rt; !offer_text(&mut queue, "d")?);
    assert!(rt; next_line(&mut queue).is_some());
    assert!(rt; next_line(&mut queue).is_none());
    Ok(())
}

#[test]
fn a_line_stands_in_its_day(rt: HostRuntime) -> Result<(), Fail> {
    let alloc = rt.alloc();
    let mut log = open_daily(alloc, "app", MONDAY)?;
    write_line(&mut log, "hello\n", MONDAY)?;
    let files = files_of(&log)?;
    let file = files.first().ok_or("no file")?;
    assert_eq!(rt; file.name, "app.2025-02-17");
    assert_eq!(rt; file.bytes, b"hello\n".as_slice());
    Ok(())
}

#[test]
fn visitors_tell_kinds_apart(rt: HostRuntime) -> Result<(), Fail> {
    let names = ["a", "b", "c", "d"];
    let fields = FieldSet::new(&names, Identifier(1));
    let values = [
        Some(AnyValue::I64(-1)),
        None,
        Some(AnyValue::Str("text")),
        Some(AnyValue::Debug(DebugText::I64(2))),
    ];
    let set = fields.value_set_all(&values);
    assert_eq!(rt; kinds_of(rt.alloc(), &set)?.as_str(), "isd");
    assert_eq!(rt; texts_of(rt.alloc(), &set)?.as_str(), "-t-");
    Ok(())
}
