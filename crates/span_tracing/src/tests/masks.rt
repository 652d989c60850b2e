//! What a journal, and a stack, have of the filters' answers to a step.
ghost use Rattle.std.specs.Prelude.{◌≡◌};

use crate::tests::common::MONDAY;
use crate::{
    EnabledCall, EventCall, FileStack, LineSettings, MemoryFolder, NewSpanCall, OutputKey,
    OutputSpec, Parent, Reply, Site, SpanCall, Step, Trace, open_trace,
};
use span_tracing_shared::{Closed, Mask, Shared};
use std::alloc::{AllocGlobal, Global};
use std::marker::Brand;
use std::process::Abort;
use std::sync::Wait;
use std::sync::ledger::{Blank, Ledger};
use std::test::Fail;
use std::thread::Threads;
use tracing_appender_rolling::{Builder, Rotation};
use tracing_core_fields::{Level, LevelFilter};

type LevelTrace = Trace<FileStack<LevelFilter, MemoryFolder>>;

/// A trace of one lane and three outputs, which pass INFO, ERROR and DEBUG.
fn trace_of_three(alloc: Global) -> Result<LevelTrace, Fail> {
    let mut outputs = Vec::new(alloc);
    for (key, level) in [
        (0, LevelFilter::INFO),
        (1, LevelFilter::ERROR),
        (2, LevelFilter::DEBUG),
    ] {
        let files = Builder::new(alloc)
            .rotation(Rotation::NEVER)
            .filename_prefix("app");
        let folder = MemoryFolder::new(alloc);
        let lines = LineSettings::full();
        outputs.push(OutputSpec::file(alloc, OutputKey(key), level, lines, files, folder)?)?;
    }
    Ok(open_trace(alloc, outputs, MONDAY)?)
}

fn question(site: Site) -> Step {
    Step::Enabled(EnabledCall {
        lane: 0,
        moment: MONDAY,
        callsite: site.identifier,
    })
}

fn event(alloc: Global, lane: usize, site: Site) -> Step {
    Step::Event(EventCall {
        lane,
        moment: MONDAY,
        callsite: site.identifier,
        parent: Parent::Contextual,
        values: Vec::new(alloc),
    })
}

fn span(alloc: Global, site: Site) -> Step {
    Step::NewSpan(NewSpanCall {
        lane: 0,
        moment: MONDAY,
        callsite: site.identifier,
        parent: Parent::Contextual,
        values: Vec::new(alloc),
    })
}

fn enter() -> Step {
    Step::Enter(SpanCall {
        lane: 0,
        moment: MONDAY,
        span: None,
    })
}

fn is_mask(mask: &Mask, passed: &[bool]) -> bool {
    let mut is = mask.len() == passed.len();
    let mut place = 0;
    for passes in passed {
        is = is && mask.get(place) == Some(*passes);
        place += 1;
    }
    is
}

/// Whether a journal has these steps, each with its mask, and the trace what the last question left.
fn has_noted(
    rt: &impl Abort,
    closed: &Closed<LevelTrace>,
    steps: &[(Step, &[bool])],
) -> Result<(), Fail> {
    assert_eq!(rt; closed.journal.len(), steps.len());
    let mut at = 0;
    for entry in closed.journal.as_slice() {
        let (step, mask) = steps.get(at).ok_or("a step")?;
        assert!(rt; entry.step.is_same(step) && is_mask(&entry.mask, mask));
        at += 1;
    }
    let passed = closed.trace.stack(0).ok_or("a stack")?.passed_by();
    assert_eq!(rt;
        (passed[0], passed[1], passed[2], passed[3]),
        (false, false, false, true)
    );
    Ok(())
}

fn noted<L: Ledger + Send + Sync, R: Abort + AllocGlobal + Threads + Wait + Sync>(
    rt: &R,
    blank: Blank,
) -> Result<(), Fail>
    requires { (blank.name ≡ L.name) × (blank.parts ≡ L.parts) × (blank.parts ≡ 2) }
{
    let alloc = rt.alloc();
    let mut trace = trace_of_three(alloc)?;
    let info = Site::event(&mut trace, "app", "info", Level::INFO, &[])?;
    let debug = Site::event(&mut trace, "app", "debug", Level::DEBUG, &[])?;
    let verbose = Site::event(&mut trace, "app", "trace", Level::TRACE, &[])?;
    let work = Site::span(&mut trace, "app", "work", Level::INFO, &[])?;
    let detail = Site::span(&mut trace, "app", "detail", Level::TRACE, &[])?;
    let Ok(shared) = Shared::<L, LevelTrace>::new(alloc, blank, 2, trace) else {
        return Err("out of memory".into());
    };
    let mut seat = shared.seat(rt, 0).ok().ok_or("a seat")?;
    let (some, last, none): ([bool; 3], [bool; 3], [bool; 3]) = (
        [true, false, true],
        [false, false, true],
        [false; 3],
    );
    let steps: [(Step, &[bool]); 10] = [
        (event(alloc, 0, debug), &last),
        (question(info), &some),
        (enter(), &[]),
        (span(alloc, work), &some),
        (question(debug), &last),
        (question(verbose), &none),
        (span(alloc, detail), &none),
        (event(alloc, 0, info), &some),
        (event(alloc, 0, verbose), &none),
        // It is refused: there is no such callsite of events.
        (event(alloc, 0, work), &[]),
    ];
    for (step, _mask) in &steps {
        let _reply = shared.call(rt, &mut seat, step)?;
    }
    let mut seats = Vec::new(alloc);
    seats.push(seat)?;
    match shared.close(seats) {
        Ok(closed) => has_noted(rt, &closed, &steps),
        Err(_) => Err("torn".into()),
    }
}

#[test]
fn a_journal_notes_what_each_output_answers(rt: HostRuntime) -> Result<(), Fail> {
    noted::<Brand, HostRuntime>(&rt, Blank::new(2))
}

#[test]
fn a_stack_tells_what_each_output_answered_last(rt: HostRuntime) -> Result<(), Fail> {
    let mut trace = trace_of_three(rt.alloc())?;
    let info = Site::event(&mut trace, "app", "info", Level::INFO, &[])?;
    let debug = Site::event(&mut trace, "app", "debug", Level::DEBUG, &[])?;
    assert_eq!(rt;
        trace.enabled(0, MONDAY, info.identifier),
        Reply::Enabled(true)
    );
    let asked = trace.stack(0).ok_or("a stack")?.passed_by();
    assert_eq!(rt; (asked[0], asked[1], asked[2]), (true, false, true));
    let told = trace.event(0, MONDAY, debug.identifier, Parent::Contextual, &[]);
    assert_eq!(rt; told, Reply::Done);
    let heard = trace.stack(0).ok_or("a stack")?.passed_by();
    assert_eq!(rt; (heard[0], heard[1], heard[2]), (false, false, true));
    Ok(())
}
