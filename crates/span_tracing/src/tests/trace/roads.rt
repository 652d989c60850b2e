// The two roads of a run: by what is kept of filters' answers, and with all filters asked anew before each step.
ghost use Rattle.std.specs.Prelude.{◌≡◌, None, false};
ghost use Rattle.span_registry_layers.specs.Combined.{kept_by, rule_fair, same_word};
ghost use Rattle.span_registry_layers.specs.Firms.{rule_firm};
ghost use Rattle.span_registry_layers.specs.Singles.{function_single};

use crate::tests::common::{MONDAY, Shape, event_at, number_field, output_filtered, text_field};
use crate::tests::random::Dice;
use crate::tests::trace::stage::{
    EVENT_FIELDS, OUTER, WARNING, Written, set_trace, sink_of, stack_of_two,
};
use crate::{Fields, Trace};
use event_formatter::LineFormat;
use span_registry_layers::{Context, Filter, SpanCall as HeardCall, Stack};
use span_tracing_outputs::{AnySink, RoutedSinks, TraceStack};
use span_tracing_skeleton::{
    DefaultCall, EnabledCall, EventCall, NewSpanCall, Parent, Reply, ResetCall, Setting,
    SettingCall, SpanCall, SpanMoments, SpanName, Step,
};
use std::alloc::Global;
use std::cell::Cell;
use std::num::NonZeroU64;
use std::process::Abort;
use std::test::Fail;
use tracing_appender_rolling::MemoryFolder;
use tracing_core_fields::{Event, FieldSet, Interest, Level, LevelFilter, Metadata};

/// Refuses everything, has no hint, and counts how often it is asked.
#[derive(Drop)]
struct Counting {
    asked: Cell<u64>,
}

impl Counting {
    fn count(&self) {
        self.asked.set(self.asked.get().wrapping_add(1));
    }
}

impl Filter for Counting {
    ghost answers = { λ f m v b. b ≡ false };

    ghost says = { λ f m k. k ≡ kept_by false };

    ghost hint = { λ f. None };

    ghost fair = { λ f _. rule_fair (λ m. false) };

    ghost stays = { λ f h _. (tt, same_word (λ m k. k ≡ kept_by false) None) };

    ghost single = { λ f _. function_single (λ m v. false) };

    ghost firm = { λ f _. rule_firm (λ m. false) };

    fn enabled(&self, _metadata: &Metadata<'_>, _context: &Context<'_>) -> bool {
        self.count();
        false
    }

    fn callsite_enabled(&self, _metadata: &Metadata<'_>) -> Interest {
        self.count();
        Interest::never()
    }

    fn event_enabled(&self, _event: &Event<'_, '_>, _context: &Context<'_>) -> bool {
        true
    }

    fn max_level_hint(&self) -> Option<LevelFilter> {
        self.count();
        None
    }

    fn hear(&mut self, _call: &HeardCall<'_, '_, '_, '_>, _context: &Context<'_>) {}
}

type Counted = TraceStack<Fields, Shape, Counting, RoutedSinks<AnySink<MemoryFolder>>>;

/// A trace with one lane, one output under a filter that counts, and a callsite of events.
fn counted_trace(rt: &impl Abort, alloc: Global) -> Result<Trace<Counted>, Fail> {
    let filter = Counting {
        asked: Cell::new(0),
    };
    let output = output_filtered(alloc, 1, LineFormat::Full, Fields::Default, filter)?;
    let outputs = vec![in alloc; output].ok().ok_or("room")?;
    let sinks = vec![in alloc; sink_of(alloc, "lines")?].ok().ok_or("room")?;
    let stack = Stack::new(alloc, outputs).ok().ok_or("a stack")?;
    let stack = TraceStack::new(stack, sinks).ok().ok_or("a pair")?;
    let mut trace = Trace::new(alloc);
    trace.thread(None, 1)?;
    trace.add_stack(stack).ok().ok_or("a handle")?;
    let names = FieldSet::new(&EVENT_FIELDS, WARNING);
    trace.register(WARNING, &event_at("warning", Level::WARN, names))?;
    assert_eq!(rt; trace.set_global_default(0), Reply::Done);
    Ok(trace)
}

/// How often the filter was asked.
fn asked(trace: &Trace<Counted>) -> Result<u64, Fail> {
    let stack = trace.stack(0).ok_or("a stack")?;
    Ok(
        stack
            .stack()
            .output(0)
            .ok_or("an output")?
            .filter()
            .asked
            .get(),
    )
}

/// A warning on a lane.
fn warning(alloc: Global, lane: usize, text: &str) -> Result<Step, Fail> {
    Ok(Step::Event(EventCall {
        lane,
        moment: MONDAY,
        callsite: WARNING,
        parent: Parent::Contextual,
        values: vec![in alloc; text_field(alloc, 0, text)?, number_field(1, 3)]?,
    }))
}

/// Runs the steps, all of which are done, and answers how often the filter was asked meanwhile. Nothing is written.
fn asked_in(
    rt: &impl Abort,
    trace: &mut Trace<Counted>,
    steps: &[Step],
    asks: bool,
) -> Result<u64, Fail> {
    let before = asked(trace)?;
    let replies = if asks {
        trace.run_asking(steps)?
    } else {
        trace.run(steps)?
    };
    assert!(rt; replies.len() == steps.len() && replies.iter().all(|it| *it == Reply::Done));
    let sink = trace.sink(0).ok_or("a sink")?;
    assert!(rt;
        sink.appender()
            .ok_or("a folder")?
            .folder()
            .files()?
            .iter()
            .all(|it| it.bytes.is_empty())
    );
    Ok(asked(trace)? - before)
}

#[test]
fn asking_counts(rt: HostRuntime) -> Result<(), Fail> {
    let alloc = rt.alloc();
    let mut steps = Vec::new(alloc);
    for _ in 0..5 {
        steps.push(warning(alloc, 0, "hi")?)?;
    }
    let steps = steps.as_slice();
    let mut kept = counted_trace(&rt, alloc)?;
    assert_eq!(rt; asked_in(&rt, &mut kept, steps, false)?, 0);
    let mut asking = counted_trace(&rt, alloc)?;
    // of the callsite and for the hint, before each event
    assert_eq!(rt; asked_in(&rt, &mut asking, steps, true)?, 10);
    let before = asked(&kept)?;
    kept.rebuild_interest_cache();
    assert_eq!(rt; asked(&kept)?, before + 2);
    Ok(())
}

/// A trace over three stacks.
fn trace_of_three(rt: &impl Abort, alloc: Global) -> Result<Trace<Written>, Fail> {
    let mut trace = set_trace(rt, alloc)?;
    for stack in 1..3 {
        let handle = trace.add_stack(stack_of_two(alloc)?).ok().ok_or("room")?;
        assert_eq!(rt; handle, stack);
    }
    Ok(trace)
}

/// A random step on who holds stacks, or on a setting.
fn holding(dice: &mut Dice) -> Step {
    let lane = dice.roll(3) as usize;
    let handle = dice.roll(5) as usize;
    match dice.roll(8) {
        0 => Step::SetGlobalDefault(handle),
        1 | 2 => Step::SetDefault(DefaultCall {
            lane,
            handle: if handle == 4 { None } else { Some(handle) },
        }),
        3 | 4 => Step::ResetDefault(ResetCall {
            lane,
            guard: handle,
        }),
        5 => Step::CloneHandle(handle),
        6 => Step::Release(dice.roll(8) as usize),
        _ => setting(dice),
    }
}

/// A random setting of an output.
fn setting(dice: &mut Dice) -> Step {
    let output = dice.roll(7) as usize;
    let is_on = dice.roll(2) == 0;
    let setting = if dice.roll(2) == 0 {
        Setting::Ansi(is_on)
    } else {
        Setting::SpanEvents(SpanMoments {
            new: is_on,
            enter: !is_on,
            exit: is_on,
            close: is_on,
        })
    };
    Step::Set(SettingCall { output, setting })
}

/// A random call on a span, which may be none that is open.
fn calling(dice: &mut Dice) -> Result<Step, Fail> {
    let id = NonZeroU64::new(dice.roll(12) + 1).ok_or("an id")?;
    let span = Some(SpanName {
        stack: dice.roll(3) as usize,
        id,
    });
    let call = SpanCall {
        lane: dice.roll(2) as usize,
        moment: MONDAY,
        span,
    };
    Ok(match dice.roll(4) {
        0 | 1 => Step::Enter(call),
        2 => Step::Exit(call),
        _ => Step::TryClose(call),
    })
}

/// Random steps.
fn random_steps(alloc: Global, dice: &mut Dice) -> Result<Vec<Step>, Fail> {
    let mut steps = Vec::new(alloc);
    for _ in 0..40 {
        let lane = dice.roll(2) as usize;
        let step = match dice.roll(6) {
            0 => holding(dice),
            1 => calling(dice)?,
            2 => Step::Enabled(EnabledCall {
                lane,
                moment: MONDAY,
                callsite: WARNING,
            }),
            3 => Step::NewSpan(NewSpanCall {
                lane,
                moment: MONDAY,
                callsite: OUTER,
                parent: Parent::Contextual,
                values: vec![in alloc; number_field(0, dice.roll(9))]?,
            }),
            _ => warning(alloc, lane, "hi")?,
        };
        steps.push(step)?;
    }
    Ok(steps)
}

/// Both traces have the same files, also of stacks that were released.
fn has_same_files(
    rt: &impl Abort,
    one: &Trace<Written>,
    other: &Trace<Written>,
) -> Result<u64, Fail> {
    let mut bytes = 0;
    for stack in 0..3 {
        for output in 0..2 {
            let sink = one.sink(2 * stack + output).ok_or("a sink")?;
            let files = sink.appender().ok_or("a folder")?.folder().files()?;
            let sink = other.sink(2 * stack + output).ok_or("a sink")?;
            let others = sink.appender().ok_or("a folder")?.folder().files()?;
            assert_eq!(rt; files.len(), others.len());
            for (file, same) in files.iter().zip(others.iter()) {
                assert_eq!(rt; file.name, same.name);
                assert!(rt; file.bytes == same.bytes);
                bytes += file.bytes.len() as u64;
            }
        }
    }
    Ok(bytes)
}

#[test]
fn both_roads_write_the_same(rt: HostRuntime) -> Result<(), Fail> {
    let alloc = rt.alloc();
    let mut written = 0;
    for seed in 0..10 {
        let mut dice = Dice { state: seed };
        let mut kept = trace_of_three(&rt, alloc)?;
        let mut asking = trace_of_three(&rt, alloc)?;
        for _ in 0..6 {
            let steps = random_steps(alloc, &mut dice)?;
            let replies = kept.run(steps.as_slice())?;
            let others = asking.run_asking(steps.as_slice())?;
            assert!(rt; replies.as_slice() == others.as_slice());
            let output = dice.roll(7) as usize;
            let level = if dice.roll(2) == 0 {
                LevelFilter::ERROR
            } else {
                LevelFilter::TRACE
            };
            let (mut filter, mut other) = (level, level);
            let reply = kept.swap_filter(output, &mut filter);
            assert_eq!(rt; reply, asking.swap_filter(output, &mut other));
            assert_eq!(rt; filter, other);
        }
        written += has_same_files(&rt, &kept, &asking)?;
    }
    assert!(rt; written > 10_000);
    Ok(())
}
