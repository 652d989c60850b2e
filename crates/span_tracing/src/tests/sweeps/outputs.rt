// The outputs of a script, over folders of which one refuses as planned, and slow models of their sinks.

use super::scripts::Script;
use super::slow_files::{Plan, SinkPlan};
use super::slow_sink::SlowSink;
use crate::{
    Builder, FaultyFolder, FmtSpan, FolderFault, InitError, LineSettings, MemoryFolder,
    OpenStackError, OutputKey, OutputSpec, Refusal, Rotation, Route, SinkSpec, Timer,
};
use std::alloc::Global;
use std::test::Fail;
use tracing_core_fields::LevelFilter;

/// No folder has more calls than that.
pub(crate) const MOST_CALLS: u64 = 500;

/// The numbers of the calls that a folder refuses, or of those that it cuts short.
fn numbers(alloc: Global, plan: &Plan, are_cut: bool) -> Result<Vec<u64>, Fail> {
    let mut all = Vec::new(alloc);
    for number in 1..=MOST_CALLS {
        let is_met = if are_cut {
            plan.cuts(number)
        } else {
            plan.refuses(number)
        };
        if is_met {
            all.push(number)?;
        }
    }
    Ok(all)
}

/// The sink over a folder that refuses as planned.
fn spec_of(alloc: Global, sink: &SinkPlan, plan: &Plan) -> Result<SinkSpec<FaultyFolder>, Fail> {
    let (rotation, prefix) = if sink.by_hour {
        (Rotation::HOURLY, "t")
    } else {
        (Rotation::DAILY, "app")
    };
    let link = if sink.has_link { "latest" } else { "" };
    let builder = Builder::new(alloc)
        .rotation(rotation)
        .filename_prefix(prefix)
        .max_log_files(sink.limit)
        .latest_symlink(link);
    let mut inner = MemoryFolder::new(alloc);
    for name in sink.found {
        inner.put(name, name.as_bytes(), None)?;
    }
    let short = numbers(alloc, plan, true)?;
    let folder = FaultyFolder::new(inner, numbers(alloc, plan, false)?).with_short_writes(
        short, plan.most,
    );
    Ok(match sink.queue {
        None => SinkSpec::Direct(builder, folder),
        Some((limit, lossy)) => SinkSpec::Queued(builder, folder, limit, lossy),
    })
}

/// A route to so many sinks.
fn route_to(alloc: Global, count: usize) -> Result<Route, Fail> {
    let mut route = Route::Sink(0);
    for place in 1..count {
        let next = Box::new(alloc, Route::Sink(place))?;
        route = Route::Tee(Box::new(alloc, route)?, next);
    }
    Ok(route)
}

/// An output, whose sinks have numbers from the first one on. That with the number `faulty` refuses as planned.
fn output_of(
    alloc: Global,
    key: usize,
    sinks: &[SinkPlan],
    first: usize,
    (faulty, plan): (usize, Plan),
) -> Result<OutputSpec<LevelFilter, FaultyFolder>, Fail> {
    let mut specs = Vec::new(alloc);
    for (place, sink) in sinks.iter().enumerate() {
        let its = if first + place == faulty {
            plan
        } else {
            Plan::NOTHING
        };
        specs.push(spec_of(alloc, sink, &its)?).ok().ok_or("room")?;
    }
    let lines = LineSettings {
        timer: Timer::Empty,
        level: false,
        span_events: FmtSpan::CLOSE,
        ..LineSettings::full()
    };
    let key = OutputKey(key as u32);
    let route = route_to(alloc, sinks.len())?;
    let made = OutputSpec::new(key, LevelFilter::INFO, lines, route, specs);
    Ok(made.map_err(|refused| refused.error)?)
}

/// The outputs of a script, and slow models of their sinks. The sink with the number `faulty` refuses as planned.
pub(crate) fn outputs_of(
    alloc: Global,
    script: &Script,
    faulty: usize,
    plan: Plan,
) -> Result<(Vec<OutputSpec<LevelFilter, FaultyFolder>>, Vec<SlowSink>), Fail> {
    let mut outputs = Vec::new(alloc);
    let mut slow = Vec::new(alloc);
    for (key, sinks) in script.outputs.iter().enumerate() {
        let first = slow.len();
        let output = output_of(alloc, key, sinks, first, (faulty, plan))?;
        outputs.push(output).ok().ok_or("room")?;
        add_slow(alloc, &mut slow, key, sinks, (faulty, plan))?;
    }
    Ok((outputs, slow))
}

fn add_slow(
    alloc: Global,
    slow: &mut Vec<SlowSink>,
    key: usize,
    sinks: &[SinkPlan],
    (faulty, plan): (usize, Plan),
) -> Result<(), Fail> {
    for sink in sinks {
        let its = if slow.len() == faulty {
            plan
        } else {
            Plan::NOTHING
        };
        slow.push(SlowSink::new(alloc, key, *sink, its)?)?;
    }
    Ok(())
}

/// Opens the models' files, and answers at which output that is refused, and how.
pub(crate) fn build_all(
    slow: &mut [SlowSink],
    second: i64,
) -> Result<Option<OpenStackError>, Fail> {
    for sink in slow {
        if let Some(context) = sink.files.build(second)? {
            return Ok(Some(OpenStackError {
                refusal: Refusal::FolderRefused,
                output: Some(OutputKey(sink.key as u32)),
                fault: Some(InitError {
                    context,
                    source: FolderFault::Refused,
                }),
            }));
        }
    }
    Ok(None)
}
