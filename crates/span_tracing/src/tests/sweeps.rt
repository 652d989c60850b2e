//! Runs in which each call of a folder is refused in turn, or each write cut short, beside a slow model of its files: what a write took
//! stands in the file of the last opening that went well, and nothing else is otherwise than without the fault.

mod outputs;
mod scripts;
mod slow_files;
mod slow_sink;
mod stage;

use scripts::{SCRIPTS, Script};
use slow_files::Plan;
use stage::{Run, run};
use std::alloc::Global;
use std::process::Abort;
use std::test::Fail;

/// Which calls meet a fault, from the number of one of them on: so many writes are cut short, and behind these so many calls refused. With
/// a gap, one more is refused so many calls behind the first.
#[derive(Clone, Copy)]
struct Shape {
    short: u64,
    most: usize,
    refused: u64,
    gap: u64,
}

/// So many calls stand for all that are left.
const ALL: u64 = 400;

const REFUSING: Shape = Shape {
    short: 0,
    most: 0,
    refused: 1,
    gap: 0,
};

const CUTTING: Shape = Shape {
    short: 1,
    most: 1,
    refused: 0,
    gap: 0,
};

/// So many numbers from one on.
fn window(first: u64, count: u64) -> (u64, u64) {
    if count == 0 {
        (0, 0)
    } else {
        (first, first + count - 1)
    }
}

impl Shape {
    /// The plan from this number on.
    fn from(&self, number: u64) -> Plan {
        Plan {
            refused: window(number + self.short, self.refused),
            again: if self.gap == 0 { 0 } else { number + self.gap },
            short: window(number, self.short),
            most: self.most,
            seed: 0,
        }
    }
}

/// How many runs there were, and in how many of them the opening was refused.
#[derive(Clone, Copy, Debug, PartialEq, Eq)]
struct Runs {
    all: u64,
    unopened: u64,
}

/// Runs a script with the shape from each call of a sink's folder on, by turns with `run` and `run_asking`. The last run meets no fault.
fn sweep_sink(
    rt: &impl Abort,
    alloc: Global,
    (script, sink): (&Script, usize),
    shape: Shape,
    runs: &mut Runs,
) -> Result<(), Fail> {
    let without = Run {
        script,
        sink,
        plan: Plan::NOTHING,
        asks: false,
    };
    let whole = run(rt, alloc, without)?;
    assert!(rt; whole.is_opened && whole.failures == 0);
    for number in 1..=whole.calls + 1 {
        let it = Run {
            plan: shape.from(number),
            asks: (number + shape.short + shape.refused + shape.gap) % 2 == 0,
            ..without
        };
        let ran = run(rt, alloc, it)?;
        runs.all += 1;
        if ran.is_opened {
            assert!(rt; ran.replies.as_slice() == whole.replies.as_slice());
        } else {
            runs.unopened += 1;
        }
        if number > whole.calls {
            assert_eq!(rt; (ran.calls, ran.failures), (whole.calls, 0));
        }
    }
    Ok(())
}

/// How many sinks a script has.
fn sinks_of(script: &Script) -> usize {
    let mut count = 0;
    for sinks in script.outputs {
        count += sinks.len();
    }
    count
}

/// The same for each sink of each script.
fn sweep(rt: &impl Abort, alloc: Global, shape: Shape) -> Result<Runs, Fail> {
    let mut runs = Runs {
        all: 0,
        unopened: 0,
    };
    for script in &SCRIPTS {
        sweep_script(rt, alloc, script, shape, &mut runs)?;
    }
    Ok(runs)
}

fn sweep_script(
    rt: &impl Abort,
    alloc: Global,
    script: &Script,
    shape: Shape,
    runs: &mut Runs,
) -> Result<(), Fail> {
    for sink in 0..sinks_of(script) {
        sweep_sink(rt, alloc, (script, sink), shape, runs)?;
    }
    Ok(())
}

/// Sweeps with the shape, and compares the number of runs, and in how many of them the opening was refused.
fn sweeps_so(rt: &impl Abort, alloc: Global, shape: Shape, unopened: u64) -> Result<(), Fail> {
    let runs = sweep(rt, alloc, shape)?;
    assert_eq!(rt; runs, Runs { all: 177, unopened });
    Ok(())
}

/// One that is refused where a link is made refuses the opening.
#[test]
fn each_call_is_refused_in_turn(rt: HostRuntime) -> Result<(), Fail> {
    sweeps_so(&rt, rt.alloc(), REFUSING, 3)
}

#[test]
fn each_call_is_refused_with_a_later_one(rt: HostRuntime) -> Result<(), Fail> {
    let mut unopened = Vec::new(rt.alloc());
    for gap in 2..6 {
        let runs = sweep(&rt, rt.alloc(), Shape { gap, ..REFUSING })?;
        assert_eq!(rt; runs.all, 177);
        unopened.push(runs.unopened)?;
    }
    let wanted = [18, 7, 4, 3];
    assert_eq!(rt; unopened.as_slice(), wanted.as_slice());
    Ok(())
}

/// The folder refuses some calls, and then takes the others again; or it refuses all from some call on.
#[test]
fn a_folder_refuses_for_a_while(rt: HostRuntime) -> Result<(), Fail> {
    for (refused, unopened) in [(2, 16), (3, 22), (7, 24), (ALL, 24)] {
        let shape = Shape {
            refused,
            ..REFUSING
        };
        sweeps_so(&rt, rt.alloc(), shape, unopened)?;
    }
    Ok(())
}

/// A write takes one byte, so that the next one has the rest, or none, which loses the line; or so do all writes from some call on.
#[test]
fn each_write_is_cut_short_in_turn(rt: HostRuntime) -> Result<(), Fail> {
    for (short, most) in [(1, 1), (1, 0), (ALL, 1), (ALL, 0)] {
        let shape = Shape {
            short,
            most,
            ..CUTTING
        };
        sweeps_so(&rt, rt.alloc(), shape, 0)?;
    }
    Ok(())
}

/// The call behind a short write is refused, so that a line loses its rest and the next one follows.
#[test]
fn what_a_short_write_took_stays(rt: HostRuntime) -> Result<(), Fail> {
    let shape = Shape {
        most: 3,
        refused: 1,
        ..CUTTING
    };
    sweeps_so(&rt, rt.alloc(), shape, 3)
}

/// So many runs has each sink.
const DRAWS: u64 = 20;

/// Runs a script over a folder whose calls are refused, or cut short, as dice fall. Answers in how many runs it was opened.
fn play_dice(rt: &impl Abort, alloc: Global, script: &Script, sink: usize) -> Result<u64, Fail> {
    let without = Run {
        script,
        sink,
        plan: Plan::NOTHING,
        asks: true,
    };
    let whole = run(rt, alloc, without)?;
    let mut opened = 0;
    for seed in 1..=DRAWS {
        let plan = Plan {
            most: (seed % 3) as usize,
            seed,
            ..Plan::NOTHING
        };
        let it = Run {
            plan,
            asks: seed % 2 == 0,
            ..without
        };
        let ran = run(rt, alloc, it)?;
        assert!(rt; !ran.is_opened || ran.replies.as_slice() == whole.replies.as_slice());
        opened += u64::from(ran.is_opened);
    }
    Ok(opened)
}

/// The same for each sink of a script.
fn play_each(rt: &impl Abort, alloc: Global, script: &Script) -> Result<u64, Fail> {
    let mut opened = 0;
    for sink in 0..sinks_of(script) {
        opened += play_dice(rt, alloc, script, sink)?;
    }
    Ok(opened)
}

#[test]
fn faults_come_as_dice_fall(rt: HostRuntime) -> Result<(), Fail> {
    let mut opened = 0;
    for script in &SCRIPTS {
        opened += play_each(&rt, rt.alloc(), script)?;
    }
    // of 260
    assert_eq!(rt; opened, 199);
    Ok(())
}
