//! Lanes that all run at the same time, and one that runs in its caller's thread.
ghost use Rattle.std.specs.Prelude.{◌≡◌, ◌<◌};

use super::*;
use crowd::{Crowd, Turns};

/// Lanes by `run_lanes`, each of whose calls waits until all others came to theirs.
fn crowded<L: Ledger + Send + Sync, R: Abort + AllocGlobal + Clock + Threads + Wait + Sync>(
    rt: &R,
    blank: Blank,
    parts: u64,
    lanes: usize,
) -> Result<(), Fail>
    requires { (blank.name ≡ L.name) × (blank.parts ≡ L.parts) × (blank.parts ≡ parts) × (0 < parts) }
{
    let alloc = rt.alloc();
    let (shared, mut seats) = opened::<L, R>(rt, blank, parts, lanes)?;
    let mut lists = Vec::new(alloc);
    for lane in 0..lanes {
        let list = events(alloc, lane, 20)?;
        lists.push(list)?;
    }
    assert!(rt; fits(seats.as_slice(), lists.as_slice()));
    let crowd = Crowd::new(rt, lanes);
    shared.run_lanes(rt, &crowd, seats.as_mut_slice(), lists.as_slice())?;
    assert!(rt; !crowd.is_missed());
    let Ok(closed) = shared.close(seats) else {
        return Err("torn".into());
    };
    for lane in 0..lanes {
        assert_eq!(rt; entries_of(lane, closed.journal.as_slice()), Some(20));
    }
    assert_eq!(rt; closed.journal.len(), lanes.saturating_mul(20));
    Ok(())
}

#[test]
fn two_lanes_run_at_once(rt: HostRuntime) -> Result<(), Fail> {
    crowded::<Brand, HostRuntime>(&rt, Blank::new(3), 3, 2)
}

#[test]
fn eight_lanes_run_at_once(rt: HostRuntime) -> Result<(), Fail> {
    crowded::<Brand, HostRuntime>(&rt, Blank::new(9), 9, 8)
}

fn alone<L: Ledger, R: Abort + AllocGlobal + Wait>(rt: &R, blank: Blank) -> Result<(), Fail>
    requires { (blank.name ≡ L.name) × (blank.parts ≡ L.parts) × (blank.parts ≡ 2) }
{
    let alloc = rt.alloc();
    let (shared, mut seats) = opened::<L, R>(rt, blank, 2, 1)?;
    let steps = events(alloc, 0, 5)?;
    let turns = Turns::new();
    let [seat] = seats.as_mut_slice() else {
        return Err("a seat".into());
    };
    shared.run_lane(rt, &turns, seat, steps.as_slice())?;
    // before each call and behind it, in order
    assert_eq!(rt; turns.asked(), Some(10));
    assert!(rt; !seat.is_stopped());
    assert_eq!(rt; seat.calls().len(), 5);
    assert!(rt; are_first(seat.calls()));
    // of no steps nothing is done, and nobody asked
    shared.run_lane(rt, &turns, seat, &[])?;
    assert_eq!(rt; (turns.asked(), seat.calls().len()), (Some(10), 5));
    let Ok(closed) = shared.close(seats) else {
        return Err("torn".into());
    };
    assert_eq!(rt; entries_of(0, closed.journal.as_slice()), Some(5));
    Ok(())
}

#[test]
fn a_lane_runs_in_its_callers_thread(rt: HostRuntime) -> Result<(), Fail> {
    alone::<Brand, HostRuntime>(&rt, Blank::new(2))
}
