// Lanes whose entries are counted, beside a plain walk over the same lanes.
use super::script::next;
use super::*;
use crate::lanes::{Lanes, drop_entry, is_entered, push_entry};

#[derive(Drop)]
struct BothLanes {
    counted: Lanes,
    plain: Vec<Vec<Id>>,
}

/// One of 20 ids, of which each four have the same remainder.
fn id_at(place: u64) -> Result<Id, Fail> {
    let number = (place / 5)
        .saturating_mul(1024)
        .saturating_add(place % 5)
        .saturating_add(1);
    Ok(Id::from_u64(number).ok_or("an id")?)
}

/// Whether both say the same of each id, and have the same entries on each lane.
fn agree(both: &BothLanes) -> Result<bool, Fail> {
    for place in 0..20 {
        let id = id_at(place)?;
        if both.counted.is_entered(id) != is_entered(both.plain.as_slice(), id) {
            return Ok(false);
        }
    }
    for (lane, entries) in both.plain.iter().enumerate() {
        if both.counted.lane(lane as u64) != entries.as_slice() {
            return Ok(false);
        }
    }
    Ok(true)
}

/// Adds an entry to both, or takes one out, and answers whether they agree then.
fn step(both: &mut BothLanes, seed: &mut u64, alloc: Global) -> Result<bool, Fail> {
    let lane = next(seed, 4);
    let id = id_at(next(seed, 20))?;
    if next(seed, 2) == 0 {
        both.counted.push(lane, id)?;
        push_entry(alloc, &mut both.plain, lane, id)?;
    } else {
        both.counted.remove(lane, id);
        let _was_there = drop_entry(&mut both.plain, lane, id);
    }
    agree(both)
}

/// Makes some calls on both, and answers after how many they agreed.
fn run(seed: u64, calls: u64, alloc: Global) -> Result<u64, Fail> {
    let mut both = BothLanes {
        counted: Lanes::new(alloc),
        plain: Vec::new(alloc),
    };
    let mut seed = seed;
    let mut agreed: u64 = 0;
    for _call in 0..calls {
        if step(&mut both, &mut seed, alloc)? {
            agreed = agreed.wrapping_add(1);
        }
    }
    Ok(agreed)
}

#[test]
fn counted_lanes_agree_with_a_plain_walk(rt: HostRuntime) -> Result<(), Fail> {
    for seed in 0..30 {
        assert!(rt; run(seed, 200, rt.alloc())? == 200);
    }
    Ok(())
}
