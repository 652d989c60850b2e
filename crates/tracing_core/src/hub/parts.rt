//! What a hub keeps.
ghost use Rattle.std.specs.Prelude.{◌≡◌, ◌<◌, slice_get, length, IfSome};

use std::marker::Model;
use tracing_core_fields::{Interest, LevelFilter};

/// A subscriber that some handle leads to. A contract sees what is kept of it.
#[derive(Drop)]
pub struct RegisteredSubscriber<S> {
    pub(crate) serial: u64,
    pub(crate) handles: u64,
    // whether it was lent for writing since it was last asked, or was never asked
    pub(crate) lent: bool,
    // whether it was handed out for writing since then without a mark: then it is asked again, too
    pub(crate) unsure: bool,
    // what it answered of each callsite, by its index, as far as there was memory
    pub(crate) interests: Vec<Interest>,
    // what it answered for its hint
    pub(crate) hint: Option<Option<LevelFilter>>,
    pub(crate) subscriber: S,
}

impl<S> Model for RegisteredSubscriber<S> {
    ghost use Rattle.tracing_core.specs.TableRows.{KeptSubscriber};

    ghost Value = { KeptSubscriber S };

    ghost view = { λ e. record {
      serial = e.serial;
      handles = e.handles;
      lent = e.lent;
      interests = e.interests.items;
      hint = e.hint;
      subscriber = e.subscriber;
    } };
}

impl<S> RegisteredSubscriber<S> {
    /// The subscriber itself.
    pub fn subscriber(&self) -> &S
        ensures { result.now ≡ self.now.subscriber }
    {
        &self.subscriber
    }

    /// Its number.
    pub fn serial(&self) -> u64
        ensures { result ≡ self.now.serial }
    {
        self.serial
    }

    /// How many handles and defaults lead to it.
    pub fn handles(&self) -> u64
        ensures { result ≡ self.now.handles }
    {
        self.handles
    }
}

/// A callsite. A contract sees what is kept of it.
#[derive(Drop)]
pub struct RegisteredCallsite<C> {
    pub(crate) callsite: C,
    pub(crate) identifier: u64,
    // the least verbose filter that passes the callsite's level
    pub(crate) level: LevelFilter,
    pub(crate) interest: Interest,
}

impl<C> Model for RegisteredCallsite<C> {
    ghost use Rattle.tracing_core.specs.TableRows.{KeptCallsite};

    ghost Value = { KeptCallsite C };

    ghost view = { λ row. record {
      callsite = row.callsite;
      identifier = row.identifier;
      level = row.level;
      interest = row.interest;
    } };
}

impl<C> RegisteredCallsite<C> {
    /// The callsite itself.
    pub fn callsite(&self) -> &C
        ensures { result.now ≡ self.now.callsite }
    {
        &self.callsite
    }
}

/// A default.
#[derive(Clone, Copy, Debug)]
pub enum LaneDefault {
    /// None was set.
    Unset,
    /// It is no subscriber.
    Nothing,
    /// It is the subscriber of the number.
    To(u64),
}

/// A lane.
#[derive(Clone, Copy, Debug)]
pub enum Lane {
    /// It ended.
    Ended,
    /// It runs, with its own default.
    Running(LaneDefault),
}

// The lane of the number, running or ended.
pub(crate) fn lane_at(lanes: &[Lane], lane: u64) -> Option<Lane>
    ensures value { result ≡ slice_get lanes.now lane }
    ensures bound { IfSome result (λ _. lane < length lanes.now) }
{
    match lanes.get(lane as usize) {
        None => None,
        Some(value) => Some(*value),
    }
}
