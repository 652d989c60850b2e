//! Handles to the subscribers of a hub.
ghost use Rattle.std.specs.Prelude.{◌≡◌, None};

use std::marker::Model;
use tracing_core_fields::{WeakDispatch, weak_of};

/// A handle to a subscriber of a hub, or to none.
///
/// The hub counts the handles that it gave. [`Hub::release`](crate::Hub::release) takes one back; a handle
/// that is let go otherwise keeps its subscriber in the hub. A contract sees a handle as the number of its
/// subscriber.
#[derive(Debug, Drop)]
pub struct Dispatch {
    serial: Option<u64>,
}

impl Model for Dispatch {
    ghost use Rattle.std.specs.Prelude.{ℕ, Option};

    ghost Value = { Option ℕ };

    ghost view = { λ dispatch. dispatch.serial };
}

impl Dispatch {
    /// The handle to no subscriber.
    pub fn none() -> Dispatch
        ensures { result ≡ None }
    {
        Dispatch { serial: None }
    }

    pub(crate) fn new(serial: Option<u64>) -> Dispatch
        ensures { result ≡ serial }
    {
        Dispatch { serial }
    }

    /// The handle to the same subscriber that doesn't keep it in the hub. It can be copied, and requests are made by it.
    pub fn downgrade(&self) -> WeakDispatch
        ensures { result ≡ self.now }
    {
        weak_of(self.serial)
    }

    pub(crate) fn serial(&self) -> Option<u64>
        ensures { result ≡ self.now }
    {
        self.serial
    }
}
