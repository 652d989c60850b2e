//! A handle to the subscriber of a hub, as the subscriber itself is given one.
ghost use Rattle.std.specs.Prelude.{◌≡◌};

use std::marker::Model;

/// A handle that doesn't keep its subscriber in the hub. A contract sees it as the number of the
/// subscriber.
#[derive(Clone, Copy, Debug)]
pub struct WeakDispatch {
    serial: Option<u64>,
}

impl Model for WeakDispatch {
    ghost use Rattle.std.specs.Prelude.{ℕ, Option};

    ghost Value = { Option ℕ };

    ghost view = { λ dispatch. dispatch.serial };

    ghost inverse = { λ serial. record { serial = serial } };
}

/// The handle to the subscriber of the number. A hub makes handles of its own subscribers alone.
pub fn weak_of(serial: Option<u64>) -> WeakDispatch
    ensures { result ≡ serial }
{
    WeakDispatch { serial }
}

/// The number of the subscriber that the handle leads to.
pub fn serial_of(dispatch: &WeakDispatch) -> Option<u64>
    ensures { result ≡ dispatch.now }
{
    dispatch.serial
}
