//! Entries by the numbers of their subscribers, and their handles.
ghost use Rattle.std.specs.Prelude.{◌≡◌, ◌==◌, ◌<◌, true, false, nat_le, length, MatchOption};
ghost use Rattle.std.specs.List.{AllWithin, HoldsAt};
ghost use Rattle.tracing_core.specs.Handles.{is_of, hold_refusal, held, given_back, most, one_less, one_more};
ghost use Rattle.tracing_core_fields.specs.requests.Refusals.{or_refused, or_same};

use crate::hub::parts::RegisteredSubscriber;
use crate::refusal::HandleError;

// The index of the subscriber of the number.
pub(crate) fn index_of<S>(subscribers: &[RegisteredSubscriber<S>], serial: u64) -> Option<usize>
    ensures { MatchOption result (AllWithin (λ e. is_of serial e ≡ false) subscribers.now 0 (length subscribers.now)) (λ
        i.
        (i < length subscribers.now) × HoldsAt (λ e. is_of serial e ≡ true) subscribers.now i ×
        AllWithin (λ e. is_of serial e ≡ false) subscribers.now 0 i) }
{
    let mut index = 0;
    for subscriber in subscribers {
        if subscriber.serial == serial {
            return Some(index);
        }
        index += 1;
    }
    None
}

impl<S> RegisteredSubscriber<S> {
    // Whether it has as many handles as can be counted.
    pub(crate) fn is_full(&self) -> bool
        ensures { result ≡ (self.now.handles == most) }
    {
        self.handles == u64::MAX
    }

    fn add_handle(&mut self)
        requires { ¬ (self.old.handles ≡ most) }
        ensures { self.new ≡ one_more self.old }
    {
        self.handles += 1;
    }

    // Whether one handle is left.
    fn has_last_handle(&self) -> bool
        ensures { result ≡ nat_le self.now.handles 1 }
    {
        self.handles <= 1
    }

    fn drop_handle(&mut self)
        requires { 1 < self.old.handles }
        ensures { self.new ≡ one_less self.old }
    {
        self.handles -= 1;
    }

    fn into_subscriber(self) -> S
        ensures { result ≡ self.subscriber }
    {
        self.subscriber
    }
}

// Counts one handle more.
pub(crate) fn take_handle<S>(
    subscribers: &mut [RegisteredSubscriber<S>],
    serial: Option<u64>,
) -> Result<(), HandleError>
    ensures answer { result ≡ or_refused (hold_refusal serial subscribers.old) tt }
    ensures subscribers { subscribers.new ≡ or_same (hold_refusal serial subscribers.old) subscribers.old (held serial
        subscribers.old) }
{
    let Some(serial) = serial else {
        return Ok(());
    };
    let Some(index) = index_of(subscribers, serial) else {
        return Err(HandleError::Unknown);
    };
    if subscribers[index].is_full() {
        return Err(HandleError::TooMany);
    }
    subscribers[index].add_handle();
    Ok(())
}

// Counts one handle less, and hands back the subscriber whose last one it was.
pub(crate) fn give_back<S>(
    subscribers: &mut Vec<RegisteredSubscriber<S>>,
    serial: Option<u64>,
) -> Option<S>
    ensures { (result, subscribers.new.items) ≡ given_back serial subscribers.old.items }
{
    let Some(serial) = serial else {
        return None;
    };
    let Some(index) = index_of(subscribers, serial) else {
        return None;
    };
    if subscribers[index].has_last_handle() {
        return Some(subscribers.remove(index).into_subscriber());
    }
    subscribers[index].drop_handle();
    None
}
