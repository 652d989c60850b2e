//! Lending subscribers.
ghost use Rattle.std.specs.Borrow.{sem};
ghost use Rattle.std.specs.Option.{option_map};
ghost use Rattle.std.specs.Prelude.{◌≡◌};
ghost use Rattle.tracing_core.specs.SubscriberChange.{AnswersAlike, ChangeGives, ChangesBy};
ghost use Rattle.tracing_core.specs.Handles.{hold_refusal};
ghost use Rattle.tracing_core.specs.CachePreservation.{PreservesCaches, PreservesUnlentCaches};
ghost use Rattle.tracing_core.specs.HandleSubscribers.{living_of, lent_to, IsIndexOrEnd, IsIndexToLend};
ghost use Rattle.tracing_core.specs.SubscriberLoan.{LendsSubscriber};

use crate::hub::Hub;
use crate::hub::parts::RegisteredSubscriber;
use crate::hub::subscribers::index_of;
use crate::refusal::HandleError;
use tracing_core_fields::{Callsite, Subscriber, WeakDispatch, serial_of};

impl<S, C> Hub<S, C> {
    /// The subscriber that the handle leads to.
    pub fn subscriber(&self, dispatch: &WeakDispatch) -> Option<&S>
        ensures { option_map (λ subscriber. subscriber.now) result
            ≡ option_map (λ kept. kept.subscriber) (living_of dispatch.now self.now.subscribers) }
    {
        let index = index_or_end(&self.subscribers, serial_of(dispatch));
        match self.subscribers.get(index) {
            None => None,
            Some(registered) => Some(&registered.subscriber),
        }
    }

    /// The subscribers that some handle leads to, in the order in which they were added.
    pub fn subscribers(&self) -> &[RegisteredSubscriber<S>]
        ensures { result.now ≡ self.now.subscribers }
    {
        self.subscribers.as_slice()
    }

    // Lends the subscriber, and marks it.
    fn lend(&mut self, dispatch: &WeakDispatch) -> Option<&mut S>
        ensures lent { option_map (λ subscriber. subscriber.now) result
            ≡ option_map (λ kept. kept.subscriber) (living_of dispatch.now self.old.subscribers) }
        ensures* ends { sem 𝓛 (LendsSubscriber S.row C.row self.entry dispatch.now result) }
    {
        let index = index_to_lend(&self.subscribers, serial_of(dispatch));
        match self.subscribers.get_mut(index) {
            None => None,
            Some(registered) => {
                registered.lent = true;
                Some(&mut registered.subscriber)
            }
        }
    }
}

impl<S: Subscriber, C: Callsite> Hub<S, C> {
    /// Lends the subscriber that the handle leads to for writing, and marks it as lent: what is kept of it
    /// counts for nothing until the next rebuild, refresh or `add`.
    pub fn subscriber_mut(&mut self, dispatch: &WeakDispatch) -> Option<&mut S>
        ensures lent { option_map (λ subscriber. subscriber.now) result
            ≡ option_map (λ kept. kept.subscriber) (living_of dispatch.now self.old.subscribers) }
        // The cache stays valid of the other subscribers that aren't lent, whatever the lent one becomes.
        ensures others { (w : S) → PreservesUnlentCaches ⟦<S as Subscriber>⟧ ⟦<C as Callsite>⟧ self.old
            (record self.old { subscribers = lent_to dispatch.now w self.old.subscribers }) }
        ensures* ends { sem 𝓛 (LendsSubscriber S.row C.row self.entry dispatch.now result) }
    {
        self.lend(dispatch)
    }

    /// Hands the subscriber that the handle leads to, for writing, to `change`, and answers what that does, or
    /// `None` where there is none. The subscriber doesn't count as lent: this is for a `change` that leaves as
    /// they are what the subscriber says of its interests, its hint, and that it is consistent. Then what is
    /// kept stays right. For any other change take [`Hub::subscriber_mut`]. Today's [`Hub::refresh`] asks it again;
    /// no clause promises that.
    pub fn with_subscriber_mut<T, F: FnOnce(&mut S) -> T>(
        &mut self,
        dispatch: &WeakDispatch,
        change: F,
    ) -> Option<T>
        requires { F.IsAlwaysCallable change }
        ensures gives { ChangeGives F.FnOnce change dispatch.now self.old.subscribers result self.new.subscribers }
        ensures rest { self.new ≡ record self.old { subscribers = self.new.subscribers } }
        // Where the closure leaves interests, hint and consistency of each subscriber as they are, a valid cache stays valid.
        ensures keeps { ChangesBy F.FnOnce change (AnswersAlike ⟦<S as Subscriber>⟧) →
            PreservesCaches ⟦<S as Subscriber>⟧ ⟦<C as Callsite>⟧ self.old self.new }
    {
        change_at(&mut self.subscribers, serial_of(dispatch), change)
    }
}

// Calls the closure with the subscriber of the number, where it lives.
fn change_at<S, T, F: FnOnce(&mut S) -> T>(
    subscribers: &mut [RegisteredSubscriber<S>],
    serial: Option<u64>,
    change: F,
) -> Option<T>
    requires { F.IsAlwaysCallable change }
    ensures { ChangeGives F.FnOnce change serial subscribers.old result subscribers.new }
{
    let index = index_or_end(subscribers, serial);
    if index < subscribers.len() {
        let registered = &mut subscribers[index];
        registered.unsure = true;
        Some(change(&mut registered.subscriber))
    } else {
        None
    }
}

// The index of the subscriber of the number, or the end where there is none.
pub(crate) fn index_or_end<S>(subscribers: &[RegisteredSubscriber<S>], serial: Option<u64>) -> usize
    ensures { IsIndexOrEnd serial subscribers.now result }
{
    let Some(serial) = serial else {
        return subscribers.len();
    };
    match index_of(subscribers, serial) {
        None => subscribers.len(),
        Some(index) => index,
    }
}

// Why there can't be one more handle to the subscriber of the number.
pub(crate) fn hold_refusal<S>(
    subscribers: &[RegisteredSubscriber<S>],
    serial: Option<u64>,
) -> Option<HandleError>
    ensures { result ≡ hold_refusal serial subscribers.now }
{
    if serial.is_none() {
        return None;
    }
    match subscribers.get(index_or_end(subscribers, serial)) {
        None => Some(HandleError::Unknown),
        Some(registered) if registered.is_full() => Some(HandleError::TooMany),
        Some(_) => None,
    }
}

// The same index, by what lending makes of it: a loan is proved where its clause names the change.
fn index_to_lend<S>(subscribers: &[RegisteredSubscriber<S>], serial: Option<u64>) -> usize
    ensures { IsIndexToLend serial subscribers.now result }
{
    index_or_end(subscribers, serial)
}
