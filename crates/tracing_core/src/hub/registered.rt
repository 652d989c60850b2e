//! What is known of a callsite.
ghost use Rattle.std.specs.Prelude.{◌≡◌, if◌then◌else◌, Some, None};
ghost use Rattle.tracing_core_fields.specs.PlainMetadata.{is_same_metadata};
ghost use Rattle.tracing_core_fields.specs.Metadata.{plain_metadata};
ghost use Rattle.tracing_core_fields.specs.requests.Calls.{Asked};
ghost use Rattle.tracing_core_fields.specs.requests.Steady.{IsReal};
ghost use Rattle.tracing_core.specs.Commands.{known, AnswerGives, AskGives, new_callsite};

use crate::hub::parts::{RegisteredCallsite, RegisteredSubscriber};
use crate::hub::subscribers::index_of;
use tracing_core_fields::{Callsite, Interest, LevelFilter, Metadata, Subscriber};
use tracing_core_moments::At;

// What is known without asking.
fn known_answer(greatest: LevelFilter, level: LevelFilter, interest: Interest) -> Option<bool>
    ensures { result ≡ known greatest level interest }
{
    if greatest < level || interest.is_never() {
        Some(false)
    } else if interest.is_always() {
        Some(true)
    } else {
        None
    }
}

// Asks the subscriber of the number, where it lives.
pub(crate) fn ask_one<S: Subscriber>(
    subscribers: &mut [RegisteredSubscriber<S>],
    serial: Option<u64>,
    metadata: &Metadata<'_>,
    at: At,
) -> bool
    ensures { AskGives ⟦<S as Subscriber>⟧ (plain_metadata metadata.now) at serial subscribers.old result
        subscribers.new }
{
    let Some(serial) = serial else {
        return false;
    };
    let Some(index) = index_of(subscribers, serial) else {
        return false;
    };
    let registered = &mut subscribers[index];
    registered.subscriber.enabled(metadata, at)
}

impl<C: Callsite> RegisteredCallsite<C> {
    // The callsite as it comes.
    pub(crate) fn new(callsite: C) -> RegisteredCallsite<C>
        ensures row { result ≡ new_callsite ⟦<C as Callsite>⟧ callsite }
        ensures real { IsReal (C.metadata_of callsite) }
    {
        let metadata = callsite.metadata();
        let identifier = metadata.callsite().0;
        let level = LevelFilter::from_level(*metadata.level());
        RegisteredCallsite {
            callsite,
            identifier,
            level,
            interest: Interest::never(),
        }
    }

    pub(crate) fn identifier(&self) -> u64
        ensures { result ≡ self.now.identifier }
    {
        self.identifier
    }

    pub(crate) fn interest(&self) -> Interest
        ensures { result ≡ self.now.interest }
    {
        self.interest
    }

    pub(crate) fn into_callsite(self) -> C
        ensures { result ≡ self.callsite }
    {
        self.callsite
    }

    // The kept interest, where the metadata is this.
    pub(crate) fn interest_where(&self, metadata: &Metadata<'_>) -> Option<Interest>
        ensures { result ≡ (if is_same_metadata (C.metadata_of self.now.callsite) (plain_metadata metadata.now) then
            Some self.now.interest else None) }
    {
        let own = self.callsite.metadata();
        if own == *metadata {
            Some(self.interest)
        } else {
            None
        }
    }

    // What is known, or else what the subscriber of the number says. Where there is none, nothing is wanted.
    pub(crate) fn answer<S: Subscriber>(
        &self,
        subscribers: &mut [RegisteredSubscriber<S>],
        serial: Option<u64>,
        greatest: LevelFilter,
        at: At,
    ) -> bool
        ensures { AnswerGives ⟦<S as Subscriber>⟧ ⟦<C as Callsite>⟧ self.now at
            (known greatest self.now.level self.now.interest) serial subscribers.old result subscribers.new }
    {
        if serial.is_none() {
            return false;
        }
        match known_answer(greatest, self.level, self.interest) {
            Some(answer) => answer,
            None => {
                let metadata = self.callsite.metadata();
                ask_one(subscribers, serial, &metadata, at)
            }
        }
    }
}
