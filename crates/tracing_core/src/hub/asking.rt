//! Asking subscribers of callsites and for their hints.
ghost use Rattle.std.specs.Prelude.{◌≡◌, false, IfSome, Some, None, max, slice_get};
ghost use Rattle.tracing_core_fields.specs.Metadata.{plain_metadata};
ghost use Rattle.tracing_core.specs.InterestsAndHints.{Each, Keeps, Answers, Gives, Joins, InCommon, Tells, GivesHint, Raises};
ghost use Rattle.tracing_core.specs.InterestsAndHints.{CallsiteAsked, CallsitesAsked, level_of};
ghost use Rattle.tracing_core_fields.specs.requests.Interests.{joined, settled};

use crate::hub::parts::{RegisteredCallsite, RegisteredSubscriber};
use tracing_core_fields::{Callsite, Interest, LevelFilter, Metadata, Subscriber};

// The common interest with those before, where there were any.
fn join(before: Option<Interest>, answer: Interest) -> Option<Interest>
    ensures { result ≡ joined before answer }
{
    match before {
        None => Some(answer),
        Some(interest) => Some(interest.common(answer)),
    }
}

// The interest that is kept: never where nobody was asked.
fn settle(interest: Option<Interest>) -> Interest
    ensures { result ≡ settled interest }
{
    match interest {
        None => Interest::never(),
        Some(interest) => interest,
    }
}

// Keeps an answer at its index, behind those before it where there is memory.
fn keep(answers: &mut Vec<Interest>, index: usize, answer: Interest)
    ensures { Keeps index answer answers.old.items answers.new.items }
{
    if index < answers.len() {
        answers[index] = answer;
    } else if index == answers.len() {
        let _kept = answers.push(answer);
    }
}

impl<S: Subscriber> RegisteredSubscriber<S> {
    // Asks it of the callsite at the index.
    fn ask(&mut self, index: usize, metadata: &Metadata<'_>) -> Interest
        ensures { Answers ⟦<S as Subscriber>⟧ (plain_metadata metadata.now) index result self.old self.new }
    {
        let answer = self.subscriber.register_callsite(metadata);
        keep(&mut self.interests, index, answer);
        answer
    }

    // Its answer of the callsite at the index: a kept one counts, unless all are asked.
    fn answer(&mut self, all: bool, index: usize, metadata: &Metadata<'_>) -> Interest
        ensures { Gives ⟦<S as Subscriber>⟧ all (plain_metadata metadata.now) index result self.old self.new }
    {
        if all {
            return self.ask(index, metadata);
        }
        match self.kept_answer(index) {
            None => self.ask(index, metadata),
            Some(answer) => answer,
        }
    }

    fn join(
        &mut self,
        all: bool,
        index: usize,
        metadata: &Metadata<'_>,
        before: Option<Interest>,
    ) -> Option<Interest>
        ensures { Joins ⟦<S as Subscriber>⟧ all (plain_metadata metadata.now) index before self.old self.new result }
    {
        let answer = self.answer(all, index, metadata);
        join(before, answer)
    }
}

impl<S> RegisteredSubscriber<S> {
    // Whether what it answered before counts no more.
    fn is_changed(&self) -> bool
        ensures { result ≡ false → self.now.lent ≡ false }
    {
        self.lent || self.unsure
    }

    // What it answered of the callsite at the index, where that counts.
    fn kept_answer(&self, index: usize) -> Option<Interest>
        ensures { IfSome result (λ k. (self.now.lent ≡ false) × (slice_get self.now.interests index ≡ Some k)) }
    {
        if self.is_changed() {
            return None;
        }
        match self.interests.get(index) {
            None => None,
            Some(answer) => Some(*answer),
        }
    }

    // What it answered for its hint, where that counts.
    fn kept_hint(&self) -> Option<Option<LevelFilter>>
        ensures { IfSome result (λ top. (self.now.lent ≡ false) × (self.now.hint ≡ Some top)) }
    {
        if self.is_changed() { None } else { self.hint }
    }

    // Makes room for one more answer, and tells whether there is.
    fn reserve_answer(&mut self) -> bool
        ensures { self.new ≡ self.old }
    {
        self.interests.reserve(1).is_ok()
    }
}

// Makes room in each for one more answer, and tells whether there is.
pub(crate) fn reserve_answers<S>(subscribers: &mut [RegisteredSubscriber<S>]) -> bool
    ensures { subscribers.new ≡ subscribers.old }
{
    let mut found = true;
    for subscriber in subscribers.iter_mut() {
        if !subscriber.reserve_answer() {
            found = false;
        }
    }
    found
}

fn join_each<S: Subscriber>(
    all: bool,
    index: usize,
    subscribers: &mut [RegisteredSubscriber<S>],
    metadata: &Metadata<'_>,
) -> Option<Interest>
    ensures { Each (Joins ⟦<S as Subscriber>⟧ all (plain_metadata metadata.now) index) None subscribers.old
        subscribers.new result }
{
    let mut interest = None;
    for subscriber in subscribers.iter_mut() {
        interest = subscriber.join(all, index, metadata, interest);
    }
    interest
}

// The common interest of all in the callsite at the index, each of which gives its answer in order.
pub(crate) fn common_of<S: Subscriber>(
    all: bool,
    index: usize,
    subscribers: &mut [RegisteredSubscriber<S>],
    metadata: &Metadata<'_>,
) -> Interest
    ensures { InCommon ⟦<S as Subscriber>⟧ all (plain_metadata metadata.now) index subscribers.old subscribers.new
        result }
{
    let interest = join_each(all, index, subscribers, metadata);
    settle(interest)
}

// The same hint.
fn copy_of(hint: &Option<LevelFilter>) -> Option<LevelFilter>
    ensures { result ≡ hint.now }
{
    match hint {
        None => None,
        Some(level) => Some(*level),
    }
}

// The level that a hint lets through: an absent one counts as the most verbose.
fn top_of(hint: Option<LevelFilter>) -> LevelFilter
    ensures { result ≡ level_of hint }
{
    match hint {
        None => LevelFilter::TRACE,
        Some(level) => level,
    }
}

// The more verbose of the two.
fn higher(a: LevelFilter, b: LevelFilter) -> LevelFilter
    ensures { result ≡ max a b }
{
    if a < b { b } else { a }
}

impl<S: Subscriber> RegisteredSubscriber<S> {
    // Asks it for its hint. Then it doesn't count as lent.
    fn ask_hint(&mut self) -> Option<LevelFilter>
        ensures { Tells ⟦<S as Subscriber>⟧ result self.old self.new }
    {
        self.lent = false;
        self.unsure = false;
        let hint = self.subscriber.max_level_hint();
        self.hint = Some(copy_of(&hint));
        hint
    }

    // Its hint: a kept one counts, unless all are asked.
    fn hint(&mut self, all: bool) -> Option<LevelFilter>
        ensures { GivesHint ⟦<S as Subscriber>⟧ all result self.old self.new }
    {
        if all {
            return self.ask_hint();
        }
        match self.kept_hint() {
            None => self.ask_hint(),
            Some(hint) => hint,
        }
    }

    fn raise(&mut self, all: bool, before: LevelFilter) -> LevelFilter
        ensures { Raises ⟦<S as Subscriber>⟧ all before self.old self.new result }
    {
        let hint = self.hint(all);
        higher(before, top_of(hint))
    }
}

// The greatest level of all, each of which gives its hint in order. Then nobody counts as lent.
pub(crate) fn ask_hints<S: Subscriber>(
    all: bool,
    subscribers: &mut [RegisteredSubscriber<S>],
) -> LevelFilter
    ensures { Each (Raises ⟦<S as Subscriber>⟧ all) 0 subscribers.old subscribers.new result }
{
    let mut greatest = LevelFilter::OFF;
    for subscriber in subscribers.iter_mut() {
        greatest = subscriber.raise(all, greatest);
    }
    greatest
}

impl<C: Callsite> RegisteredCallsite<C> {
    // All give their answers of the callsite, which stands at the index, and it is told what they have in common.
    pub(crate) fn ask<S: Subscriber>(
        &mut self,
        all: bool,
        index: usize,
        subscribers: &mut [RegisteredSubscriber<S>],
    )
        ensures { CallsiteAsked ⟦<S as Subscriber>⟧ ⟦<C as Callsite>⟧ all index subscribers.old self.old self.new
            subscribers.new }
    {
        let interest = self.interest_of_all(all, index, subscribers);
        self.callsite.set_interest(interest);
        self.interest = interest;
    }

    fn interest_of_all<S: Subscriber>(
        &self,
        all: bool,
        index: usize,
        subscribers: &mut [RegisteredSubscriber<S>],
    ) -> Interest
        ensures { InCommon ⟦<S as Subscriber>⟧ all (C.metadata_of self.now.callsite) index subscribers.old
            subscribers.new result }
    {
        let metadata = self.callsite.metadata();
        common_of(all, index, subscribers, &metadata)
    }
}

// All give their answers of each callsite, in order.
pub(crate) fn ask_callsites<S: Subscriber, C: Callsite>(
    all: bool,
    subscribers: &mut [RegisteredSubscriber<S>],
    callsites: &mut [RegisteredCallsite<C>],
)
    ensures { CallsitesAsked ⟦<S as Subscriber>⟧ ⟦<C as Callsite>⟧ all subscribers.old callsites.old callsites.new
        subscribers.new }
{
    let mut index = 0;
    for callsite in callsites.iter_mut() {
        callsite.ask(all, index, subscribers);
        index += 1;
    }
}
