//! What subscribers say of a callsite before it makes anything.
ghost use Rattle.std.specs.Prelude.{◌≡◌};
ghost use Rattle.tracing_core_fields.specs.requests.Interests.{says_never, says_sometimes, says_always, common, CommonInterestLaw};
ghost use Rattle.tracing_core_fields.specs.declared.requests.interest.InterestInner.TheVariants.{Never, Sometimes, Always};

use std::marker::Model;

/// The three interests.
#[derive(Clone, Copy, Debug, PartialEq, Eq)]
pub enum InterestInner {
    /// Nothing of the callsite is enabled.
    Never,
    /// The subscriber wants to be asked each time.
    Sometimes,
    /// All of the callsite is enabled.
    Always,
}

/// What a subscriber says of a callsite before it makes anything: it is never enabled, it is always
/// enabled, or the subscriber wants to be asked each time.
#[derive(Clone, Copy, Debug)]
pub struct Interest(InterestInner);

impl Model for Interest {
    ghost use Rattle.tracing_core_fields.specs.declared.requests.interest.InterestInner.{InterestInner};

    ghost Value = { InterestInner };

    ghost view = { λ interest. interest.0 };

    ghost inverse = { λ inner. record { 0 = inner } };
}

impl Interest {
    /// Nothing of the callsite is enabled.
    pub const fn never() -> Interest
        ensures { result ≡ Never }
    {
        Interest(InterestInner::Never)
    }

    /// The subscriber wants to be asked each time.
    pub const fn sometimes() -> Interest
        ensures { result ≡ Sometimes }
    {
        Interest(InterestInner::Sometimes)
    }

    /// All of the callsite is enabled.
    pub const fn always() -> Interest
        ensures { result ≡ Always }
    {
        Interest(InterestInner::Always)
    }

    /// Whether nothing of the callsite is enabled.
    pub const fn is_never(&self) -> bool
        ensures { result ≡ says_never self.now }
    {
        matches!(self.0, InterestInner::Never)
    }

    /// Whether the subscriber wants to be asked each time.
    pub const fn is_sometimes(&self) -> bool
        ensures { result ≡ says_sometimes self.now }
    {
        matches!(self.0, InterestInner::Sometimes)
    }

    /// Whether all of the callsite is enabled.
    pub const fn is_always(&self) -> bool
        ensures { result ≡ says_always self.now }
    {
        matches!(self.0, InterestInner::Always)
    }

    /// The common interest of two subscribers: what both say, and sometimes where they differ.
    pub fn common(self, other: Interest) -> Interest
        ensures { result ≡ common self other }
    {
        match (self.0, other.0) {
            (InterestInner::Never, InterestInner::Never) => Interest::never(),
            (InterestInner::Always, InterestInner::Always) => Interest::always(),
            (_, _) => Interest::sometimes(),
        }
    }
}

/// The interest that is this one of the three.
pub const fn interest_of(inner: InterestInner) -> Interest
    ensures { result ≡ inner }
{
    Interest(inner)
}

/// Which of the three the interest is.
pub const fn inner_of(interest: Interest) -> InterestInner
    ensures { result ≡ interest }
{
    interest.0
}

/// The common interest of many subscribers depends neither on their order nor on how often each is asked.
pub fn interests_join_in_any_order()
    ensures { CommonInterestLaw }
{}

impl PartialEq for Interest {
    ghost use Rattle.std.specs.Cmp.{partial_equiv_from_equiv};
    ghost use Rattle.std.specs.Prelude.{◌↔◌, IsTrue};
    ghost use Rattle.tracing_core_fields.specs.requests.Interests.{is_same_interest, is_same_interest-equivalence};

    ghost eq = { is_same_interest };

    ghost laws = { partial_equiv_from_equiv is_same_interest-equivalence };

    fn eq(&self, other: &Interest) -> bool
        ensures test { result ≡ is_same_interest self.now other.now }
        ensures same { IsTrue result ↔ (self.now ≡ other.now) }
    {
        match (self.0, other.0) {
            (InterestInner::Never, InterestInner::Never) => true,
            (InterestInner::Sometimes, InterestInner::Sometimes) => true,
            (InterestInner::Always, InterestInner::Always) => true,
            (_, _) => false,
        }
    }
}

impl Eq for Interest {
    ghost use Rattle.tracing_core_fields.specs.requests.Interests.{is_same_interest-equivalence};

    ghost laws = { is_same_interest-equivalence };
}
