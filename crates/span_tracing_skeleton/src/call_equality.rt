//! Whether two calls say the same. An absent value says nothing.
ghost use Rattle.std.specs.Prelude.{◌≡◌, ◌↔◌, IsTrue};
ghost use Rattle.span_tracing_skeleton.specs.PlainData.{any_step, event_request, record_request, span_request};

use crate::call::{
    EventCall, FollowsCall, NewSpanCall, Parent, RecordCall, SpanCall, SpanName, Step,
};
use tracing_core_fields::are_same_values;

#[tactic(auto, using(crate::proofs::SpanNames::one_name))]
fn is_same_name(one: &SpanName, other: &SpanName) -> bool
    ensures { IsTrue result ↔ one.now ≡ other.now }
{
    one.stack == other.stack && one.id.get() == other.id.get()
}

fn is_same_span(one: &Option<SpanName>, other: &Option<SpanName>) -> bool
    ensures { IsTrue result ↔ one.now ≡ other.now }
{
    match (one, other) {
        (None, None) => true,
        (Some(a), Some(b)) => is_same_name(a, b),
        (_, _) => false,
    }
}

fn is_same_parent(one: &Parent, other: &Parent) -> bool
    ensures { IsTrue result ↔ one.now ≡ other.now }
{
    match (one, other) {
        (Parent::Contextual, Parent::Contextual) | (Parent::Root, Parent::Root) => true,
        (Parent::Explicit(a), Parent::Explicit(b)) => is_same_name(a, b),
        (_, _) => false,
    }
}

fn is_same_call(one: &SpanCall, other: &SpanCall) -> bool
    ensures { IsTrue result ↔ one.now ≡ other.now }
{
    one.lane == other.lane && one.moment == other.moment && is_same_span(&one.span, &other.span)
}

fn is_same_link(one: &FollowsCall, other: &FollowsCall) -> bool
    ensures { IsTrue result ↔ one.now ≡ other.now }
{
    one.lane == other.lane
        && one.moment == other.moment
        && is_same_span(&one.span, &other.span)
        && is_same_span(&one.follows, &other.follows)
}

impl EventCall {
    /// Whether both say the same.
    pub fn is_same(&self, other: &EventCall) -> bool
        ensures { IsTrue result ↔ event_request self.now ≡ event_request other.now }
    {
        self.lane == other.lane
            && self.moment == other.moment
            && self.callsite == other.callsite
            && is_same_parent(&self.parent, &other.parent)
            && are_same_values(self.values.as_slice(), other.values.as_slice())
    }
}

impl NewSpanCall {
    /// Whether both say the same.
    pub fn is_same(&self, other: &NewSpanCall) -> bool
        ensures { IsTrue result ↔ span_request self.now ≡ span_request other.now }
    {
        self.lane == other.lane
            && self.moment == other.moment
            && self.callsite == other.callsite
            && is_same_parent(&self.parent, &other.parent)
            && are_same_values(self.values.as_slice(), other.values.as_slice())
    }
}

impl RecordCall {
    /// Whether both say the same.
    pub fn is_same(&self, other: &RecordCall) -> bool
        ensures { IsTrue result ↔ record_request self.now ≡ record_request other.now }
    {
        self.lane == other.lane
            && self.moment == other.moment
            && is_same_span(&self.span, &other.span)
            && are_same_values(self.values.as_slice(), other.values.as_slice())
    }
}

impl Step {
    /// Whether both say the same: they are one step, once the values that are absent are left out.
    pub fn is_same(&self, other: &Step) -> bool
        ensures { IsTrue result ↔ any_step self.now ≡ any_step other.now }
    {
        match (self, other) {
            (Step::SetGlobalDefault(a), Step::SetGlobalDefault(b)) => *a == *b,
            (Step::Event(a), Step::Event(b)) => a.is_same(b),
            (Step::Enabled(a), Step::Enabled(b)) => *a == *b,
            (Step::NewSpan(a), Step::NewSpan(b)) => a.is_same(b),
            (Step::Record(a), Step::Record(b)) => a.is_same(b),
            (Step::RecordFollowsFrom(a), Step::RecordFollowsFrom(b)) => is_same_link(a, b),
            (Step::Enter(a), Step::Enter(b)) => is_same_call(a, b),
            (Step::Exit(a), Step::Exit(b)) => is_same_call(a, b),
            (Step::CloneSpan(a), Step::CloneSpan(b)) => is_same_call(a, b),
            (Step::TryClose(a), Step::TryClose(b)) => is_same_call(a, b),
            (Step::SetDefault(a), Step::SetDefault(b)) => *a == *b,
            (Step::ResetDefault(a), Step::ResetDefault(b)) => *a == *b,
            (Step::CloneHandle(a), Step::CloneHandle(b)) => *a == *b,
            (Step::Release(a), Step::Release(b)) => *a == *b,
            (Step::Set(a), Step::Set(b)) => *a == *b,
            (Step::Queue(a), Step::Queue(b)) => *a == *b,
            _ => false,
        }
    }
}
