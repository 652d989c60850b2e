//! Copies of steps, and which steps say the same.

use crate::tests::common::{MONDAY, TUESDAY, number_field, text_field};
use span_tracing_skeleton::{
    EnabledCall, EventCall, FollowsCall, NewSpanCall, Parent, RecordCall, SpanCall, SpanName, Step,
};
use std::alloc::Global;
use std::num::NonZeroU64;
use std::test::Fail;
use tracing_core_fields::{FieldValue, Identifier, OwnedValue};

/// A call on the span with this number.
fn on_span(number: u64) -> Result<SpanCall, Fail> {
    let id = NonZeroU64::new(number).ok_or("an id")?;
    Ok(SpanCall {
        lane: 1,
        moment: MONDAY,
        span: Some(SpanName { stack: 0, id }),
    })
}

/// An event, a new span and a record with a text and a number.
fn steps_with_values(alloc: Global, text: &str) -> Result<Vec<Step>, Fail> {
    let call = on_span(3)?;
    let parent = match call.span {
        None => Parent::Root,
        Some(name) => Parent::Explicit(name),
    };
    Ok(vec![in alloc;
        Step::Event(EventCall {
            lane: call.lane,
            moment: call.moment,
            callsite: Identifier(5),
            parent,
            values: vec![in alloc; text_field(alloc, 0, text)?, number_field(1, 2)]?
        }),
        Step::NewSpan(NewSpanCall {
            lane: call.lane,
            moment: call.moment,
            callsite: Identifier(5),
            parent,
            values: vec![in alloc; text_field(alloc, 0, text)?, number_field(1, 2)]?
        }),
        Step::Record(RecordCall {
            lane: call.lane,
            moment: call.moment,
            span: call.span,
            values: vec![in alloc; text_field(alloc, 0, text)?, number_field(1, 2)]?
        }),
    ]?)
}

/// A step of each kind.
fn steps_of_each_kind(alloc: Global) -> Result<Vec<Step>, Fail> {
    let call = on_span(3)?;
    let mut steps = steps_with_values(alloc, "a")?;
    for step in [
        Step::SetGlobalDefault(0),
        Step::Enabled(EnabledCall {
            lane: 1,
            moment: MONDAY,
            callsite: Identifier(5),
        }),
        Step::RecordFollowsFrom(FollowsCall {
            lane: 1,
            moment: MONDAY,
            span: call.span,
            follows: call.span,
        }),
        Step::Enter(call),
        Step::Exit(call),
        Step::CloneSpan(call),
        Step::TryClose(call),
    ] {
        steps.push(step)?;
    }
    Ok(steps)
}

#[test]
fn a_copy_is_the_same_as_its_step_alone(rt: HostRuntime) -> Result<(), Fail> {
    let steps = steps_of_each_kind(rt.alloc())?;
    for (number, step) in steps.iter().enumerate() {
        let copy = step.clone()?;
        for (other, given) in steps.iter().enumerate() {
            assert_eq!(rt; copy.is_same(given), number == other);
        }
    }
    for (step, other) in steps.iter().zip(&steps_with_values(rt.alloc(), "b")?) {
        assert!(rt; !step.is_same(other));
    }
    Ok(())
}

#[test]
fn an_absent_value_says_nothing(rt: HostRuntime) -> Result<(), Fail> {
    let call = |moment, values| {
        Step::Record(RecordCall {
            lane: 0,
            moment,
            span: None,
            values,
        })
    };
    let absent = FieldValue {
        field: 4,
        value: OwnedValue::Empty,
    };
    let longer = call(MONDAY, vec![in rt.alloc(); absent, number_field(1, 2)]?);
    let shorter = call(MONDAY, vec![in rt.alloc(); number_field(1, 2)]?);
    let later = call(TUESDAY, vec![in rt.alloc(); number_field(1, 2)]?);
    assert!(rt; longer.is_same(&shorter) && shorter.is_same(&longer));
    assert!(rt; !later.is_same(&shorter));
    Ok(())
}
