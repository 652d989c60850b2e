// What outputs are told.
use super::*;

#[test]
fn each_output_is_told_what_its_filter_passes(rt: HostRuntime) -> Result<(), Fail> {
    let mut stack = stack_of(rt.alloc(), LevelFilter::INFO, LevelFilter::DEBUG)?;
    tell(&mut stack, "app", Level::DEBUG)?;
    assert!(rt; was_told(&stack, 0, &[]) && was_told(&stack, 1, &[(Notification::Happened, 0)]));
    assert!(rt; stack.passed(0) == Some(false) && stack.passed(1) == Some(true));
    tell(&mut stack, "app", Level::TRACE)?;
    assert!(rt; was_told(&stack, 0, &[]) && was_told(&stack, 1, &[(Notification::Happened, 0)]));
    assert!(rt; stack.passed(0) == Some(false) && stack.passed(1) == Some(false));
    assert!(rt; make(&mut stack, "app", Level::TRACE)?.is_none());
    assert!(rt; stack.told(1) == Some(false) && stack.told(2).is_none());
    assert!(rt; stack.passed(2).is_none() && stack.output(2).is_none());
    Ok(())
}

/// Of each of three outputs, whether it passed the last request, and whether none was told of it.
fn marks<F: Filter>(stack: &Stack<Journaled<F>>) -> ([Option<bool>; 3], bool) {
    let marks = [stack.passed(0), stack.passed(1), stack.passed(2)];
    let quiet = [stack.told(0), stack.told(1), stack.told(2)] == [Some(false); 3];
    (marks, quiet)
}

#[test]
fn a_question_marks_each_output_and_tells_none(rt: HostRuntime) -> Result<(), Fail> {
    let mut outputs = Vec::new(rt.alloc());
    for (key, filter) in [
        (1, LevelFilter::INFO),
        (2, LevelFilter::OFF),
        (3, LevelFilter::DEBUG),
    ] {
        push_output(&mut outputs, key, new_journal(rt.alloc()), filter)?;
    }
    let mut stack = Stack::new(rt.alloc(), outputs).ok().ok_or("a stack")?;
    let info = event_metadata("app", Level::INFO);
    assert!(rt; stack.enabled(&info, PLACE));
    let some = [Some(true), Some(false), Some(true)];
    assert_eq!(rt; marks(&stack), (some, true));
    // An event after it is asked anew, and so is a question after an event.
    tell(&mut stack, "app", Level::DEBUG)?;
    let last = [Some(false), Some(false), Some(true)];
    assert_eq!(rt; marks(&stack), (last, false));
    assert!(rt; stack.enabled_asking(&info, PLACE));
    assert_eq!(rt; marks(&stack), (some, true));
    assert!(rt; make(&mut stack, "app", Level::DEBUG)?.is_some());
    assert_eq!(rt; marks(&stack), (last, false));
    // Above the hint nobody is asked, and no mark is left.
    assert!(rt; !stack.enabled(&event_metadata("app", Level::TRACE), PLACE));
    assert_eq!(rt; marks(&stack), ([Some(false); 3], true));
    assert!(rt; stack.ignores(Level::TRACE));
    assert!(rt; was_told(&stack, 0, &[]) && was_told(&stack, 1, &[]));
    Ok(())
}

#[test]
fn surface_span_calls(rt: HostRuntime) -> Result<(), Fail> {
    let mut stack = stack_of(rt.alloc(), LevelFilter::INFO, LevelFilter::DEBUG)?;
    let span = make(&mut stack, "app", Level::DEBUG)?.ok_or("a span")?;
    let other = make(&mut stack, "app", Level::INFO)?.ok_or("a span")?;
    assert!(rt; was_told(&stack, 0, &[(Notification::Made, 2)]));
    assert!(rt; stack.sees(0, &span) == Some(false) && stack.sees(1, &span) == Some(true));
    assert!(rt; stack.sees(0, &other) == Some(true) && stack.sees(2, &other).is_none());
    let metadata = span_metadata("s", Level::DEBUG);
    stack.record(&span, &Record::new(no_values(&metadata)), PLACE)?;
    stack.record_follows_from(&other, &span, PLACE)?;
    stack.enter(&span, PLACE)?;
    assert!(rt; matches!(stack.current_span(0), CurrentSpan::Inside(_)));
    stack.exit(&span, PLACE);
    assert!(rt; matches!(stack.current_span(0), CurrentSpan::Outside));
    assert!(rt; stack.clone_span(&span)? == span && !stack.try_close(span, PLACE));
    assert!(rt; stack.try_close(span, PLACE) && stack.registry().is_open(&other));
    assert!(rt; stack.sees(1, &span) == Some(false));
    let told = [
        (Notification::Made, 1),
        (Notification::Made, 2),
        (Notification::Recorded, 1),
        (Notification::Followed, 2),
        (Notification::Entered, 1),
        (Notification::Left, 1),
        (Notification::Closed, 1),
    ];
    assert!(rt; was_told(&stack, 0, &[(Notification::Made, 2)]) && was_told(&stack, 1, &told));
    Ok(())
}

#[test]
fn a_close_is_told_by_the_own_verdict_child_first(rt: HostRuntime) -> Result<(), Fail> {
    let mut stack = stack_of(rt.alloc(), LevelFilter::INFO, LevelFilter::TRACE)?;
    let parent = make(&mut stack, "app", Level::DEBUG)?.ok_or("a span")?;
    stack.enter(&parent, PLACE)?;
    let child = make(&mut stack, "app", Level::INFO)?.ok_or("a span")?;
    assert!(rt; !stack.try_close(parent, PLACE));
    stack.exit(&parent, PLACE);
    assert!(rt; stack.try_close(child, PLACE) && !stack.registry().is_open(&parent));
    assert!(rt;
        was_told(
            &stack,
            0,
            &[(Notification::Made, 2), (Notification::Closed, 2)]
        )
    );
    let told = [
        (Notification::Made, 1),
        (Notification::Entered, 1),
        (Notification::Made, 2),
        (Notification::Left, 1),
        (Notification::Closed, 2),
        (Notification::Closed, 1),
    ];
    assert!(rt; was_told(&stack, 1, &told));
    Ok(())
}

#[test]
fn a_swapped_filter_decides_from_then_on(rt: HostRuntime) -> Result<(), Fail> {
    let mut stack = stack_of(rt.alloc(), LevelFilter::INFO, LevelFilter::OFF)?;
    let span = make(&mut stack, "app", Level::INFO)?.ok_or("a span")?;
    let mut filter = LevelFilter::OFF;
    stack.swap_filter(0, &mut filter)?;
    assert!(rt; filter == LevelFilter::INFO && make(&mut stack, "app", Level::INFO)?.is_none());
    stack.swap_filter(1, &mut filter)?;
    assert!(rt; stack.swap_filter(2, &mut filter).is_err());
    tell(&mut stack, "app", Level::INFO)?;
    assert!(rt; stack.try_close(span, PLACE));
    assert!(rt;
        was_told(
            &stack,
            0,
            &[(Notification::Made, 1), (Notification::Closed, 1)]
        )
    );
    assert!(rt; was_told(&stack, 1, &[(Notification::Happened, 0)]));
    Ok(())
}

#[test]
fn a_lent_output_is_changed(rt: HostRuntime) -> Result<(), Fail> {
    let mut stack = stack_of(rt.alloc(), LevelFilter::OFF, LevelFilter::OFF)?;
    assert!(rt; stack.stack_mut(2).is_none());
    match stack.stack_mut(1) {
        None => {}
        Some(output) => *output.filter_mut() = LevelFilter::INFO,
    }
    tell(&mut stack, "app", Level::INFO)?;
    assert!(rt; was_told(&stack, 0, &[]) && was_told(&stack, 1, &[(Notification::Happened, 0)]));
    Ok(())
}

#[test]
fn outputs_come_out_in_order(rt: HostRuntime) -> Result<(), Fail> {
    let stack = stack_of(rt.alloc(), LevelFilter::INFO, LevelFilter::OFF)?;
    let mut outputs = stack.into_outputs();
    let first = outputs.next().ok_or("an output")?;
    let (_journal, filter) = first.output.into_parts();
    assert!(rt; filter == LevelFilter::INFO);
    let last = outputs.next().ok_or("an output")?;
    let (_journal, filter) = last.output.into_parts();
    assert!(rt; filter == LevelFilter::OFF && outputs.next().is_none());
    Ok(())
}
