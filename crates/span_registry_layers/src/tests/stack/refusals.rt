// What is refused, and leaves a stack as it was.
use super::*;

/// Why no stack was made of outputs with these keys, which come back in order.
fn refused(alloc: Global, keys: &[u32]) -> Result<StackError, Fail> {
    let mut outputs = Vec::new(alloc);
    for key in keys {
        push_output(&mut outputs, *key, new_counter(), LevelFilter::INFO)?;
    }
    let Err(StackRefusal { error, outputs }) = Stack::new(alloc, outputs) else {
        return Err("a refusal")?;
    };
    if outputs.len() != keys.len() {
        return Err("an output is lost")?;
    }
    for (output, key) in outputs.iter().zip(keys.iter()) {
        if output.key.0 != *key {
            return Err("outputs are not in order")?;
        }
    }
    Ok(error)
}

#[test]
fn a_stack_wants_outputs_with_keys_of_their_own(rt: HostRuntime) -> Result<(), Fail> {
    let alloc = rt.alloc();
    assert!(rt; refused(alloc, &[])? == StackError::NoOutput);
    assert!(rt; refused(alloc, &[1, 2, 1])? == StackError::EqualKeys);
    let mut keys = [0; 65];
    for key in 0..65 {
        keys[key] = key as u32;
    }
    assert!(rt; refused(alloc, &keys)? == StackError::TooManyFilters);
    Ok(())
}

#[test]
fn surface_refused_outputs_come_back(rt: HostRuntime) -> Result<(), Fail> {
    assert!(rt; refused(rt.alloc(), &[])? == StackError::NoOutput);
    assert!(rt; refused(rt.alloc(), &[7, 9, 7])? == StackError::EqualKeys);
    // Equal keys too, but there are too many first.
    assert!(rt; refused(rt.alloc(), &[3; 65])? == StackError::TooManyFilters);
    Ok(())
}

#[test]
fn a_stack_has_room_for_64_outputs(rt: HostRuntime) -> Result<(), Fail> {
    let alloc = rt.alloc();
    let mut outputs = Vec::new(alloc);
    for key in 0..64 {
        push_output(&mut outputs, key, new_journal(alloc), LevelFilter::INFO)?;
    }
    let mut stack = Stack::new(alloc, outputs).ok().ok_or("a stack")?;
    tell(&mut stack, "app", Level::INFO)?;
    assert!(rt; was_told(&stack, 63, &[(Notification::Happened, 0)]));
    Ok(())
}

#[test]
fn an_unknown_span_is_refused(rt: HostRuntime) -> Result<(), Fail> {
    let mut stack = stack_of(rt.alloc(), LevelFilter::INFO, LevelFilter::INFO)?;
    let gone = make(&mut stack, "app", Level::INFO)?.ok_or("a span")?;
    assert!(rt; stack.try_close(gone, PLACE) && !stack.try_close(gone, PLACE));
    assert!(rt; stack.enter(&gone, PLACE) == Err(RequestError::UnknownSpan));
    assert!(rt; stack.clone_span(&gone) == Err(RequestError::UnknownSpan));
    let metadata = event_metadata("app", Level::INFO);
    let values = no_values(&metadata);
    let recorded = stack.record(&gone, &Record::new(values), PLACE);
    assert!(rt; recorded == Err(RequestError::UnknownSpan));
    let followed = stack.record_follows_from(&gone, &gone, PLACE);
    assert!(rt; followed == Err(RequestError::UnknownSpan));
    let event = Event::new_child_of(Some(gone), &metadata, values);
    assert!(rt; stack.event(&event, PLACE) == Err(RequestError::UnknownParent));
    let attributes = Attributes::child_of(gone, &metadata, values);
    assert!(rt; stack.new_span(&attributes, PLACE) == Err(RequestError::UnknownParent));
    assert!(rt;
        was_told(
            &stack,
            0,
            &[(Notification::Made, 1), (Notification::Closed, 1)]
        )
    );
    Ok(())
}
