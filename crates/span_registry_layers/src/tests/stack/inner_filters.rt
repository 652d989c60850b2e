// Filters in the layers of outputs.
use super::*;

type Inner<L> = Filtered<Filtered<L, LevelFilter>, LevelFilter>;

/// What the inner layer of the output was told, and the number of its filter.
fn inner_heard(
    stack: &Stack<Inner<Journaling>>,
    output: usize,
    told: &[(Notification, u64)],
    number: u8,
) -> bool {
    let Some(output) = stack.output(output) else {
        return false;
    };
    let inner = output.inner();
    match inner.id() {
        None => false,
        Some(id) => id.index() == number && inner.inner().observer.is(told),
    }
}

#[test]
fn a_filter_in_an_output_is_told_what_both_pass(rt: HostRuntime) -> Result<(), Fail> {
    let alloc = rt.alloc();
    let mut outputs = Vec::new(alloc);
    let (debug, info, trace) = (LevelFilter::DEBUG, LevelFilter::INFO, LevelFilter::TRACE);
    push_output(&mut outputs, 1, new_journal(alloc).with_filter(info), debug)?;
    push_output(&mut outputs, 2, new_journal(alloc).with_filter(trace), info)?;
    let mut stack = Stack::new(alloc, outputs).ok().ok_or("a stack")?;
    tell(&mut stack, "app", Level::INFO)?;
    tell(&mut stack, "app", Level::DEBUG)?;
    let passed = make(&mut stack, "app", Level::INFO)?.ok_or("a span")?;
    let refused = make(&mut stack, "app", Level::DEBUG)?.ok_or("a span")?;
    assert!(rt; stack.try_close(refused, PLACE) && stack.try_close(passed, PLACE));
    let both = [
        (Notification::Happened, 0),
        (Notification::Made, 1),
        (Notification::Closed, 1),
    ];
    assert!(rt; inner_heard(&stack, 0, &both, 1) && inner_heard(&stack, 1, &both, 3));
    Ok(())
}

/// So many outputs that pass INFO, each with a layer that passes WARN.
fn inner_outputs(alloc: Global, count: u32) -> Result<Vec<Output<Inner<Counter>>>, Fail> {
    let mut outputs = Vec::new(alloc);
    for key in 0..count {
        let layer = new_counter().with_filter(LevelFilter::WARN);
        push_output(&mut outputs, key, layer, LevelFilter::INFO)?;
    }
    Ok(outputs)
}

/// Whether a stack is made of so many outputs, each with a filter in its layer. They are too many where it is
/// not, and come back.
fn is_taken(alloc: Global, count: u32) -> Result<bool, Fail> {
    match Stack::new(alloc, inner_outputs(alloc, count)?) {
        Ok(_) => Ok(true),
        Err(StackRefusal { error, outputs }) => {
            if error != StackError::TooManyFilters || outputs.len() != count as usize {
                return Err("another refusal")?;
            }
            Ok(false)
        }
    }
}

#[test]
fn filters_in_layers_count(rt: HostRuntime) -> Result<(), Fail> {
    assert!(rt; is_taken(rt.alloc(), 32)? && !is_taken(rt.alloc(), 33)?);
    Ok(())
}

/// Makes a span of this level and closes it.
fn pass_by(stack: &mut Stack<Inner<Counter>>, level: Level) -> Result<bool, Fail> {
    let span = make(stack, "app", level)?.ok_or("a span")?;
    Ok(stack.try_close(span, PLACE))
}

#[test]
fn surface_filters_in_outputs(rt: HostRuntime) -> Result<(), Fail> {
    let outputs = inner_outputs(rt.alloc(), 32)?;
    let mut stack = Stack::new(rt.alloc(), outputs).ok().ok_or("a stack")?;
    assert!(rt; pass_by(&mut stack, Level::INFO)? && pass_by(&mut stack, Level::WARN)?);
    let inner = stack.output(31).ok_or("an output")?.inner();
    assert!(rt; inner.inner().observer.told == 3 && inner.id().is_some());
    assert!(rt; !is_taken(rt.alloc(), 33)?);
    Ok(())
}
