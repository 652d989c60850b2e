// Stacks whose filters are closures, combined filters or boxes.
use super::*;
use crate::{And, FilterFn};

/// Whether the first output hears what is INFO and of `app`, and the second nothing.
fn hears_app<F: Filter>(stack: &mut Stack<Journaled<F>>) -> Result<bool, Fail> {
    tell(stack, "app", Level::INFO)?;
    tell(stack, "other", Level::INFO)?;
    tell(stack, "app", Level::TRACE)?;
    let made = make(stack, "app", Level::INFO)?.ok_or("a span")?;
    let dropped = make(stack, "other", Level::INFO)?;
    stack.enter(&made, PLACE)?;
    stack.exit(&made, PLACE);
    let closed = stack.try_close(made, PLACE);
    let told = [
        (Notification::Happened, 0),
        (Notification::Made, 1),
        (Notification::Entered, 1),
        (Notification::Left, 1),
        (Notification::Closed, 1),
    ];
    Ok(closed && dropped.is_none() && was_told(stack, 0, &told) && was_told(stack, 1, &[]))
}

#[test]
fn a_stack_of_closures(rt: HostRuntime) -> Result<(), Fail> {
    let alloc = rt.alloc();
    let app: MetadataTest = Box::new(alloc, |metadata: &Metadata<'_>| -> bool {
        metadata.target() == "app" && *metadata.level() == Level::INFO
    })?;
    let nobody: MetadataTest = Box::new(alloc, |metadata: &Metadata<'_>| -> bool {
        metadata.target() == ""
    })?;
    let mut stack = stack_of(alloc, filter_fn(app), filter_fn(nobody))?;
    assert!(rt; hears_app(&mut stack)?);
    Ok(())
}

#[test]
fn a_stack_of_levels_and_closures(rt: HostRuntime) -> Result<(), Fail> {
    let alloc = rt.alloc();
    let app: MetadataTest = Box::new(alloc, |metadata: &Metadata<'_>| -> bool {
        metadata.target() == "app"
    })?;
    let nobody: MetadataTest = Box::new(alloc, |metadata: &Metadata<'_>| -> bool {
        metadata.target() == ""
    })?;
    let first: And<LevelFilter, FilterFn> = And::new(LevelFilter::INFO, filter_fn(app));
    let mut stack = stack_of(alloc, first, And::new(LevelFilter::INFO, filter_fn(nobody)))?;
    assert!(rt; hears_app(&mut stack)?);
    Ok(())
}

#[test]
fn a_stack_of_boxes(rt: HostRuntime) -> Result<(), Fail> {
    let alloc = rt.alloc();
    let both = And::new(LevelFilter::INFO, LevelFilter::DEBUG);
    let first: Box<dyn Filter> = Box::new(alloc, both)?;
    let second: Box<dyn Filter> = Box::new(alloc, LevelFilter::OFF)?;
    let mut stack = stack_of(alloc, first, second)?;
    tell(&mut stack, "app", Level::INFO)?;
    tell(&mut stack, "app", Level::DEBUG)?;
    assert!(rt; was_told(&stack, 0, &[(Notification::Happened, 0)]) && was_told(&stack, 1, &[]));
    Ok(())
}

#[test]
fn a_stack_of_levels(rt: HostRuntime) -> Result<(), Fail> {
    let mut stack = stack_of(rt.alloc(), LevelFilter::INFO, LevelFilter::OFF)?;
    assert!(rt; !hears_app(&mut stack)?);
    Ok(())
}
