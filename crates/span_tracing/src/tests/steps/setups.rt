// Setup calls.
use super::*;
use tracing_core_fields::Interest;

#[test]
fn lanes_are_numbered_from_zero(rt: HostRuntime) -> Result<(), Fail> {
    let mut parts: TraceParts<Keeper> = TraceParts::new(rt.alloc());
    assert_eq!(rt; parts.thread(None, 7)?, 0);
    assert_eq!(rt; parts.thread(None, 7)?, 1);
    assert!(rt; parts.stack(0).is_none());
    assert_eq!(rt; parts.given(), 0);
    Ok(())
}

#[test]
fn nobody_is_interested_before_there_is_a_stack(rt: HostRuntime) -> Result<(), Fail> {
    let alloc = rt.alloc();
    let mut parts: TraceParts<Keeper> = TraceParts::new(alloc);
    let metadata = metadata_of("made", Kind::SPAN, two_fields());
    let taken = parts.register(Identifier(OUTER), &metadata);
    assert!(rt; matches!(taken, Ok(interest) if interest.is_never()));
    assert!(rt; parts.add_stack(Keeper::new(alloc, None)).is_ok());
    let again = parts.register(Identifier(OUTER), &metadata);
    assert_eq!(rt; again, Ok(Interest::sometimes()));
    Ok(())
}

#[test]
fn an_identifier_is_taken_once(rt: HostRuntime) -> Result<(), Fail> {
    let mut parts = parts_of(rt.alloc(), None)?;
    let same = metadata_of("made", Kind::SPAN, two_fields());
    let other = metadata_of("other", Kind::SPAN, two_fields());
    let again = parts.register(Identifier(OUTER), &same);
    assert_eq!(rt; again, Ok(Interest::sometimes()));
    let taken = parts.register(Identifier(OUTER), &other);
    assert_eq!(rt; taken, Err(Refusal::Taken));
    Ok(())
}

#[test]
fn the_default_is_set_once(rt: HostRuntime) -> Result<(), Fail> {
    let alloc = rt.alloc();
    let mut bare: TraceParts<Keeper> = TraceParts::new(alloc);
    let unknown = Reply::Refused(Refusal::UnknownStack);
    assert_eq!(rt; bare.set_global_default(0), unknown);
    let mut parts = parts_of(alloc, None)?;
    assert_eq!(rt; parts.set_global_default(1), unknown);
    assert_eq!(rt; parts.set_global_default(0), Reply::Done);
    assert_eq!(rt; parts.set_global_default(1), unknown);
    let set = Reply::Refused(Refusal::GlobalSet);
    assert_eq!(rt; parts.set_global_default(0), set);
    Ok(())
}
