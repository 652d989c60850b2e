// Commands by number.
use crate::tests::hub::everything::Everything;
use crate::tests::hub::owned_callsite::OwnedCallsite;
use crate::*;
use std::alloc::{AllocError, Global};
use std::test::Fail;
use tracing_core_fields::{Identifier, Interest, Level, LevelFilter};
use tracing_core_moments::At;

type AnyReply = CommandReply<Everything, OwnedCallsite>;

fn moment(lane: u64) -> At {
    At {
        lane,
        seconds: 0,
        nanoseconds: 0,
    }
}

fn setting_up(alloc: Global) -> Result<Vec<Command<Everything, OwnedCallsite>>, AllocError> {
    let mut commands = Vec::new(alloc);
    commands.push(Command::Thread)?;
    commands.push(Command::Register(OwnedCallsite::new(3, Level::INFO)))?;
    commands.push(Command::Add(Everything::new(1, Interest::always())))?;
    commands.push(Command::Register(OwnedCallsite::new(3, Level::INFO)))?;
    commands.push(Command::Register(OwnedCallsite::new(3, Level::WARN)))?;
    commands.push(Command::SetDefault(0, Some(0)))?;
    commands.push(Command::SetDefault(0, Some(9)))?;
    commands.push(Command::SetDefault(7, Some(9)))?;
    commands.push(Command::Reached(0))?;
    commands.push(Command::Gate(Identifier(3), moment(0)))?;
    commands.push(Command::Gate(Identifier(3), moment(7)))?;
    commands.push(Command::MaxLevel)?;
    Ok(commands)
}

#[test]
fn commands_set_up_a_hub(rt: HostRuntime) -> Result<(), Fail> {
    let mut hub = Hub::new(rt.alloc());
    let mut book = Book::new(rt.alloc());
    let replies = hub
        .run(&mut book, setting_up(rt.alloc())?)
        .ok()
        .ok_or("memory")?;
    assert_eq!(rt; replies.len(), 12);
    assert!(rt; matches!(replies.get(0), Some(AnyReply::Lane(0))));
    assert!(rt;
        matches!(replies.get(1), Some(AnyReply::Registered(interest)) if interest.is_never())
    );
    assert!(rt; matches!(replies.get(2), Some(AnyReply::Handle(0))));
    assert!(rt;
        matches!(replies.get(3), Some(AnyReply::Registered(interest)) if interest.is_always())
    );
    assert!(rt;
        matches!(
            replies.get(4),
            Some(AnyReply::Refused(CommandError::Register(RegisterError::Taken(_))))
        )
    );
    assert!(rt; matches!(replies.get(5), Some(AnyReply::Guard(0))));
    assert!(rt;
        matches!(
            replies.get(6),
            Some(AnyReply::Refused(CommandError::UnknownHandle))
        )
    );
    assert!(rt;
        matches!(
            replies.get(7),
            Some(AnyReply::Refused(CommandError::SetDefault(SetDefaultError::UnknownLane)))
        )
    );
    assert!(rt; matches!(replies.get(8), Some(AnyReply::Reached(Some(0)))));
    assert!(rt; matches!(replies.get(9), Some(AnyReply::Wanted(Some(true)))));
    assert!(rt; matches!(replies.get(10), Some(AnyReply::Wanted(Some(false)))));
    assert!(rt;
        matches!(replies.get(11), Some(AnyReply::Level(level)) if *level == LevelFilter::TRACE)
    );
    assert!(rt; book.handle(0).is_some());
    assert!(rt; book.handle(1).is_none());
    Ok(())
}

fn giving_up(alloc: Global) -> Result<Vec<Command<Everything, OwnedCallsite>>, AllocError> {
    let mut commands = Vec::new(alloc);
    commands.push(Command::Thread)?;
    commands.push(Command::Add(Everything::new(1, Interest::always())))?;
    commands.push(Command::CloneHandle(0))?;
    commands.push(Command::Downgrade(1))?;
    commands.push(Command::Release(1))?;
    commands.push(Command::Release(1))?;
    commands.push(Command::SetDefault(0, Some(0)))?;
    commands.push(Command::Release(0))?;
    commands.push(Command::Upgrade(0))?;
    commands.push(Command::Release(2))?;
    commands.push(Command::Reset(1, 0))?;
    commands.push(Command::Reset(0, 0))?;
    commands.push(Command::Reset(0, 0))?;
    commands.push(Command::Upgrade(0))?;
    Ok(commands)
}

#[test]
fn commands_give_up_what_they_made(rt: HostRuntime) -> Result<(), Fail> {
    let mut hub = Hub::new(rt.alloc());
    let mut book = Book::new(rt.alloc());
    let replies = hub
        .run(&mut book, giving_up(rt.alloc())?)
        .ok()
        .ok_or("memory")?;
    assert!(rt; matches!(replies.get(2), Some(AnyReply::Handle(1))));
    assert!(rt; matches!(replies.get(3), Some(AnyReply::Weak(0))));
    assert!(rt; matches!(replies.get(4), Some(AnyReply::Released(None))));
    assert!(rt;
        matches!(
            replies.get(5),
            Some(AnyReply::Refused(CommandError::UnknownHandle))
        )
    );
    assert!(rt; matches!(replies.get(6), Some(AnyReply::Guard(0))));
    assert!(rt; matches!(replies.get(7), Some(AnyReply::Released(None))));
    assert!(rt; matches!(replies.get(8), Some(AnyReply::Handle(2))));
    assert!(rt; matches!(replies.get(9), Some(AnyReply::Released(None))));
    assert!(rt;
        matches!(
            replies.get(10),
            Some(AnyReply::Refused(CommandError::UnknownLane))
        )
    );
    assert!(rt;
        matches!(
            replies.get(11),
            Some(AnyReply::Released(Some(subscriber))) if subscriber.name() == 1
        )
    );
    assert!(rt;
        matches!(
            replies.get(12),
            Some(AnyReply::Refused(CommandError::WrongLane))
        )
    );
    assert!(rt; matches!(replies.get(13), Some(AnyReply::Gone)));
    Ok(())
}

fn the_rest(alloc: Global) -> Result<Vec<Command<Everything, OwnedCallsite>>, AllocError> {
    let mut commands = Vec::new(alloc);
    commands.push(Command::HasBeenSet)?;
    commands.push(Command::SetGlobalDefault(None))?;
    commands.push(Command::SetGlobalDefault(None))?;
    commands.push(Command::HasBeenSet)?;
    commands.push(Command::RebuildInterestCache)?;
    commands.push(Command::Refresh)?;
    commands.push(Command::Interest(Identifier(3)))?;
    commands.push(Command::Thread)?;
    commands.push(Command::EndThread(0))?;
    commands.push(Command::EndThread(0))?;
    Ok(commands)
}

#[test]
fn commands_tell_what_is_kept(rt: HostRuntime) -> Result<(), Fail> {
    let mut hub = Hub::new(rt.alloc());
    let mut book = Book::new(rt.alloc());
    let replies = hub
        .run(&mut book, the_rest(rt.alloc())?)
        .ok()
        .ok_or("memory")?;
    assert!(rt; matches!(replies.get(0), Some(AnyReply::Set(false))));
    assert!(rt; matches!(replies.get(1), Some(AnyReply::Done)));
    assert!(rt;
        matches!(
            replies.get(2),
            Some(AnyReply::Refused(CommandError::SetGlobalDefault(
                SetGlobalDefaultError::AlreadySet
            )))
        )
    );
    assert!(rt; matches!(replies.get(3), Some(AnyReply::Set(true))));
    assert!(rt; matches!(replies.get(4), Some(AnyReply::Done)));
    assert!(rt; matches!(replies.get(5), Some(AnyReply::Done)));
    assert!(rt; matches!(replies.get(6), Some(AnyReply::Kept(None))));
    assert!(rt; matches!(replies.get(7), Some(AnyReply::Lane(0))));
    assert!(rt; matches!(replies.get(8), Some(AnyReply::Released(None))));
    assert!(rt;
        matches!(
            replies.get(9),
            Some(AnyReply::Refused(CommandError::UnknownLane))
        )
    );
    Ok(())
}
