// A list of commands, with a reply each.
use crate::surface_tracing_core::{event_metadata, moment};
use crate::{
    Book, Command, CommandReply, DefaultCallsite, Hub, Identifier, Metadata, NoSubscriber,
};
use std::alloc::{AllocError, Global};
use std::test::Fail;

type Asked<'a> = Command<NoSubscriber, DefaultCallsite<'a>>;

fn setting_up<'a>(alloc: Global, event: &'a Metadata<'a>) -> Result<Vec<Asked<'a>>, AllocError> {
    let mut commands = Vec::new(alloc);
    commands.push(Command::Thread)?;
    commands.push(Command::Add(NoSubscriber::new()))?;
    commands.push(Command::Register(DefaultCallsite::new(event)))?;
    commands.push(Command::Register(DefaultCallsite::new(event)))?;
    commands.push(Command::RebuildInterestCache)?;
    commands.push(Command::Refresh)?;
    commands.push(Command::MaxLevel)?;
    commands.push(Command::HasBeenSet)?;
    commands.push(Command::SetGlobalDefault(Some(0)))?;
    commands.push(Command::SetDefault(0, None))?;
    commands.push(Command::Reached(0))?;
    commands.push(Command::Interest(Identifier(3)))?;
    Ok(commands)
}

fn giving_up<'a>(alloc: Global) -> Result<Vec<Asked<'a>>, AllocError> {
    let at = moment(0);
    let mut commands = Vec::new(alloc);
    commands.push(Command::Gate(Identifier(3), at))?;
    commands.push(Command::CloneHandle(0))?;
    commands.push(Command::Downgrade(0))?;
    commands.push(Command::Upgrade(0))?;
    commands.push(Command::Release(1))?;
    commands.push(Command::Reset(0, 0))?;
    commands.push(Command::EndThread(0))?;
    Ok(commands)
}

#[test]
fn surface_commands(rt: HostRuntime) -> Result<(), Fail> {
    let alloc = rt.alloc();
    let event = event_metadata(3);
    let mut hub = Hub::new(alloc);
    let mut book = Book::new(alloc);
    let first = hub
        .run(&mut book, setting_up(alloc, &event)?)
        .ok()
        .ok_or("memory")?;
    assert!(rt; first.len() == 12 && matches!(first.get(10), Some(CommandReply::Reached(None))));
    let second = hub.run(&mut book, giving_up(alloc)?).ok().ok_or("memory")?;
    assert!(rt; second.len() == 7 && matches!(second.get(3), Some(CommandReply::Handle(2))));
    assert!(rt; book.handle(2).is_some() && book.handle(1).is_none());
    let last = hub.carry_out(&mut book, Command::Release(2));
    assert!(rt; matches!(last, CommandReply::Released(None)));
    Ok(())
}
