//! Carrying out commands.
ghost use Rattle.std.specs.Prelude.{◌≡◌, IfErr, IfOk, OnErr};
ghost use Rattle.tracing_core.specs.CachePreservation.{PreservesCaches, PreservesLivingCaches};
ghost use Rattle.tracing_core_fields.specs.requests.Lists.{Every};
ghost use Rattle.tracing_core.specs.CommandReplies.{CommandGives, CommandKeeps, CommandsGive, GateRuns, GivesNothingUp, RegisterRuns};

use crate::hub::Hub;
use crate::run::book::Book;
use crate::run::command::{Command, CommandError, CommandReply, NoRoom};
use tracing_core_fields::{Callsite, Identifier, Subscriber, serial_of};
use tracing_core_moments::At;

impl<S: Subscriber, C: Callsite> Hub<S, C> {
    fn run_register(&mut self, callsite: C) -> CommandReply<S, C>
        ensures gives { RegisterRuns ⟦<S as Subscriber>⟧ ⟦<C as Callsite>⟧ self.old callsite result self.new }
        ensures keeps { PreservesCaches ⟦<S as Subscriber>⟧ ⟦<C as Callsite>⟧ self.old self.new }
    {
        match self.register(callsite) {
            Ok(interest) => CommandReply::Registered(interest),
            Err(error) => CommandReply::Refused(CommandError::Register(error)),
        }
    }

    fn run_gate(&mut self, identifier: Identifier, at: At) -> CommandReply<S, C>
        ensures gives { GateRuns ⟦<S as Subscriber>⟧ ⟦<C as Callsite>⟧ self.old identifier.0 at result self.new }
        ensures keeps { PreservesCaches ⟦<S as Subscriber>⟧ ⟦<C as Callsite>⟧ self.old self.new }
    {
        CommandReply::Wanted(self.gate(identifier, at))
    }

    /// Carries out one command, and replies to it.
    #[tactic(auto, using(crate::proofs::CachePreservation::itself_keeps))]
    pub fn carry_out(&mut self, book: &mut Book, command: Command<S, C>) -> CommandReply<S, C>
        ensures gives { CommandGives ⟦<S as Subscriber>⟧ ⟦<C as Callsite>⟧ self.old book.old command result self.new
            book.new }
        // A sound hub stays sound, and its cache stays valid of each subscriber of which it was, or, where the command may release
        // one, of those who live on.
        ensures keeps { CommandKeeps ⟦<S as Subscriber>⟧ ⟦<C as Callsite>⟧ command self.old self.new }
    {
        match command {
            Command::Thread => self.run_lane(),
            Command::EndThread(lane) => self.run_end_lane(lane),
            Command::Add(subscriber) => self.on_add(book, subscriber),
            Command::Register(callsite) => self.run_register(callsite),
            Command::RebuildInterestCache => {
                self.rebuild_interest_cache();
                CommandReply::Done
            }
            Command::Refresh => {
                self.refresh();
                CommandReply::Done
            }
            Command::MaxLevel => CommandReply::Level(self.max_level()),
            Command::SetGlobalDefault(handle) => self.on_set_global_default(book, handle),
            Command::HasBeenSet => CommandReply::Set(self.has_been_set()),
            Command::SetDefault(lane, handle) => self.on_set_default(book, lane, handle),
            Command::Reset(lane, guard) => self.on_reset(book, lane, guard),
            Command::CloneHandle(handle) => self.on_clone(book, handle),
            Command::Downgrade(handle) => self.on_downgrade(book, handle),
            Command::Upgrade(weak) => self.on_upgrade(book, weak),
            Command::Release(handle) => self.on_release(book, handle),
            Command::Gate(identifier, at) => self.run_gate(identifier, at),
            Command::Interest(identifier) => CommandReply::Kept(self.interest(identifier)),
            Command::Reached(lane) => CommandReply::Reached(serial_of(&self.reached(lane))),
        }
    }

    /// Carries out commands in order, and replies to each. The commands come back where there is no memory
    /// for the replies; then nothing changed.
    pub fn run(
        &mut self,
        book: &mut Book,
        commands: Vec<Command<S, C>>,
    ) -> Result<Vec<CommandReply<S, C>>, NoRoom<S, C>>
        ensures ran { IfOk result (λ replies. CommandsGive ⟦<S as Subscriber>⟧ ⟦<C as Callsite>⟧ self.old book.old
            commands.items replies.items self.new book.new) }
        // Where there is no memory for the replies, the commands come back.
        ensures back { IfErr result (λ room. room.0.items ≡ commands.items) }
        // Where there is no memory for the replies, the hub stays as it was.
        ensures hub { OnErr result (self.new ≡ self.old) }
        // Where there is no memory for the replies, the book stays as it was.
        ensures book { OnErr result (book.new ≡ book.old) }
        // A sound hub stays sound, and its cache stays valid of the subscribers that live on.
        ensures keeps { PreservesLivingCaches ⟦<S as Subscriber>⟧ ⟦<C as Callsite>⟧ self.old self.new }
        // Where no command may release a subscriber, the cache stays valid of each subscriber of which it was.
        ensures all { Every GivesNothingUp commands.items →
            PreservesCaches ⟦<S as Subscriber>⟧ ⟦<C as Callsite>⟧ self.old self.new }
    {
        let Ok(mut replies) = Vec::with_capacity(*commands.allocator(), commands.len()) else {
            return Err(NoRoom(commands));
        };
        for command in commands {
            replies.push_reserved(self.carry_out(book, command));
        }
        Ok(replies)
    }
}
