//! Commands that name what a book numbers, each with what it leaves of the book.
ghost use Rattle.tracing_core.specs.CachePreservation.{PreservesCaches, PreservesLivingCaches};
ghost use Rattle.tracing_core.specs.CommandReplies.{CommandGives};
ghost use Rattle.tracing_core.specs.declared.run.command.Command.TheVariants.{Add, SetGlobalDefault, SetDefault, Reset, CloneHandle};
ghost use Rattle.tracing_core.specs.declared.run.command.Command.TheVariants.{Downgrade, Upgrade, Release};

use crate::hub::Hub;
use crate::run::book::Book;
use crate::run::command::CommandReply;
use tracing_core_fields::{Callsite, Subscriber};

impl<S: Subscriber, C: Callsite> Hub<S, C> {
    pub(crate) fn on_add(&mut self, book: &mut Book, subscriber: S) -> CommandReply<S, C>
        ensures gives { CommandGives ⟦<S as Subscriber>⟧ ⟦<C as Callsite>⟧ self.old book.old (Add subscriber) result
            self.new book.new }
        ensures keeps { PreservesCaches ⟦<S as Subscriber>⟧ ⟦<C as Callsite>⟧ self.old self.new }
    {
        self.run_add(&mut book.handles, subscriber)
    }

    pub(crate) fn on_set_global_default(
        &mut self,
        book: &mut Book,
        handle: Option<u64>,
    ) -> CommandReply<S, C>
        ensures gives { CommandGives ⟦<S as Subscriber>⟧ ⟦<C as Callsite>⟧ self.old book.old (SetGlobalDefault handle)
            result self.new book.new }
        ensures keeps { PreservesCaches ⟦<S as Subscriber>⟧ ⟦<C as Callsite>⟧ self.old self.new }
    {
        self.run_set_global_default(&book.handles, handle)
    }

    pub(crate) fn on_set_default(
        &mut self,
        book: &mut Book,
        lane: u64,
        handle: Option<u64>,
    ) -> CommandReply<S, C>
        ensures gives { CommandGives ⟦<S as Subscriber>⟧ ⟦<C as Callsite>⟧ self.old book.old (SetDefault lane handle)
            result self.new book.new }
        ensures keeps { PreservesCaches ⟦<S as Subscriber>⟧ ⟦<C as Callsite>⟧ self.old self.new }
    {
        self.run_set_default(&book.handles, &mut book.guards, lane, handle)
    }

    pub(crate) fn on_reset(&mut self, book: &mut Book, lane: u64, guard: u64) -> CommandReply<S, C>
        ensures gives { CommandGives ⟦<S as Subscriber>⟧ ⟦<C as Callsite>⟧ self.old book.old (Reset lane guard) result
            self.new book.new }
        ensures keeps { PreservesLivingCaches ⟦<S as Subscriber>⟧ ⟦<C as Callsite>⟧ self.old self.new }
    {
        self.run_reset(&mut book.guards, lane, guard)
    }

    pub(crate) fn on_clone(&mut self, book: &mut Book, handle: u64) -> CommandReply<S, C>
        ensures gives { CommandGives ⟦<S as Subscriber>⟧ ⟦<C as Callsite>⟧ self.old book.old (CloneHandle handle) result
            self.new book.new }
        ensures keeps { PreservesCaches ⟦<S as Subscriber>⟧ ⟦<C as Callsite>⟧ self.old self.new }
    {
        self.run_clone(&mut book.handles, handle)
    }

    #[tactic(auto, using(crate::proofs::CachePreservation::itself_keeps))]
    pub(crate) fn on_downgrade(&mut self, book: &mut Book, handle: u64) -> CommandReply<S, C>
        ensures gives { CommandGives ⟦<S as Subscriber>⟧ ⟦<C as Callsite>⟧ self.old book.old (Downgrade handle) result
            self.new book.new }
        ensures keeps { PreservesCaches ⟦<S as Subscriber>⟧ ⟦<C as Callsite>⟧ self.old self.new }
    {
        self.run_downgrade(&book.handles, &mut book.weak, handle)
    }

    pub(crate) fn on_upgrade(&mut self, book: &mut Book, weak: u64) -> CommandReply<S, C>
        ensures gives { CommandGives ⟦<S as Subscriber>⟧ ⟦<C as Callsite>⟧ self.old book.old (Upgrade weak) result
            self.new book.new }
        ensures keeps { PreservesCaches ⟦<S as Subscriber>⟧ ⟦<C as Callsite>⟧ self.old self.new }
    {
        self.run_upgrade(&book.weak, &mut book.handles, weak)
    }

    pub(crate) fn on_release(&mut self, book: &mut Book, handle: u64) -> CommandReply<S, C>
        ensures gives { CommandGives ⟦<S as Subscriber>⟧ ⟦<C as Callsite>⟧ self.old book.old (Release handle) result
            self.new book.new }
        ensures keeps { PreservesLivingCaches ⟦<S as Subscriber>⟧ ⟦<C as Callsite>⟧ self.old self.new }
    {
        self.run_release(&mut book.handles, handle)
    }
}
