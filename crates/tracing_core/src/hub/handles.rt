//! Making further handles, and giving them back.
ghost use Rattle.std.specs.Prelude.{◌≡◌};
ghost use Rattle.tracing_core.specs.Defaults.{holding, upgrade_answer};
ghost use Rattle.tracing_core.specs.Handles.{hold_refusal, given_back};
ghost use Rattle.tracing_core_fields.specs.requests.Refusals.{or_refused, or_same};
ghost use Rattle.tracing_core.specs.CachePreservation.{PreservesCaches, PreservesLivingCaches};

use crate::dispatch::Dispatch;
use crate::hub::Hub;
use crate::hub::lending::hold_refusal;
use crate::hub::subscribers::{give_back, take_handle};
use crate::refusal::{HandleError, TooManyHandles};
use tracing_core_fields::{Callsite, Subscriber, WeakDispatch, serial_of};

impl<S, C> Hub<S, C> {
    // Why there can't be a further handle to the subscriber of the number.
    pub(crate) fn further_refusal(&self, serial: Option<u64>) -> Option<HandleError>
        ensures { result ≡ hold_refusal serial self.now.subscribers }
    {
        hold_refusal(&self.subscribers, serial)
    }

    // One handle more.
    fn take_another(&mut self, dispatch: &Dispatch) -> Result<Dispatch, HandleError>
        ensures answer { result ≡ or_refused (hold_refusal dispatch.now self.old.subscribers) dispatch.now }
        ensures state { self.new ≡ or_same (hold_refusal dispatch.now self.old.subscribers) self.old
            (holding self.old dispatch.now) }
    {
        take_handle(&mut self.subscribers, dispatch.serial())?;
        Ok(Dispatch::new(dispatch.serial()))
    }

    /// Why there can't be a further handle to the same subscriber: it was released, or has as many handles as can be counted.
    pub fn hold_refusal(&self, dispatch: &WeakDispatch) -> Option<HandleError>
        ensures { result ≡ hold_refusal dispatch.now self.now.subscribers }
    {
        self.further_refusal(serial_of(dispatch))
    }

    /// A handle to the same subscriber that doesn't keep it in the hub.
    pub fn downgrade(&self, dispatch: &Dispatch) -> WeakDispatch
        ensures { result ≡ dispatch.now }
    {
        dispatch.downgrade()
    }

    // One handle more, where the subscriber lives.
    fn revive(&mut self, dispatch: &WeakDispatch) -> Result<Option<Dispatch>, TooManyHandles>
        ensures answer { result ≡ upgrade_answer dispatch.now (hold_refusal dispatch.now self.old.subscribers) }
        ensures state { self.new ≡ or_same (hold_refusal dispatch.now self.old.subscribers) self.old
            (holding self.old dispatch.now) }
    {
        match take_handle(&mut self.subscribers, serial_of(dispatch)) {
            Ok(()) => Ok(Some(Dispatch::new(serial_of(dispatch)))),
            Err(HandleError::Unknown) => Ok(None),
            Err(HandleError::TooMany) => Err(TooManyHandles(())),
        }
    }

    // One handle less.
    fn let_go(&mut self, dispatch: Dispatch) -> Option<S>
        ensures answer { result ≡ (given_back dispatch self.old.subscribers).0 }
        ensures state { self.new ≡ record self.old { subscribers = (given_back dispatch self.old.subscribers).1 } }
    {
        give_back(&mut self.subscribers, dispatch.serial())
    }
}

impl<S: Subscriber, C: Callsite> Hub<S, C> {
    /// Another handle to the same subscriber. It takes no memory.
    pub fn clone(&mut self, dispatch: &Dispatch) -> Result<Dispatch, HandleError>
        ensures answer { result ≡ or_refused (hold_refusal dispatch.now self.old.subscribers) dispatch.now }
        ensures state { self.new ≡ or_same (hold_refusal dispatch.now self.old.subscribers) self.old
            (holding self.old dispatch.now) }
        ensures keeps { PreservesCaches ⟦<S as Subscriber>⟧ ⟦<C as Callsite>⟧ self.old self.new }
    {
        self.take_another(dispatch)
    }

    /// A handle that keeps the subscriber, or `None` where it was released. It takes no memory.
    pub fn upgrade(&mut self, dispatch: &WeakDispatch) -> Result<Option<Dispatch>, TooManyHandles>
        ensures answer { result ≡ upgrade_answer dispatch.now (hold_refusal dispatch.now self.old.subscribers) }
        ensures state { self.new ≡ or_same (hold_refusal dispatch.now self.old.subscribers) self.old
            (holding self.old dispatch.now) }
        ensures keeps { PreservesCaches ⟦<S as Subscriber>⟧ ⟦<C as Callsite>⟧ self.old self.new }
    {
        self.revive(dispatch)
    }

    /// Takes a handle back. The subscriber comes back with its last one; what is kept of callsites, and the
    /// greatest level, stay as they are until the next rebuild, refresh or `add`.
    pub fn release(&mut self, dispatch: Dispatch) -> Option<S>
        // The subscriber comes back exactly where this was its last handle.
        ensures answer { result ≡ (given_back dispatch self.old.subscribers).0 }
        ensures state { self.new ≡ record self.old { subscribers = (given_back dispatch self.old.subscribers).1 } }
        ensures keeps { PreservesLivingCaches ⟦<S as Subscriber>⟧ ⟦<C as Callsite>⟧ self.old self.new }
    {
        self.let_go(dispatch)
    }
}
