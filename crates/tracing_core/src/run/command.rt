//! What a hub can be told to do, and what it replies.
use crate::refusal::{
    AddError, HandleError, RegisterError, SetDefaultError, SetGlobalDefaultError,
};
use thiserror::Error;
use tracing_core_fields::{Identifier, Interest, LevelFilter};
use tracing_core_moments::At;

/// What a hub can be told to do. Handles, weak handles and guards are named by the numbers that a
/// [`Book`](crate::Book) gave them, and where a handle can be left out, none is the one to no subscriber.
#[derive(Drop)]
pub enum Command<S, C> {
    /// Begins a lane.
    Thread,
    /// Ends a lane.
    EndThread(u64),
    /// Takes a subscriber, whose handle is a new one.
    Add(S),
    /// Takes a callsite, where a known one with the same metadata counts as this one.
    Register(C),
    /// Asks all subscribers of each callsite and for their hints.
    RebuildInterestCache,
    /// Asks again whoever may say something else than what is kept.
    Refresh,
    /// Tells the greatest level.
    MaxLevel,
    /// Sets the global default to the subscriber of a handle.
    SetGlobalDefault(Option<u64>),
    /// Tells whether the global default was set.
    HasBeenSet,
    /// Sets the default of a lane to the subscriber of a handle, with a new guard.
    SetDefault(u64, Option<u64>),
    /// Gives a lane the default that its guard remembers, and spends the guard.
    Reset(u64, u64),
    /// Makes a further handle.
    CloneHandle(u64),
    /// Makes a weak handle.
    Downgrade(u64),
    /// Makes a handle of a weak one.
    Upgrade(u64),
    /// Gives a handle back, and spends it.
    Release(u64),
    /// Tells whether a span or an event of a callsite, made there and then, is wanted.
    Gate(Identifier, At),
    /// Tells the interest that is kept of a callsite.
    Interest(Identifier),
    /// Tells which subscriber a lane reaches.
    Reached(u64),
}

/// What a hub replies to a command.
#[derive(Drop)]
pub enum CommandReply<S, C> {
    /// It was done.
    Done,
    /// The number of the new lane.
    Lane(u64),
    /// The number of the new handle.
    Handle(u64),
    /// The number of the new weak handle.
    Weak(u64),
    /// The number of the new guard.
    Guard(u64),
    /// The subscriber of the weak handle was released.
    Gone,
    /// A handle or a default was given up, and this subscriber was released by it.
    Released(Option<S>),
    /// The common interest in the callsite.
    Registered(Interest),
    /// The interest that is kept of the callsite, where it is known.
    Kept(Option<Interest>),
    /// The greatest level.
    Level(LevelFilter),
    /// Whether the global default was set.
    Set(bool),
    /// Whether a span or an event is wanted, where the callsite is known.
    Wanted(Option<bool>),
    /// The number of the subscriber that the lane reaches, where it reaches one.
    Reached(Option<u64>),
    /// It was refused, and nothing changed.
    Refused(CommandError<S, C>),
}

/// Why a hub doesn't do what it is told.
#[derive(Debug, Drop, Error)]
pub enum CommandError<S, C> {
    /// There was no memory for what the command makes.
    #[error("out of memory")]
    OutOfMemory,
    /// No unspent handle has the number.
    #[error("unknown handle")]
    UnknownHandle,
    /// No weak handle has the number.
    #[error("unknown weak handle")]
    UnknownWeakHandle,
    /// No lane that runs has the number; where a guard is to be spent, none was ever given it.
    #[error("unknown lane")]
    UnknownLane,
    /// The lane has no unspent guard with the number.
    #[error("no guard of this lane")]
    WrongLane,
    /// The subscriber has as many handles as can be counted.
    #[error("too many handles")]
    TooManyHandles,
    /// The subscriber isn't taken, and comes back.
    #[error("the subscriber isn't taken")]
    Add(AddError<S>),
    /// The callsite isn't taken, and comes back.
    #[error("the callsite isn't taken")]
    Register(RegisterError<C>),
    /// There is no further handle.
    #[error("{0}")]
    Handle(HandleError),
    /// The global default isn't set.
    #[error("{0}")]
    SetGlobalDefault(SetGlobalDefaultError),
    /// The lane's default isn't set.
    #[error("{0}")]
    SetDefault(SetDefaultError),
}

/// There was no memory for the replies to these commands, which come back.
#[derive(Drop)]
pub struct NoRoom<S, C>(pub Vec<Command<S, C>>);
