//! Commands on handles, lanes and guards by number.

mod book;
mod booked;
mod command;
mod defaults;
mod handles;
mod hub;

pub use book::Book;
pub use command::{Command, CommandError, CommandReply, NoRoom};
