//! Requests, interests, and the subscribers that take them.

mod arguments;
mod callsite;
mod current_span;
mod dispatch;
mod interest;
mod refusal;
mod subscriber;

pub use arguments::{Attributes, Current, Event, Record};
pub use callsite::Callsite;
pub use current_span::CurrentSpan;
pub use dispatch::{WeakDispatch, serial_of, weak_of};
pub use interest::{Interest, InterestInner, inner_of, interest_of, interests_join_in_any_order};
pub use refusal::RequestError;
pub use subscriber::{NoSubscriber, Subscriber};
