//! Why the program ends without a time.

ghost use Rattle.std.specs.Prelude.{◌≡◌, ◌≤◌};

use span_tracing::{CallError, OpenStackError, Refusal, SeatError};
use std::alloc::{AllocError, AllocFailed};
use std::io::{Error, Write};

/// Why the program ends without a time.
#[derive(Clone, Copy, Debug, PartialEq, Eq)]
pub(crate) enum Fault {
    /// The words are not `bench NAME COUNT FILE` with the name of a bench.
    Usage,
    /// The trace refused a call.
    Refused(Refusal),
    /// A call answered something else than calls of its kind do.
    OddReply,
    OutOfMemory,
    /// The clock or the output refused.
    System,
}

impl From<AllocError> for Fault {
    fn from(_: AllocError) -> Fault {
        Fault::OutOfMemory
    }
}

impl<T: Drop> From<AllocFailed<T>> for Fault {
    fn from(_: AllocFailed<T>) -> Fault {
        Fault::OutOfMemory
    }
}

impl From<Refusal> for Fault {
    fn from(refusal: Refusal) -> Fault {
        Fault::Refused(refusal)
    }
}

impl From<OpenStackError> for Fault {
    fn from(error: OpenStackError) -> Fault {
        Fault::Refused(error.refusal)
    }
}

impl From<SeatError> for Fault {
    fn from(_: SeatError) -> Fault {
        Fault::OddReply
    }
}

impl From<CallError> for Fault {
    fn from(error: CallError) -> Fault {
        match error {
            CallError::Refused(refusal) => Fault::Refused(refusal),
            CallError::NoField(_) => Fault::OddReply,
        }
    }
}

impl From<Error> for Fault {
    fn from(_: Error) -> Fault {
        Fault::System
    }
}

impl Fault {
    /// The status with which the program ends.
    pub(crate) fn status(self) -> u8
        ensures usage { self ≡ Fault.Usage → result ≡ 2 }
        ensures range { (1 ≤ result) × (result ≤ 5) }
    {
        match self {
            Fault::Refused(_) => 1,
            Fault::Usage => 2,
            Fault::OddReply => 3,
            Fault::OutOfMemory => 4,
            Fault::System => 5,
        }
    }

    /// Writes one line on why the program ends. A refused write is passed over.
    pub(crate) fn tell<E: Write>(self, errors: &mut E) {
        let _ = match self {
            Fault::Refused(refusal) => {
                let refused = refusal.number();
                writeln!(errors, "span-trace-bench: refused {refused}")
            }
            Fault::Usage => {
                writeln!(
                    errors,
                    "span-trace-bench: usage: span-trace-bench bench NAME COUNT FILE"
                )
            }
            Fault::OddReply => writeln!(errors, "span-trace-bench: odd reply"),
            Fault::OutOfMemory => writeln!(errors, "span-trace-bench: out of memory"),
            Fault::System => writeln!(errors, "span-trace-bench: the system refused"),
        };
    }
}
