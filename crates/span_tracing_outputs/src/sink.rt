//! Where the lines of an output go.
ghost use Rattle.std.specs.Prelude.{◌≡◌, Bool, List, ℕ, map};
ghost use Rattle.tracing_core_moments.specs.declared.at.At.{At};
ghost use Rattle.span_tracing_outputs.specs.SinkLines.{TakesAll, some_hold};
ghost use Rattle.span_tracing_outputs.specs.OutputMachines.{PlainLine};
ghost use Rattle.span_tracing_outputs.specs.BufferedLines.{plain_line};

use crate::pending::PendingLine;
use tracing_core_fields::Level;
use tracing_core_moments::At;

/// Takes the lines of an output. What becomes of a line is the sink's own affair, also whether it counts what it loses.
pub trait LineSink: Drop {
    // How it may come out of taking a line at a moment.
    ghost takes: { Self → At → PlainLine → Self → Type 0 };

    // Whether a line is held beside a queue of it.
    ghost holds: { Self → Bool };

    /// Takes a line of this level, at the moment that it is handed over with. A `TraceStack` gives that of its request.
    fn take(&mut self, at: At, level: Level, line: &[u8])
        ensures { takes self.old at (record { level = level; bytes = line.now }) self.new };

    /// Whether a line is held beside a queue of it. While one is, a trace's other steps wait.
    fn is_holding(&self) -> bool
        ensures { result ≡ holds self.now };
}

/// Whether a line is held beside a queue of one of these sinks.
pub(crate) fn some_hold<S: LineSink>(sinks: &[S]) -> bool
    ensures { result ≡ some_hold S.holds sinks.now }
{
    match sinks {
        [] => false,
        [first, later @ ..] => first.is_holding() || some_hold(later),
    }
}

/// The same place and moment. Where only the copy is handed to calls that aren't inlined, the compiler keeps `at` in registers.
#[inline(always)]
pub(crate) fn copied(at: At) -> At
    ensures { result ≡ at }
{
    At {
        lane: at.lane,
        seconds: at.seconds,
        nanoseconds: at.nanoseconds,
    }
}

// Hands over any number of lines. It stands out of line, since most requests have one line or none.
#[inline(never)]
fn take_several<S: LineSink>(sink: &mut S, at: At, lines: &[PendingLine])
    ensures { TakesAll S.takes at (map plain_line lines.now) sink.old sink.new }
{
    let mut rest = lines;
    while let [line, later @ ..] = rest {
        sink.take(at, line.level, line.bytes.as_slice());
        rest = later;
    }
}

/// Hands over lines, in order.
#[inline(always)]
pub(crate) fn take_all<S: LineSink>(sink: &mut S, at: At, lines: &[PendingLine])
    ensures { TakesAll S.takes at (map plain_line lines.now) sink.old sink.new }
{
    if let [only] = lines {
        sink.take(at, only.level, only.bytes.as_slice());
        return;
    }
    take_several(sink, copied(at), lines);
}
