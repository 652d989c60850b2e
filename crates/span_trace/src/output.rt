//! How the lines of an output look, as its line asks for it.

use crate::lines::{FormatName, SpanEvent, TimeLine};
use span_tracing::{FixedText, FmtSpan, LineSettings, SystemTime, Timer};

/// How lines of the format look. They show no threads, and have no styles; the place in the source stands in the
/// pretty format alone.
pub(crate) fn settings_of(
    format: FormatName,
    time: TimeLine,
    show_level: bool,
    span_events: &[SpanEvent],
) -> LineSettings {
    let usual = match format {
        FormatName::Full => LineSettings::full(),
        FormatName::Compact => LineSettings::compact(),
        FormatName::Pretty => LineSettings::pretty(),
        FormatName::Json => LineSettings::json(),
    };
    LineSettings {
        timer: timer_of(time),
        level: show_level,
        span_events: moments_of(span_events),
        ..usual
    }
}

/// What tells the time of a line.
fn timer_of(time: TimeLine) -> Timer {
    match time {
        TimeLine::System => Timer::System(SystemTime::new()),
        TimeLine::Fixed(text) => Timer::Fixed(FixedText::new(text)),
        TimeLine::Absent => Timer::Empty,
    }
}

/// The set of the moments.
fn moments_of(events: &[SpanEvent]) -> FmtSpan {
    let mut moments = FmtSpan::NONE;
    for event in events {
        moments |= moment_of(*event);
    }
    moments
}

fn moment_of(event: SpanEvent) -> FmtSpan {
    match event {
        SpanEvent::New => FmtSpan::NEW,
        SpanEvent::Enter => FmtSpan::ENTER,
        SpanEvent::Exit => FmtSpan::EXIT,
        SpanEvent::Close => FmtSpan::CLOSE,
    }
}
