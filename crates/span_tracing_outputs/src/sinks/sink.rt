//! A sink whose lines go to rolling files.
ghost use Rattle.std.specs.Prelude.{◌≡◌, true};
ghost use Rattle.tracing_appender_rolling.specs.LineHandover.{is_starved};
ghost use Rattle.tracing_core_moments.specs.Moments.{is_moment};
ghost use Rattle.span_tracing_outputs.specs.sinks.Takes.{TookLine, dropped_after, moment_of};

use crate::LineSink;
use tracing_appender_rolling::{Folder, FolderError, RollingFileAppender};
use tracing_core_fields::Level;
use tracing_core_moments::{At, Moment};

/// Hands its lines to a rolling file, each once, at the moment that it comes with. A line that finds no memory is
/// dropped and counted, and what was written of it before stays. So is one whose moment is out of range, which no
/// trace hands over; nothing is written of it. What is lost to a folder's faults the appender counts.
pub struct RollingSink<D> {
    appender: RollingFileAppender<D>,
    dropped: usize,
}

/// It is written down, so that whoever lets a sink go needs no proof of his own for each of its parts.
impl<D: Drop> Drop for RollingSink<D> {
    fn drop(self) {
        let RollingSink {
            appender: _appender,
            dropped: _dropped,
        } = self;
    }
}

fn moment_of(at: At) -> Moment
    ensures { result ≡ moment_of at }
{
    Moment {
        seconds: at.seconds,
        nanoseconds: at.nanoseconds,
    }
}

fn is_starved(answer: Result<(), FolderError>) -> bool
    ensures { result ≡ is_starved answer }
{
    match answer {
        Ok(()) | Err(FolderError::Fault(_)) => false,
        Err(FolderError::OutOfMemory) => true,
    }
}

impl<D: Folder> RollingSink<D> {
    /// A sink that dropped no line yet.
    pub fn new(appender: RollingFileAppender<D>) -> RollingSink<D>
        ensures { result ≡ record { appender = appender; dropped = 0 } }
    {
        RollingSink {
            appender,
            dropped: 0,
        }
    }

    /// The rolling file.
    pub fn appender(&self) -> &RollingFileAppender<D>
        ensures { result.now ≡ self.now.appender }
    {
        &self.appender
    }

    /// How many lines were dropped. The count stops at the greatest number.
    pub fn dropped(&self) -> usize
        ensures { result ≡ self.now.dropped }
    {
        self.dropped
    }

    /// The rolling file, once the sink takes no more lines.
    pub fn into_appender(self) -> RollingFileAppender<D>
        ensures { result ≡ self.appender }
    {
        let RollingSink {
            appender,
            dropped: _,
        } = self;
        appender
    }

    fn count_dropped(&mut self)
        ensures { self.new ≡ record self.old { dropped = dropped_after true self.old.dropped } }
    {
        self.dropped = self.dropped.saturating_add(1);
    }

    fn write_line(&mut self, line: &[u8], moment: Moment)
        requires { is_moment moment ≡ true }
        ensures { TookLine D.contents D.failed moment line.now self.old self.new }
    {
        let answer = self.appender.write_all_at(line, moment);
        if is_starved(answer) {
            self.count_dropped();
        }
    }
}

impl<D: Folder> LineSink for RollingSink<D> {
    ghost use Rattle.std.specs.Prelude.{false};
    ghost use Rattle.span_tracing_outputs.specs.sinks.Takes.{TakesLine};

    ghost takes = { TakesLine D.contents D.failed };

    ghost holds = { λ _. false };

    fn take(&mut self, at: At, _level: Level, line: &[u8]) {
        let moment = moment_of(at);
        if moment.is_in_range() {
            self.write_line(line, moment);
        } else {
            self.count_dropped();
        }
    }

    fn is_holding(&self) -> bool {
        false
    }
}
