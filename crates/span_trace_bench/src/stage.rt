//! A trace whose calls are timed.

use crate::bench::Bench;
use crate::counting::CountingFolder;
use crate::fault::Fault;
use crate::lines::Counter;
use crate::stack::{LevelStack, OPENED, stack_over};
use span_tracing::value::{AnyValue, Lend, LentValue};
use span_tracing::{
    Folder, LiveQueue, Moment, NoLive, Parent, Reply, SinkSpec, Site, SpanName, Trace, event,
};
use std::alloc::Global;
use std::num::NonZeroU64;
use tracing_core::{FieldSet, Identifier, Kind, Level, LevelFilter, Metadata};

/// Makes spans `outer` with a field `x`.
const OUTER: Identifier = Identifier(1);

/// Makes events that pass, with a message and a field `n`.
pub(crate) const EVENT: Identifier = Identifier(2);

/// Makes events of level DEBUG, in which nobody is interested.
pub(crate) const DETAIL: Identifier = Identifier(3);

/// Makes events of level TRACE, in which nobody is interested.
pub(crate) const NOISE: Identifier = Identifier(4);

pub(crate) const OUTER_FIELDS: [&str; 1] = ["x"];

pub(crate) const EVENT_FIELDS: [&str; 2] = ["message", "n"];

pub(crate) const LANE: usize = 0;

/// The value of the field that spans have.
const OUTER_VALUES: [LentValue<'static>; 1] = [LentValue {
    field: 0,
    value: AnyValue::U64(42),
}];

/// A trace, and how many spans it made.
#[derive(Drop)]
pub(crate) struct Stage<D: Folder, Q: LiveQueue> {
    trace: Trace<LevelStack<D, Q>>,
    pub(crate) spans: u64,
}

/// The moment i microseconds behind the whole second, or as many as are left of whole seconds.
pub(crate) fn moment_at(i: u64) -> Moment {
    Moment {
        seconds: OPENED.seconds,
        nanoseconds: (i % 1_000_000) as u32 * 1_000,
    }
}

pub(crate) fn done(reply: Reply) -> Result<(), Fault> {
    match reply {
        Reply::Done => Ok(()),
        Reply::Refused(refusal) => Err(Fault::Refused(refusal)),
        _ => Err(Fault::OddReply),
    }
}

pub(crate) fn made(reply: Reply) -> Result<SpanName, Fault> {
    match reply {
        Reply::Span(Some(name)) => Ok(name),
        Reply::Refused(refusal) => Err(Fault::Refused(refusal)),
        _ => Err(Fault::OddReply),
    }
}

fn worked(reply: Reply) -> Result<(), Fault> {
    match reply {
        Reply::Worked(_) => Ok(()),
        Reply::Refused(refusal) => Err(Fault::Refused(refusal)),
        _ => Err(Fault::OddReply),
    }
}

fn closed(reply: Reply) -> Result<(), Fault> {
    match reply {
        Reply::Closed(true) => Ok(()),
        Reply::Refused(refusal) => Err(Fault::Refused(refusal)),
        _ => Err(Fault::OddReply),
    }
}

fn metadata<'a>(
    name: &'a str,
    level: Level,
    names: &'a [&'a str],
    identifier: Identifier,
    kind: Kind,
) -> Metadata<'a> {
    let fields = FieldSet::new(names, identifier);
    Metadata::new(name, "app", level, None, None, None, fields, kind)
}

/// A trace with this stack.
fn trace_over<D: Folder, Q: LiveQueue>(
    alloc: Global,
    stack: LevelStack<D, Q>,
) -> Result<Trace<LevelStack<D, Q>>, Fault> {
    let mut trace = Trace::new(alloc);
    match trace.add_stack(stack) {
        Ok(_) => Ok(trace),
        Err(_) => Err(Fault::OutOfMemory),
    }
}

impl<D: Folder, Q: LiveQueue> Stage<D, Q> {
    /// A trace with one lane that reaches an output of the bench into each sink, all levels to INFO.
    pub(crate) fn new(
        alloc: Global,
        bench: Bench,
        sinks: Vec<SinkSpec<D, Q>>,
    ) -> Result<Stage<D, Q>, Fault> {
        let mut stage = Stage {
            trace: trace_over(alloc, stack_over(alloc, bench, sinks)?)?,
            spans: 0,
        };
        stage.register()?;
        stage.trace.thread(None, 1)?;
        done(stage.trace.set_global_default(0))?;
        Ok(stage)
    }

    fn register(&mut self) -> Result<(), Fault> {
        let outer = metadata("outer", Level::INFO, &OUTER_FIELDS, OUTER, Kind::SPAN);
        let event = metadata("event", Level::INFO, &EVENT_FIELDS, EVENT, Kind::EVENT);
        let detail = metadata("detail", Level::DEBUG, &EVENT_FIELDS, DETAIL, Kind::EVENT);
        let noise = metadata("noise", Level::TRACE, &EVENT_FIELDS, NOISE, Kind::EVENT);
        self.trace.register(OUTER, &outer)?;
        self.trace.register(EVENT, &event)?;
        self.trace.register(DETAIL, &detail)?;
        self.trace.register(NOISE, &noise)?;
        Ok(())
    }

    /// Registers callsites of events, each under an identifier of its own, half of them of no interest to anyone.
    pub(crate) fn register_others(&mut self, count: u64) -> Result<(), Fault> {
        for i in 0..count {
            let identifier = Identifier(NOISE.0.saturating_add(i + 1));
            let level = if i % 2 == 0 {
                Level::DEBUG
            } else {
                Level::INFO
            };
            let other = metadata("other", level, &EVENT_FIELDS, identifier, Kind::EVENT);
            self.trace.register(identifier, &other)?;
        }
        Ok(())
    }

    fn open_span(&mut self, i: u64, parent: Parent) -> Result<SpanName, Fault> {
        let reply = self
            .trace
            .new_span(LANE, moment_at(i), OUTER, parent, &OUTER_VALUES);
        let name = made(reply)?;
        self.spans = self.spans.saturating_add(1);
        Ok(name)
    }

    /// Opens spans, each inside the one before, and stays in them.
    pub(crate) fn nest(&mut self, count: u64) -> Result<(), Fault> {
        for _ in 0..count {
            let name = self.open_span(0, Parent::Contextual)?;
            done(self.trace.enter(LANE, OPENED, Some(name)))?;
        }
        Ok(())
    }

    /// Opens spans inside no other one, and leaves them open.
    pub(crate) fn scatter(&mut self, count: u64) -> Result<(), Fault> {
        for i in 0..count {
            let _name = self.open_span(i, Parent::Root)?;
        }
        Ok(())
    }

    /// Adds lanes, each in a span of its own.
    pub(crate) fn occupy(&mut self, lanes: u64) -> Result<(), Fault> {
        for i in 0..lanes {
            let lane = self.trace.thread(None, i.saturating_add(2))?;
            let reply = self
                .trace
                .new_span(lane, OPENED, OUTER, Parent::Root, &OUTER_VALUES);
            let name = made(reply)?;
            self.spans = self.spans.saturating_add(1);
            done(self.trace.enter(lane, OPENED, Some(name)))?;
        }
        Ok(())
    }

    /// Closes the oldest span and opens another one, again and again. Ids are given in order, from 1.
    pub(crate) fn replace_oldest(&mut self, count: u64) -> Result<(), Fault> {
        for i in 0..count {
            let Some(id) = NonZeroU64::new(i.saturating_add(1)) else {
                return Err(Fault::OddReply);
            };
            let oldest = SpanName { stack: 0, id };
            closed(self.trace.try_close(LANE, moment_at(i), Some(oldest)))?;
            let _name = self.open_span(i, Parent::Root)?;
        }
        Ok(())
    }

    /// Tells of an event on a lane, whose second field is its number mod 10.
    pub(crate) fn tell_one(
        &mut self,
        lane: usize,
        callsite: Identifier,
        i: u64,
    ) -> Result<(), Fault> {
        let values = [
            LentValue {
                field: 0,
                value: AnyValue::Str("hi"),
            },
            LentValue {
                field: 1,
                value: AnyValue::U64(i % 10),
            },
        ];
        let parent = Parent::Contextual;
        done(
            self.trace
                .event(lane, moment_at(i), callsite, parent, &values),
        )
    }

    /// Tells of events, one after another.
    pub(crate) fn tell(&mut self, callsite: Identifier, count: u64) -> Result<(), Fault> {
        for i in 0..count {
            self.tell_one(LANE, callsite, i)?;
        }
        Ok(())
    }

    /// Tells of events, and lets a worker's step write 100 lines behind each 100, and the rest at the end.
    pub(crate) fn tell_queued(&mut self, count: u64) -> Result<(), Fault> {
        for _ in 0..count / 100 {
            self.tell(EVENT, 100)?;
            worked(self.trace.work(0, 100, OPENED))?;
        }
        self.tell(EVENT, count % 100)?;
        worked(self.trace.work(0, 100, OPENED))
    }

    /// A callsite of events, for `event!`.
    fn site(&self, callsite: Identifier) -> Result<Site, Fault> {
        match self.trace.callsite(callsite) {
            Some(index) => Ok(Site {
                identifier: callsite,
                index,
                fields: FieldSet::new(&EVENT_FIELDS, callsite),
            }),
            None => Err(Fault::OddReply),
        }
    }

    /// Makes events through `event!`, at a callsite that is off.
    pub(crate) fn skip(&mut self, callsite: Identifier, count: u64) -> Result<(), Fault> {
        let site = self.site(callsite)?;
        for i in 0..count {
            event!(self.trace, LANE, moment_at(i), site, n = i % 10)?;
        }
        Ok(())
    }

    /// Makes events through `event!`, whose message is lent.
    pub(crate) fn tell_text(&mut self, text: &'static str, count: u64) -> Result<(), Fault> {
        let site = self.site(EVENT)?;
        for i in 0..count {
            event!(
                self.trace,
                LANE,
                moment_at(i),
                site,
                message = text,
                n = i % 10
            )?;
        }
        Ok(())
    }

    /// Opens, enters, leaves and closes spans, one at a time.
    pub(crate) fn cycle(&mut self, count: u64) -> Result<(), Fault> {
        for i in 0..count {
            let name = Some(self.open_span(i, Parent::Contextual)?);
            done(self.trace.enter(LANE, moment_at(i), name))?;
            done(self.trace.exit(LANE, moment_at(i), name))?;
            closed(self.trace.try_close(LANE, moment_at(i), name))?;
        }
        Ok(())
    }
}

/// What a trace handed over to all its folders.
pub(crate) fn counted(trace: &Trace<LevelStack<CountingFolder, NoLive>>) -> Result<Counter, Fault> {
    let Some(stack) = trace.stack(0) else {
        return Err(Fault::OddReply);
    };
    let mut counted = Counter { bytes: 0, lines: 0 };
    for routed in stack.sinks() {
        for sink in routed.sinks() {
            let Some(appender) = sink.appender() else {
                return Err(Fault::OddReply);
            };
            counted.add(appender.folder());
        }
    }
    Ok(counted)
}

impl Stage<CountingFolder, NoLive> {
    /// What was handed over to all folders.
    pub(crate) fn counted(&self) -> Result<Counter, Fault> {
        counted(&self.trace)
    }
}
