// A run of a script: a trace, and slow models of its sinks, which are compared after each move.

use super::outputs::{MOST_CALLS, build_all, outputs_of};
use super::scripts::{Move, Script};
use super::slow_files::{Counted, Plan, SlowFiles};
use super::slow_sink::SlowSink;
use crate::tests::common::{event_at, span_at, text_field};
use crate::{
    AnySink, EventCall, FaultyFolder, FileStack, Folder, Moment, NewSpanCall, Parent, QueueCall,
    Refusal, Reply, SinkCall, SpanCall, SpanName, Step, Trace, open_trace,
};
use std::alloc::Global;
use std::num::NonZeroU64;
use std::process::Abort;
use std::test::Fail;
use tracing_core_fields::{FieldSet, Identifier, Level, LevelFilter};

type Faulty = Trace<FileStack<LevelFilter, FaultyFolder>>;

const TOLD: Identifier = Identifier(1);

const OUTER: Identifier = Identifier(2);

const INNER: Identifier = Identifier(3);

fn moment_at(seconds: i64) -> Moment {
    Moment {
        seconds,
        nanoseconds: 0,
    }
}

/// A trace and its models, in the middle of a script.
#[derive(Drop)]
struct Stage {
    alloc: Global,
    asks: bool,
    trace: Faulty,
    slow: Vec<SlowSink>,
    replies: Vec<Reply>,
    spans: u64,
}

/// A script, the number of the sink whose folder refuses, its plan, and whether steps are taken by `run_asking`.
#[derive(Clone, Copy)]
pub(crate) struct Run<'a> {
    pub(crate) script: &'a Script,
    pub(crate) sink: usize,
    pub(crate) plan: Plan,
    pub(crate) asks: bool,
}

/// What a run came to: its replies, none where the opening was refused, and of the faulty folder how many calls it had and refused.
#[derive(Drop)]
pub(crate) struct Ran {
    pub(crate) replies: Vec<Reply>,
    pub(crate) calls: u64,
    pub(crate) failures: u64,
    pub(crate) is_opened: bool,
}

/// Runs a script, and compares each sink with its model after each move.
pub(crate) fn run(rt: &impl Abort, alloc: Global, it: Run<'_>) -> Result<Ran, Fail> {
    let script = it.script;
    let (outputs, mut slow) = outputs_of(alloc, script, it.sink, it.plan)?;
    let refused = build_all(slow.as_mut_slice(), script.opened)?;
    let mut replies = Vec::new(alloc);
    match open_trace(alloc, outputs, moment_at(script.opened)) {
        Err(error) => assert_eq!(rt; Some(error), refused),
        Ok(trace) => {
            assert_eq!(rt; refused, None);
            let mut stage = Stage {
                alloc,
                asks: it.asks,
                trace,
                slow,
                replies,
                spans: 0,
            };
            stage.register_all()?;
            stage.play_all(rt, script.moves)?;
            slow = stage.slow;
            replies = stage.replies;
        }
    }
    let files = &slow.get(it.sink).ok_or("a sink")?.files;
    assert!(rt; files.calls <= MOST_CALLS);
    Ok(Ran {
        replies,
        calls: files.calls,
        failures: files.failures,
        is_opened: refused.is_none(),
    })
}

impl Stage {
    fn register_all(&mut self) -> Result<(), Fail> {
        let names = FieldSet::new(&["message"], TOLD);
        self.trace
            .register(TOLD, &event_at("e", Level::INFO, names))?;
        for (callsite, name) in [(OUTER, "outer"), (INNER, "inner")] {
            let none = FieldSet::new(&[], callsite);
            self.trace
                .register(callsite, &span_at(name, Level::INFO, none))?;
        }
        Ok(())
    }

    fn play_all(&mut self, rt: &impl Abort, moves: &[Move]) -> Result<(), Fail> {
        self.agrees(rt)?;
        for next in moves {
            self.play(rt, *next)?;
            self.agrees(rt)?;
        }
        Ok(())
    }

    fn play(&mut self, rt: &impl Abort, next: Move) -> Result<(), Fail> {
        match next {
            Move::Tell(second, text) => self.tell(rt, second, text),
            Move::Close(second) => self.close(rt, second),
            Move::Work(sink, lines, second) => {
                let wanted = self.slow[sink].work(lines, second)?;
                let call = QueueCall::Work(lines, moment_at(second));
                self.take(rt, Step::Queue(SinkCall { sink, call }), wanted)
            }
            Move::Admit(sink) => {
                let wanted = self.slow[sink].admit()?;
                let call = QueueCall::Admit;
                self.take(rt, Step::Queue(SinkCall { sink, call }), wanted)
            }
            Move::Shutdown(sink) => {
                let wanted = self.slow[sink].shutdown();
                let call = QueueCall::Shutdown;
                self.take(rt, Step::Queue(SinkCall { sink, call }), wanted)
            }
        }
    }

    fn take(&mut self, rt: &impl Abort, step: Step, wanted: Reply) -> Result<(), Fail> {
        let steps = vec![in self.alloc; step]?;
        let replies = if self.asks {
            self.trace.run_asking(steps.as_slice())?
        } else {
            self.trace.run(steps.as_slice())?
        };
        assert_eq!(rt; replies.as_slice(), [wanted].as_slice());
        self.replies.push(wanted)?;
        Ok(())
    }

    /// Hands a line to each sink's model.
    fn offer(&mut self, line: &String, second: i64) -> Result<(), Fail> {
        for sink in &mut self.slow {
            sink.take(line, second)?;
        }
        Ok(())
    }

    fn tell(&mut self, rt: &impl Abort, second: i64, text: &str) -> Result<(), Fail> {
        let step = Step::Event(EventCall {
            lane: 0,
            moment: moment_at(second),
            callsite: TOLD,
            parent: Parent::Contextual,
            values: vec![in self.alloc; text_field(self.alloc, 0, text)?]?,
        });
        if self.slow.iter().any(|sink| !sink.held.is_empty()) {
            return self.take(rt, step, Reply::Refused(Refusal::Busy));
        }
        self.take(rt, step, Reply::Done)?;
        let line = format!(in self.alloc; "app: {text}\n")?;
        self.offer(&line, second)
    }

    /// Makes a span, and answers its name.
    fn make(
        &mut self,
        rt: &impl Abort,
        second: i64,
        callsite: Identifier,
        parent: Parent,
    ) -> Result<SpanName, Fail> {
        self.spans += 1;
        let id = NonZeroU64::new(self.spans).ok_or("an id")?;
        let name = SpanName { stack: 0, id };
        let step = Step::NewSpan(NewSpanCall {
            lane: 0,
            moment: moment_at(second),
            callsite,
            parent,
            values: Vec::new(self.alloc),
        });
        self.take(rt, step, Reply::Span(Some(name)))?;
        Ok(name)
    }

    fn close(&mut self, rt: &impl Abort, second: i64) -> Result<(), Fail> {
        let outer = self.make(rt, second, OUTER, Parent::Root)?;
        let inner = self.make(rt, second, INNER, Parent::Explicit(outer))?;
        for (span, is_closed) in [(outer, false), (inner, true)] {
            let call = SpanCall {
                lane: 0,
                moment: moment_at(second),
                span: Some(span),
            };
            self.take(rt, Step::TryClose(call), Reply::Closed(is_closed))?;
        }
        for text in ["outer:inner: app: close\n", "outer: app: close\n"] {
            let line = String::from_str(self.alloc, text)?;
            self.offer(&line, second)?;
        }
        Ok(())
    }

    /// Compares each sink with its model.
    fn agrees(&self, rt: &impl Abort) -> Result<(), Fail> {
        for (number, slow) in self.slow.iter().enumerate() {
            let sink = self.trace.sink(number).ok_or("a sink")?;
            has_queue(rt, sink, slow);
            has_files(rt, self.alloc, sink, &slow.files)?;
            assert_eq!(rt; self.trace.starved(slow.key), Some(0));
        }
        Ok(())
    }
}

/// Compares what waits before a sink, and what was counted, with its model.
fn has_queue(rt: &impl Abort, sink: &AnySink<FaultyFolder>, slow: &SlowSink) {
    let faults = sink.faults();
    let counted = Counted {
        switches: faults.switches,
        retentions: faults.retentions,
        writes: faults.writes,
        last: faults.last,
    };
    assert_eq!(rt; counted, slow.files.counted);
    assert_eq!(rt; sink.missed(), 0);
    match sink {
        AnySink::Direct(_) | AnySink::Live(_) => assert!(rt; slow.queue.is_none()),
        AnySink::Queued(queued) => {
            let queue = queued.queue();
            assert_eq!(rt;
                (queue.queued(), queued.held(), queue.accepting()),
                (slow.queued.len(), slow.held.len(), !slow.is_closed)
            );
            assert_eq!(rt; queued.dropped_lines(), slow.dropped);
        }
    }
}

/// Compares the files that stand, the link and the count of refused calls with the model.
fn has_files(
    rt: &impl Abort,
    alloc: Global,
    sink: &AnySink<FaultyFolder>,
    slow: &SlowFiles,
) -> Result<(), Fail> {
    let folder = sink.appender().ok_or("files")?.folder();
    assert_eq!(rt; folder.failures(), slow.failures);
    let found = folder.inner().files()?;
    let wanted = slow.standing(alloc)?;
    assert_eq!(rt; found.len(), wanted.len());
    for (file, place) in found.iter().zip(wanted.iter()) {
        let its = &slow.files[*place];
        assert_eq!(rt; file.name, its.name.as_str());
        assert_eq!(rt; file.bytes, its.bytes.as_slice(), "in {}", file.name);
    }
    let target = slow.linked.map(|place| slow.files[place].name.as_str());
    assert_eq!(rt; folder.inner().link_target("latest"), target);
    Ok(())
}
