// Random steps over several stacks, each made by a trace and by the models.

use crate::tests::common::{MONDAY, event_at, lent_number, lent_text, span_at};
use crate::tests::holders::Holders;
use crate::tests::model::{FILTERS, LANES, Model, OUTPUTS, Under};
use crate::{
    AnySink, Fields, FileStack, Filtered, FixedText, FmtSpan, Format, Json, Layer, LineFormat,
    MemoryFolder, Output, OutputKey, Parent, PendingLines, Pretty, Refusal, Reply,
    RollingFileAppender, RollingSink, Rotation, RoutedSinks, SpanName, Stack, Timer, Trace,
    TraceStack,
};
use std::alloc::Global;
use std::num::NonZeroU64;
use std::process::Abort;
use std::test::Fail;
use tracing_core_fields::{FieldSet, Identifier, Level, LevelFilter};

type Outputs = FileStack<LevelFilter, MemoryFolder>;

const LEVELS: [Level; 5] = [
    Level::ERROR,
    Level::WARN,
    Level::INFO,
    Level::DEBUG,
    Level::TRACE,
];

const LEVEL_FILTERS: [LevelFilter; 5] = [
    LevelFilter::ERROR,
    LevelFilter::WARN,
    LevelFilter::INFO,
    LevelFilter::DEBUG,
    LevelFilter::TRACE,
];

const SPAN_FIELDS: [&str; 1] = ["x"];

const EVENT_FIELDS: [&str; 2] = ["message", "n"];

/// Identifiers of the events' callsites stand behind those of the spans'.
const EVENTS: u64 = 10;

/// How many steps a run has.
const STEPS: u64 = 200;

/// How many stacks a run has at most.
const STACKS: usize = 5;

/// Numbers that look random, and are the same in each run.
#[derive(Drop)]
pub(crate) struct Dice {
    pub(crate) state: u64,
}

impl Dice {
    pub(crate) fn roll(&mut self, sides: u64) -> u64 {
        self.state = self
            .state
            .wrapping_mul(6_364_136_223_846_793_005)
            .wrapping_add(1_442_695_040_888_963_407);
        (self.state >> 33) % sides
    }
}

fn shape_of(output: usize) -> (LineFormat, Fields) {
    match output {
        0 => (LineFormat::Full, Fields::Default),
        1 => (LineFormat::Compact, Fields::Default),
        2 => (LineFormat::Json(Json::new()), Fields::Json),
        _ => (LineFormat::Pretty(Pretty::new()), Fields::Pretty),
    }
}

fn stack_of_four(alloc: Global) -> Result<Outputs, Fail> {
    let mut outputs = Vec::new(alloc);
    let mut sinks = Vec::new(alloc);
    for place in 0..OUTPUTS {
        let (shape, fields) = shape_of(place);
        let time = FixedText::new(String::from_str(alloc, "T")?);
        let format = Format::new(alloc)
            .with_timer(Timer::Fixed(time))
            .with_shape(shape);
        let key = OutputKey(place as u32);
        let told = if place == 0 {
            FmtSpan::CLOSE
        } else {
            FmtSpan::NONE
        };
        let layer = Layer::new(alloc, key, PendingLines::new(alloc))
            .without_time()
            .event_format(format)
            .fmt_fields(fields)
            .with_span_events(told);
        let filter = LEVEL_FILTERS[FILTERS[place]];
        let output = Filtered::new(layer, filter);
        outputs.push(Output { key, output }).ok().ok_or("room")?;
        let folder = MemoryFolder::new(alloc);
        let appender = RollingFileAppender::new(
            alloc,
            Rotation::NEVER,
            folder,
            "lines",
            MONDAY,
        ).map_err(|refusal| refusal.error)?;
        let sink = RoutedSinks::single(alloc, AnySink::Direct(RollingSink::new(appender)))?;
        sinks.push(sink).ok().ok_or("room")?;
    }
    let stack = Stack::new(alloc, outputs).ok().ok_or("a stack")?;
    Ok(TraceStack::new(stack, sinks).ok().ok_or("pairs")?)
}

/// Spans and events of each level.
fn register_all(trace: &mut Trace<Outputs>) -> Result<(), Fail> {
    for (place, level) in LEVELS.iter().enumerate() {
        let id = Identifier(place as u64);
        let names = FieldSet::new(&SPAN_FIELDS, id);
        let span = span_at("s", *level, names);
        trace.register(id, &span)?;
        let id = Identifier(place as u64 + EVENTS);
        let names = FieldSet::new(&EVENT_FIELDS, id);
        let event = event_at("e", *level, names);
        trace.register(id, &event)?;
    }
    Ok(())
}

/// A trace, and models of its stacks and of who holds them.
#[derive(Drop)]
struct Both {
    alloc: Global,
    trace: Trace<Outputs>,
    holders: Holders,
    models: Vec<Model>,
}

impl Both {
    /// Lanes, callsites, and one stack that they reach.
    fn new(rt: &impl Abort, alloc: Global) -> Result<Both, Fail> {
        let mut both = Both {
            alloc,
            trace: Trace::new(alloc),
            holders: Holders::new(alloc, LANES)?,
            models: Vec::new(alloc),
        };
        for _ in 0..LANES {
            both.trace.thread(None, 1)?;
        }
        both.add_stack(rt)?;
        register_all(&mut both.trace)?;
        assert_eq!(rt; both.trace.set_global_default(0), Reply::Done);
        assert_eq!(rt; both.holders.set_global_default(0), Reply::Done);
        Ok(both)
    }

    fn add_stack(&mut self, rt: &impl Abort) -> Result<(), Fail> {
        let stack = stack_of_four(self.alloc)?;
        let handle = self.trace.add_stack(stack).ok().ok_or("a handle")?;
        assert_eq!(rt; handle, self.holders.add()?);
        self.models.push(Model::new(self.alloc)?)?;
        assert_eq!(rt; self.trace.stack_count(), self.holders.stacks);
        Ok(())
    }

    /// A random span, which may be one that was never made, of a stack that may be none.
    fn random_span(&self, dice: &mut Dice) -> Result<(SpanName, usize), Fail> {
        let stack = dice.roll(self.holders.stacks as u64 + 1) as usize;
        let count = match self.models.get(stack) {
            Some(model) => model.count(),
            None => 0,
        };
        let span = dice.roll(count as u64 + 1) as usize;
        Ok((named(stack, span)?, span))
    }

    /// A random event, span or question, and what the trace and the models answer of it.
    fn tell(&mut self, dice: &mut Dice) -> Result<(Reply, Reply), Fail> {
        let lane = dice.roll(LANES as u64) as usize;
        let level = dice.roll(5) as usize;
        let reached = self.holders.reached(lane);
        match dice.roll(5) {
            0 => {
                let callsite = Identifier(level as u64);
                let reply = self.trace.enabled(lane, MONDAY, callsite);
                let is_wanted = reached.is_some() && level <= FILTERS[0];
                Ok((reply, Reply::Enabled(is_wanted)))
            }
            1 | 2 => {
                let n = dice.roll(100);
                let values = [lent_text(0, "m"), lent_number(1, n)];
                let callsite = Identifier(level as u64 + EVENTS);
                let here = Parent::Contextual;
                let reply = self.trace.event(lane, MONDAY, callsite, here, &values);
                if let Some(stack) = reached {
                    self.models[stack].event(lane, level, n)?;
                }
                Ok((reply, Reply::Done))
            }
            _ => self.new_span(dice, lane, level),
        }
    }

    fn new_span(
        &mut self,
        dice: &mut Dice,
        lane: usize,
        level: usize,
    ) -> Result<(Reply, Reply), Fail> {
        let n = dice.roll(100);
        let (parent, under) = match dice.roll(6) {
            0 => (Parent::Root, Under::Nothing),
            1 | 2 => {
                let (name, span) = self.random_span(dice)?;
                (Parent::Explicit(name), Under::Span(span))
            }
            _ => (Parent::Contextual, Under::Current),
        };
        let values = [lent_number(0, n)];
        let reply = self
            .trace
            .new_span(lane, MONDAY, Identifier(level as u64), parent, &values);
        let wanted = self.model_span(lane, level, n, parent, under)?;
        Ok((reply, wanted))
    }

    fn model_span(
        &mut self,
        lane: usize,
        level: usize,
        n: u64,
        parent: Parent,
        under: Under,
    ) -> Result<Reply, Fail> {
        if let Some(refusal) = self.holders.parent_refusal(lane, parent) {
            return Ok(Reply::Refused(refusal));
        }
        let Some(stack) = self.holders.reached(lane) else {
            return Ok(Reply::Span(None));
        };
        let model = &mut self.models[stack];
        if let Under::Span(span) = under
            && !model.is_open(span)
        {
            return Ok(Reply::Refused(Refusal::UnknownSpan));
        }
        let name = named(stack, model.count())?;
        let is_made = model.new_span(lane, level, n, under)?;
        Ok(Reply::Span(if is_made { Some(name) } else { None }))
    }

    /// A random call on a span.
    fn call(&mut self, dice: &mut Dice) -> Result<(Reply, Reply), Fail> {
        let lane = dice.roll(LANES as u64) as usize;
        let (name, span) = self.random_span(dice)?;
        let kind = dice.roll(6);
        if kind == 5 {
            return self.follow(dice, lane, name, span);
        }
        let reply = match kind {
            0 | 1 => self.trace.enter(lane, MONDAY, Some(name)),
            2 => self.trace.exit(lane, MONDAY, Some(name)),
            3 => self.trace.clone_span(lane, MONDAY, Some(name)),
            _ => self.trace.try_close(lane, MONDAY, Some(name)),
        };
        if let Some(refusal) = self.holders.stack_refusal(name.stack) {
            return Ok((reply, Reply::Refused(refusal)));
        }
        let model = &mut self.models[name.stack];
        let wanted = match kind {
            0 | 1 => done_if(model.enter(lane, span)?),
            2 => done_if(model.exit(lane, span)?),
            3 => done_if(model.clone_span(span)),
            _ => match model.try_close(span)? {
                Some(is_closed) => Reply::Closed(is_closed),
                None => Reply::Refused(Refusal::UnknownSpan),
            },
        };
        Ok((reply, wanted))
    }

    /// A link of a span to another one.
    fn follow(
        &mut self,
        dice: &mut Dice,
        lane: usize,
        name: SpanName,
        span: usize,
    ) -> Result<(Reply, Reply), Fail> {
        let (followed, other) = self.random_span(dice)?;
        let reply = self
            .trace
            .record_follows_from(lane, MONDAY, Some(name), Some(followed));
        let wanted = match self.holders.pair_refusal(name, followed) {
            Some(refusal) => Reply::Refused(refusal),
            None => {
                let model = &self.models[name.stack];
                done_if(model.is_open(span) && model.is_open(other))
            }
        };
        Ok((reply, wanted))
    }

    /// A random step on who holds stacks, or one stack more.
    fn hold(&mut self, rt: &impl Abort, dice: &mut Dice) -> Result<(Reply, Reply), Fail> {
        let lane = dice.roll(LANES as u64 + 1) as usize;
        let handle = dice.roll(self.holders.handle_count() as u64 + 1) as usize;
        let guard = dice.roll(self.holders.guard_count() as u64 + 1) as usize;
        let (trace, holders) = (&mut self.trace, &mut self.holders);
        let answers = match dice.roll(12) {
            0 if holders.stacks < STACKS => {
                self.add_stack(rt)?;
                (Reply::Done, Reply::Done)
            }
            1 => (
                trace.set_global_default(handle),
                holders.set_global_default(handle),
            ),
            2 => (
                trace.set_default(lane, None),
                holders.set_default(lane, None)?,
            ),
            3 | 4 | 5 => (
                trace.set_default(lane, Some(handle)),
                holders.set_default(lane, Some(handle))?,
            ),
            6 | 7 | 8 => (
                trace.reset_default(lane, guard),
                holders.reset_default(lane, guard),
            ),
            9 => (trace.release(handle), holders.release(handle)),
            _ => (trace.clone_handle(handle), holders.clone_handle(handle)?),
        };
        Ok(answers)
    }

    /// Each stack, also one that was released, has the texts of its model.
    fn has_texts(&self, rt: &impl Abort) -> Result<(), Fail> {
        for (stack, model) in self.models.iter().enumerate() {
            for (output, text) in model.texts.iter().enumerate() {
                let sink = self.trace.sink(OUTPUTS * stack + output).ok_or("a sink")?;
                let files = sink.appender().ok_or("a folder")?.folder().files()?;
                assert_eq!(rt; files.len(), 1);
                for file in &files {
                    let shown = str::from_utf8(file.bytes).ok().unwrap_or("not UTF-8");
                    assert_eq!(rt; shown, text.as_str());
                }
            }
        }
        Ok(())
    }
}

/// The span at a place of the list of a stack's model.
fn named(stack: usize, place: usize) -> Result<SpanName, Fail> {
    let id = NonZeroU64::new(place as u64 + 1).ok_or("an id")?;
    Ok(SpanName { stack, id })
}

fn done_if(is_taken: bool) -> Reply {
    if is_taken {
        Reply::Done
    } else {
        Reply::Refused(Refusal::UnknownSpan)
    }
}

#[test]
fn random_runs_write_what_the_models_say(rt: HostRuntime) -> Result<(), Fail> {
    let alloc = rt.alloc();
    for seed in 0..12 {
        let mut dice = Dice { state: seed };
        let mut both = Both::new(&rt, alloc)?;
        for step in 0..STEPS {
            let (reply, wanted) = match dice.roll(10) {
                0 | 1 | 2 | 3 => both.tell(&mut dice)?,
                4 | 5 | 6 | 7 => both.call(&mut dice)?,
                _ => both.hold(&rt, &mut dice)?,
            };
            assert_eq!(rt; reply, wanted, "step {step} of run {seed}");
        }
        both.has_texts(&rt)?;
    }
    Ok(())
}
