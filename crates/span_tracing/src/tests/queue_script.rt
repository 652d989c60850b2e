//! A random script over sinks with queues, beside a slow table of what waits and of what stands in files.

use crate::tests::common::{MONDAY, event_at, output_over, text_field};
use crate::tests::random::Dice;
use crate::{
    AnySink, Builder, EventCall, FileStack, LineSettings, MemoryFolder, Moment, Parent, QueueCall,
    Refusal, Reply, Rotation, Route, SinkCall, SinkSpec, Step, Timer, Trace, open_trace,
};
use std::alloc::Global;
use std::process::Abort;
use std::test::Fail;
use tracing_core_fields::{FieldSet, Identifier, Level, LevelFilter};

type Queued = Trace<FileStack<LevelFilter, MemoryFolder>>;

const TOLD: Identifier = Identifier(1);

/// The limits of the outputs' queues, and whether they are lossy.
const QUEUES: [(usize, bool); 3] = [(1, false), (2, true), (100, false)];

/// How many days the moments lie in.
const DAYS: usize = 4;

/// How many steps a script has.
const STEPS: u64 = 600;

/// What waits before a sink, and by day the lines of its files. A line is its number.
#[derive(Drop)]
struct Table {
    limit: usize,
    lossy: bool,
    queued: Vec<u64>,
    held: Vec<u64>,
    /// How many lines stand before the mark, where it is put and not taken.
    before_mark: Option<usize>,
    is_sent: bool,
    is_closed: bool,
    accepted: usize,
    left: usize,
    dropped: usize,
    lost: usize,
    day: usize,
    files: Vec<Vec<u64>>,
}

impl Table {
    fn new(alloc: Global, limit: usize, lossy: bool) -> Result<Table, Fail> {
        let mut files = Vec::new(alloc);
        for _ in 0..DAYS {
            files.push(Vec::new(alloc))?;
        }
        Ok(Table {
            limit,
            lossy,
            queued: Vec::new(alloc),
            held: Vec::new(alloc),
            before_mark: None,
            is_sent: false,
            is_closed: false,
            accepted: 0,
            left: 0,
            dropped: 0,
            lost: 0,
            day: 0,
            files,
        })
    }

    fn has_room(&self) -> bool {
        self.queued.len() + usize::from(self.before_mark.is_some()) < self.limit
    }

    fn settle(&mut self, line: u64) -> Result<(), Fail> {
        if !self.is_closed && self.has_room() {
            self.queued.push(line)?;
            self.accepted += 1;
        } else if self.lossy {
            self.dropped += 1;
        } else if self.is_closed {
            self.lost += 1;
        } else {
            self.held.push(line)?;
        }
        Ok(())
    }

    fn work(&mut self, lines: usize, day: usize) -> Result<Reply, Fail> {
        let most = self.before_mark.unwrap_or(self.queued.len()).min(lines);
        if most > 0 {
            self.day = self.day.max(day);
        }
        for _ in 0..most {
            let line = self.queued.remove(0);
            self.files[self.day].push(line)?;
        }
        if let Some(before) = self.before_mark {
            self.before_mark = Some(before - most);
        }
        if self.before_mark == Some(0) {
            self.before_mark = None;
            self.is_closed = true;
            self.left = self.queued.len();
            self.queued.clear();
        }
        Ok(Reply::Worked(most))
    }

    fn admit(&mut self) -> Result<Reply, Fail> {
        if self.held.is_empty() {
            return Ok(Reply::Refused(Refusal::NothingHeld));
        }
        if self.is_closed {
            let _given_up = self.held.remove(0);
            return Ok(Reply::Refused(Refusal::Closed));
        }
        if !self.has_room() {
            return Ok(Reply::Refused(Refusal::NoRoom));
        }
        let line = self.held.remove(0);
        self.queued.push(line)?;
        self.accepted += 1;
        Ok(Reply::Done)
    }

    fn shutdown(&mut self) -> Reply {
        if self.is_sent {
            return Reply::Refused(Refusal::MarkSent);
        }
        if self.queued.len() >= self.limit {
            return Reply::Refused(Refusal::NoRoom);
        }
        self.is_sent = true;
        self.before_mark = Some(self.queued.len());
        Reply::Done
    }

    /// The text of a day's file, or none where no line was handed over on the day. The opening made the first day's.
    fn text(&self, alloc: Global, day: usize) -> Result<Option<String>, Fail> {
        let mut text = String::new(alloc);
        for line in &self.files[day] {
            text.push_str(format!(in alloc; "app: {line}\n")?.as_str())?;
        }
        Ok(if day == 0 || !text.as_str().is_empty() {
            Some(text)
        } else {
            None
        })
    }
}

/// The same time of each day.
fn moment_on(day: usize) -> Moment {
    Moment {
        seconds: MONDAY.seconds + 86_400 * day as i64,
        nanoseconds: 0,
    }
}

/// A trace of an output for each queue, and the tables beside it.
fn set_up(alloc: Global) -> Result<(Queued, Vec<Table>), Fail> {
    let mut outputs = Vec::new(alloc);
    let mut tables = Vec::new(alloc);
    for (key, (limit, lossy)) in QUEUES.iter().enumerate() {
        let lines = LineSettings {
            timer: Timer::Empty,
            level: false,
            ..LineSettings::full()
        };
        let builder = Builder::new(alloc).rotation(Rotation::DAILY);
        let mut sinks = Vec::new(alloc);
        let sink = SinkSpec::Queued(builder, MemoryFolder::new(alloc), *limit, *lossy);
        sinks.push(sink).ok().ok_or("room")?;
        for output in output_over(alloc, key as u32, lines, Route::Sink(0), sinks)? {
            outputs.push(output).ok().ok_or("room")?;
        }
        tables.push(Table::new(alloc, *limit, *lossy)?)?;
    }
    let mut trace = open_trace(alloc, outputs, MONDAY)?;
    let fields = FieldSet::new(&["message"], TOLD);
    let _interest = trace.register(TOLD, &event_at("event", Level::INFO, fields))?;
    Ok((trace, tables))
}

/// An event whose message is its number, which goes to each output.
fn told(alloc: Global, tables: &mut [Table], line: u64, day: usize) -> Result<(Step, Reply), Fail> {
    let text = format!(in alloc; "{line}")?;
    let mut values = Vec::new(alloc);
    values.push(text_field(alloc, 0, text.as_str())?)?;
    let step = Step::Event(EventCall {
        lane: 0,
        moment: moment_on(day),
        callsite: TOLD,
        parent: Parent::Contextual,
        values,
    });
    if tables.iter().any(|table| !table.held.is_empty()) {
        return Ok((step, Reply::Refused(Refusal::Busy)));
    }
    for table in tables {
        table.settle(line)?;
    }
    Ok((step, Reply::Done))
}

/// A call on the queue of a sink, of which the last one isn't there.
fn asked(dice: &mut Dice, tables: &mut [Table], day: usize) -> Result<(Step, Reply), Fail> {
    let sink = dice.roll(4) as usize;
    let lines = dice.roll(5) as usize;
    let call = match dice.roll(40) {
        0 => QueueCall::Shutdown,
        1..16 => QueueCall::Admit,
        _ => QueueCall::Work(lines, moment_on(day)),
    };
    let reply = match tables.get_mut(sink) {
        None => Reply::Refused(Refusal::UnknownSink),
        Some(table) => match call {
            QueueCall::Work(lines, _) => table.work(lines, day)?,
            QueueCall::Admit => table.admit()?,
            QueueCall::Shutdown => table.shutdown(),
        },
    };
    Ok((Step::Queue(SinkCall { sink, call }), reply))
}

/// Compares a sink with its table: what waits, what is counted, and the bytes of all files.
fn compare(
    rt: &impl Abort,
    alloc: Global,
    trace: &Queued,
    sink: usize,
    table: &Table,
) -> Result<(), Fail> {
    let Some(AnySink::Queued(queued)) = trace.sink(sink) else {
        return Err("a queued sink".into());
    };
    let queue = queued.queue();
    assert_eq!(rt;
        (queue.queued(), queued.held(), queue.accepting()),
        (table.queued.len(), table.held.len(), !table.is_closed)
    );
    assert_eq!(rt;
        (queue.accepted() as usize, queue.left() as usize),
        (table.accepted, table.left)
    );
    assert_eq!(rt;
        (queued.dropped_lines(), queued.faults().writes),
        (table.dropped, table.lost)
    );
    let files = queued.appender().folder().files()?;
    let mut number = 0;
    for day in 0..DAYS {
        if let Some(text) = table.text(alloc, day)? {
            let name = format!(in alloc; "2025-02-{}", 17 + day)?;
            let file = files.get(number).ok_or("a file of the day")?;
            assert_eq!(rt; file.name, name.as_str());
            let shown = str::from_utf8(file.bytes).ok().unwrap_or("not UTF-8");
            assert_eq!(rt; shown, text.as_str());
            number += 1;
        }
    }
    assert_eq!(rt; files.len(), number);
    Ok(())
}

/// A script from this seed.
fn play(rt: &impl Abort, alloc: Global, seed: u64) -> Result<(), Fail> {
    let (mut trace, mut tables) = set_up(alloc)?;
    let mut dice = Dice { state: seed };
    for line in 0..STEPS {
        let day = dice.roll(DAYS as u64) as usize;
        let (step, reply) = if dice.roll(2) == 0 {
            told(alloc, &mut tables, line, day)?
        } else {
            asked(&mut dice, &mut tables, day)?
        };
        assert_eq!(rt; trace.step(&step), reply);
        for (sink, table) in tables.iter().enumerate() {
            compare(rt, alloc, &trace, sink, table)?;
        }
    }
    Ok(())
}

#[test]
fn random_scripts_agree_with_a_slow_table(rt: HostRuntime) -> Result<(), Fail> {
    for seed in 1..6 {
        play(&rt, rt.alloc(), seed)?;
    }
    Ok(())
}
