//! A layer of the formatter over a file that changes by a clock.

ghost use Rattle.std.specs.Prelude.{◌≡◌, true};
ghost use Rattle.tracing_appender.specs.Moments.{is_moment};

use event_formatter::Layer;
use span_registry_layers::{Filtered, Output, OutputKey, Stack};
use std::process::Abort;
use std::test::Fail;
use tracing_appender::{Builder, Clock, Clocked, FileEntry, MemoryFolder, Moment, Rotation};
use tracing_core::{
    AnyValue, At, Event, FieldSet, Identifier, Kind, Level, LevelFilter, Metadata, Subscriber,
};

/// A clock that tells each hour twice, from the moment that it was made with on.
#[derive(Drop)]
struct Hours {
    next: Moment,
    is_second: bool,
    ghost in_range: { is_moment next ≡ true },
}

impl Clock for Hours {
    ghost reads = { λ _ _ _. Unit {0} };

    fn now(&mut self) -> Moment {
        let now = self.next;
        if self.is_second {
            if let Ok(next) = Moment::new(now.seconds.saturating_add(3_600), 0) {
                self.next = next;
            }
        }
        self.is_second = !self.is_second;
        now
    }
}

const PLACE: At = At {
    lane: 0,
    seconds: 0,
    nanoseconds: 0,
};

fn has_text(rt: &impl Abort, file: &FileEntry<'_>, name: &str, text: &str) -> Result<(), Fail> {
    assert_eq!(rt; file.name, name);
    let shown = str::from_utf8(file.bytes).ok().unwrap_or("not UTF-8");
    assert_eq!(rt; shown, text);
    Ok(())
}

/// The clock begins at 2020-02-01T10:01:00Z.
#[test]
fn each_line_goes_to_the_file_of_its_hour(rt: HostRuntime) -> Result<(), Fail> {
    let alloc = rt.alloc();
    let first = Moment {
        seconds: 1_580_551_260,
        nanoseconds: 0,
    };
    let hours = Hours {
        next: first,
        is_second: false,
    };
    let clocked = Builder::new(alloc)
        .rotation(Rotation::HOURLY)
        .filename_prefix("test_make_writer")
        .build(alloc, MemoryFolder::new(alloc), first)
        .map_err(|refused| refused.error)?
        .clocked(hours);
    let layer = Layer::new(alloc, OutputKey(1), clocked)
        .without_time()
        .with_level(false)
        .with_target(false);
    let mut outputs = Vec::new(alloc);
    let output = Output {
        key: OutputKey(1),
        output: Filtered::new(layer, LevelFilter::INFO),
    };
    outputs.push(output).ok().ok_or("room")?;
    let mut stack = Stack::new(alloc, outputs).ok().ok_or("a stack")?;
    let fields = FieldSet::new(&["message"], Identifier(7));
    let (level, kind) = (Level::INFO, Kind::EVENT);
    let info = Metadata::new("e", "app", level, None, None, None, fields, kind);
    for text in ["file 1", "file 1", "file 2", "file 2"] {
        let values = [Some(AnyValue::Str(text))];
        stack.event(&Event::new(&info, fields.value_set_all(&values)), PLACE)?;
    }
    let written = stack.output(0).ok_or("an output")?.inner().writer();
    let files = written.appender().folder().files()?;
    assert_eq!(rt; files.len(), 2);
    let (one, two) = ("file 1\nfile 1\n", "file 2\nfile 2\n");
    has_text(&rt, &files[0], "test_make_writer.2020-02-01-10", one)?;
    has_text(&rt, &files[1], "test_make_writer.2020-02-01-11", two)
}
