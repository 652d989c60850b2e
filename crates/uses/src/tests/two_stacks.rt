//! A lane that reaches a stack of its own for a while.

use crate::program::{log_text, open_trace, output_of, stack_of};
use crate::two_stacks::log_apart;
use span_tracing::{Moment, Refusal, Reply};
use std::test::Fail;
use tracing_core::{FieldSet, Identifier, Kind, Level, LevelFilter, Metadata};

/// 2025-02-17T10:01:00Z.
const MONDAY: Moment = Moment {
    seconds: 1_739_786_460,
    nanoseconds: 0,
};

const DONE: Identifier = Identifier(2);

#[test]
fn a_lane_logs_apart(rt: HostRuntime) -> Result<(), Fail> {
    let alloc = rt.alloc();
    let mut trace = open_trace(alloc, "app", LevelFilter::INFO, MONDAY)?;
    let output = output_of(alloc, "job", LevelFilter::INFO)?;
    let stack = stack_of(alloc, output, MONDAY)?;
    let handle = trace.add_stack(stack).ok().ok_or("room")?;
    let fields = FieldSet::new(&["message"], DONE);
    let level = Level::INFO;
    let done = Metadata::new("done", "app", level, None, None, None, fields, Kind::EVENT);
    assert!(rt; trace.register(DONE, &done).is_ok());
    assert_eq!(rt; log_text(&mut trace, MONDAY, DONE, "begun"), Reply::Done);
    let reply = log_apart(&mut trace, 0, handle, MONDAY, DONE, "at work")?;
    assert_eq!(rt; reply, Reply::Done);
    assert_eq!(rt; log_text(&mut trace, MONDAY, DONE, "over"), Reply::Done);
    let unknown = log_apart(&mut trace, 0, 9, MONDAY, DONE, "lost");
    assert_eq!(rt; unknown, Err(Refusal::UnknownStack));
    for (stack, lines) in [
        (0, " INFO app: begun\n INFO app: over\n"),
        (1, " INFO app: at work\n"),
    ] {
        let sink = trace.sink(stack).ok_or("a sink")?;
        let files = sink.appender().ok_or("a folder")?.folder().files()?;
        let file = files.first().ok_or("a file")?;
        assert_eq!(rt; file.bytes, lines.as_bytes());
    }
    Ok(())
}
