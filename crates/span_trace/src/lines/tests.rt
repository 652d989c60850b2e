//! What the lines of stacks may ask for.

use crate::lines::{FolderLine, Line, LineFault, OutputLine, Setup, SinkLine, decode_line};
use std::alloc::Global;
use std::process::Abort;
use std::test::Fail;
use tracing_appender_rolling::Rotation;

/// A stack's line with one output of this route and these sinks.
fn stack_text(alloc: Global, route: &str, sinks: &str) -> Result<String, Fail> {
    Ok(format!(in alloc;
        "{{\"do\":\"stack\",\"moment\":[0,0],\"outputs\":[{{\"key\":7,\"filter\":\"info\",\"format\":\"full\",\"route\":{route},\"sinks\":[{sinks}]}}]}}"
    )?)
}

/// The output of a line that is readable.
fn output_of(alloc: Global, route: &str, sinks: &str) -> Result<OutputLine, Fail> {
    let line = stack_text(alloc, route, sinks)?;
    let Line::Setup(Setup::Stack(mut stack)) = decode_line(alloc, &[], line.as_bytes())? else {
        return Err("no stack")?;
    };
    Ok(stack.outputs.pop().ok_or("no output")?)
}

fn expect_unreadable(rt: &impl Abort, alloc: Global, route: &str, sinks: &str) -> Result<(), Fail> {
    let line = stack_text(alloc, route, sinks)?;
    let fault = decode_line(alloc, &[], line.as_bytes()).err();
    assert!(rt; fault == Some(LineFault::NotReadable), "{line}");
    Ok(())
}

/// The only sink.
fn sink_of(alloc: Global, members: &str) -> Result<SinkLine, Fail> {
    let sink = format!(in alloc; "{{{members}}}")?;
    let mut output = output_of(alloc, "0", sink.as_str())?;
    Ok(output.sinks.pop().ok_or("no sink")?)
}

#[test]
fn routes(rt: HostRuntime) -> Result<(), Fail> {
    let alloc = rt.alloc();
    for (route, wanted) in [
        ("3", "Sink(3)"),
        ("18446744073709551615", "Sink(18446744073709551615)"),
        (r#"{"max":["info",0]}"#, "MaxLevel(Level(Info), Sink(0))"),
        (r#"{"min":["2",1]}"#, "MinLevel(Level(Warn), Sink(1))"),
        (r#"{"tee":[0,1]}"#, "Tee(Sink(0), Sink(1))"),
        (
            r#"{"or_else":[{"max":["WARN",{"tee":[1,0]}]},{"min":["trace",2]}]}"#,
            "OrElse(MaxLevel(Level(Warn), Tee(Sink(1), Sink(0))), MinLevel(Level(Trace), Sink(2)))",
        ),
    ] {
        let output = output_of(alloc, route, "")?;
        let shown = format!(in alloc; "{:?}", output.route)?;
        assert_eq!(rt; shown.as_str(), wanted, "{route}");
    }
    Ok(())
}

#[test]
fn unreadable_routes(rt: HostRuntime) -> Result<(), Fail> {
    let alloc = rt.alloc();
    for route in [
        "-1",
        "null",
        "[0,1]",
        r#""0""#,
        "{}",
        r#"{"filter":["INFO",0]}"#,
        r#"{"max":["INFO",0],"min":["INFO",0]}"#,
        r#"{"max":["INFO"]}"#,
        r#"{"max":["INFO",0,1]}"#,
        r#"{"max":["off",0]}"#,
        r#"{"min":[3,0]}"#,
        r#"{"max":[0,"INFO"]}"#,
        r#"{"max":{"level":"INFO","route":0}}"#,
        r#"{"tee":[0,1,2]}"#,
        r#"{"tee":[0,-1]}"#,
        r#"{"or_else":[{"max":["INFO",0]},{"tee":[1]}]}"#,
    ] {
        expect_unreadable(&rt, alloc, route, "")?;
    }
    Ok(())
}

/// A sink's place under so many bounds.
fn nested_route(alloc: Global, depth: usize) -> Result<String, Fail> {
    let open = r#"{"max":["INFO","#.repeat(alloc, depth)?;
    let close = "]}".repeat(alloc, depth)?;
    Ok(format!(in alloc; "{open}0{close}")?)
}

/// A line may have lists and objects in one another up to 127 deep, and its route begins three deep.
#[test]
fn nested_routes(rt: HostRuntime) -> Result<(), Fail> {
    let alloc = rt.alloc();
    let route = nested_route(alloc, 62)?;
    let output = output_of(alloc, route.as_str(), "")?;
    let shown = format!(in alloc; "{:?}", output.route)?;
    assert_eq!(rt; shown.as_str().matches("MaxLevel").count(), 62);
    let route = nested_route(alloc, 63)?;
    expect_unreadable(&rt, alloc, route.as_str(), "")
}

#[test]
fn rotations(rt: HostRuntime) -> Result<(), Fail> {
    let alloc = rt.alloc();
    for (word, wanted) in [
        ("minutely", Rotation::MINUTELY),
        ("hourly", Rotation::HOURLY),
        ("daily", Rotation::DAILY),
        ("weekly", Rotation::WEEKLY),
        ("never", Rotation::NEVER),
    ] {
        let members = format!(in alloc; "\"folder\":{{\"memory\":\"A\"}},\"rotation\":\"{word}\"")?;
        let sink = sink_of(alloc, members.as_str())?;
        assert!(rt; sink.rotation == wanted, "{word}");
        assert!(rt; matches!(&sink.folder, FolderLine::Memory(name) if name.as_str() == "A"));
        assert!(rt; sink.prefix.is_none() && sink.suffix.is_none());
        assert!(rt; sink.max_files.is_none() && sink.link.is_none());
    }
    Ok(())
}

#[test]
fn sinks(rt: HostRuntime) -> Result<(), Fail> {
    let alloc = rt.alloc();
    let sink = sink_of(
        alloc,
        r#""folder":{"disk":"logs/a"},"rotation":"hourly","prefix":"app","suffix":"log","max_files":3,"link":"latest""#,
    )?;
    assert!(rt; matches!(&sink.folder, FolderLine::Disk(path) if path.as_str() == "logs/a"));
    assert!(rt; sink.prefix.is_some_and(|text| text.as_str() == "app"));
    assert!(rt; sink.suffix.is_some_and(|text| text.as_str() == "log"));
    assert!(rt; sink.max_files == Some(3));
    assert!(rt; sink.link.is_some_and(|text| text.as_str() == "latest"));

    let three =
        r#"{"folder":{"memory":"A"},"rotation":"daily"},{"folder":{"memory":"A"},"rotation":"never"},{"folder":{"disk":"/"},"rotation":"weekly"}"#;
    assert_eq!(rt; output_of(alloc, "9", three)?.sinks.len(), 3);
    Ok(())
}

#[test]
fn unreadable_sinks(rt: HostRuntime) -> Result<(), Fail> {
    let alloc = rt.alloc();
    for sink in [
        r#"{"rotation":"daily"}"#,
        r#"{"folder":"A","rotation":"daily"}"#,
        r#"{"folder":{},"rotation":"daily"}"#,
        r#"{"folder":{"memory":1},"rotation":"daily"}"#,
        r#"{"folder":{"disk":null},"rotation":"daily"}"#,
        r#"{"folder":{"memory":"A","disk":"A"},"rotation":"daily"}"#,
        r#"{"folder":{"memory":"A"}}"#,
        r#"{"folder":{"memory":"A"},"rotation":"Daily"}"#,
        r#"{"folder":{"memory":"A"},"rotation":"yearly"}"#,
        r#"{"folder":{"memory":"A"},"rotation":"daily","max_files":-1}"#,
        r#"{"folder":{"memory":"A"},"rotation":"daily","max_files":null}"#,
        r#"{"folder":{"memory":"A"},"rotation":"daily","link":true}"#,
        r#"{"folder":{"memory":"A"},"rotation":"daily","queue":{"lossy":true}}"#,
        r#"{"folder":{"memory":"A"},"rotation":"daily","queue":[1,true]}"#,
        r#"{"folder":{"memory":"A"},"rotation":"daily"},{}"#,
    ] {
        expect_unreadable(&rt, alloc, "0", sink)?;
    }
    Ok(())
}
