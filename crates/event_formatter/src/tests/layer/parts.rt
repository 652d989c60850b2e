// What the builders of a layer's format change in its lines.
use super::*;

#[test]
fn level_and_target(rt: HostRuntime) -> Result<(), Fail> {
    let alloc = rt.alloc();
    let layer = plain(alloc, 1)?.with_level(true);
    assert!(rt; writes(alloc, layer, "fake time  INFO s{x=42}: app: hi n=3\n")?);
    let layer = plain(alloc, 1)?.with_target(false);
    assert!(rt; writes(alloc, layer, "fake time s{x=42}: hi n=3\n")?);
    Ok(())
}

#[test]
fn threads_of_lines(rt: HostRuntime) -> Result<(), Fail> {
    let alloc = rt.alloc();
    let mut layer = plain(alloc, 1)?.with_thread_ids(true);
    layer.thread(Some(String::from_str(alloc, "main")?), 7)?;
    assert!(rt;
        writes(
            alloc,
            layer,
            "fake time ThreadId(07) s{x=42}: app: hi n=3\n"
        )?
    );
    let mut layer = plain(alloc, 1)?.with_thread_names(true);
    layer.thread(Some(String::from_str(alloc, "main")?), 7)?;
    assert!(rt; writes(alloc, layer, "fake time main s{x=42}: app: hi n=3\n")?);
    Ok(())
}

#[test]
fn places_in_the_source(rt: HostRuntime) -> Result<(), Fail> {
    let alloc = rt.alloc();
    let layer = plain(alloc, 1)?.with_file(true);
    assert!(rt; writes(alloc, layer, "fake time s{x=42}: app: src/a.rs: hi n=3\n")?);
    let layer = plain(alloc, 1)?.with_line_number(true);
    assert!(rt; writes(alloc, layer, "fake time s{x=42}: app: 7: hi n=3\n")?);
    let layer = plain(alloc, 1)?.with_source_location(true);
    assert!(rt; writes(alloc, layer, "fake time s{x=42}: app: src/a.rs:7: hi n=3\n")?);
    Ok(())
}

#[test]
fn compact_and_pretty(rt: HostRuntime) -> Result<(), Fail> {
    let alloc = rt.alloc();
    let layer = plain(alloc, 1)?.compact();
    assert!(rt; writes(alloc, layer, "fake time s: app: hi n=3 x=42\n")?);
    let layer = plain(alloc, 1)?.pretty();
    assert!(rt;
        writes(
            alloc,
            layer,
            "  fake time app: hi, n: 3\n    at src/a.rs:7\n    in app::s with x: 42\n\n"
        )?
    );
    Ok(())
}

#[test]
fn json(rt: HostRuntime) -> Result<(), Fail> {
    let alloc = rt.alloc();
    let layer = plain(alloc, 1)?.json();
    assert!(rt;
        writes(
            alloc,
            layer,
            "{\"timestamp\":\"fake time\",\"fields\":{\"message\":\"hi\",\"n\":3},\"target\":\"app\",\
             \"span\":{\"x\":42,\"name\":\"s\"},\"spans\":[{\"x\":42,\"name\":\"s\"}]}\n"
        )?
    );
    Ok(())
}

#[test]
fn shapes_of_json(rt: HostRuntime) -> Result<(), Fail> {
    let alloc = rt.alloc();
    let layer = plain(alloc, 1)?
        .json()
        .flatten_event(true)
        .with_current_span(false);
    assert!(rt;
        writes(
            alloc,
            layer,
            "{\"timestamp\":\"fake time\",\"message\":\"hi\",\"n\":3,\"target\":\"app\",\
             \"spans\":[{\"x\":42,\"name\":\"s\"}]}\n"
        )?
    );
    let layer = plain(alloc, 1)?.json().with_span_list(false);
    assert!(rt;
        writes(
            alloc,
            layer,
            "{\"timestamp\":\"fake time\",\"fields\":{\"message\":\"hi\",\"n\":3},\"target\":\"app\",\
             \"span\":{\"x\":42,\"name\":\"s\"}}\n"
        )?
    );
    Ok(())
}
