// What the builders of a layer change in its lines.
use super::*;
use event_formatter_text::PrettyFields;

// A layer whose maker refuses each line.
fn refused(alloc: Global) -> Result<Plain, Fail> {
    let mut layer = plain(alloc, 1)?;
    layer.writer_mut().refusal = Some(ErrorKind::WriteZero);
    Ok(layer)
}

#[test]
fn formatters_of_events_are_taken(rt: HostRuntime) -> Result<(), Fail> {
    let alloc = rt.alloc();
    let compact = Format::new(alloc).without_time().compact();
    let layer = plain(alloc, 1)?.event_format(compact);
    assert!(rt; writes(alloc, layer, " INFO s: app: hi n=3 x=42\n")?);
    let layer = plain(alloc, 1)?.map_event_format(|format| format.compact().with_target(false));
    assert!(rt; writes(alloc, layer, "fake time s: hi n=3 x=42\n")?);
    Ok(())
}

#[test]
fn formatters_of_fields_are_taken(rt: HostRuntime) -> Result<(), Fail> {
    let alloc = rt.alloc();
    let layer = plain(alloc, 1)?.fmt_fields(PrettyFields);
    assert!(rt; writes(alloc, layer, "fake time s{x: 42}: app: hi, n: 3\n")?);
    let layer = plain(alloc, 1)?.map_fmt_fields(|_fields| PrettyFields);
    assert!(rt; writes(alloc, layer, "fake time s{x: 42}: app: hi, n: 3\n")?);
    Ok(())
}

#[test]
fn makers_are_taken(rt: HostRuntime) -> Result<(), Fail> {
    let alloc = rt.alloc();
    assert!(rt; !writes(alloc, refused(alloc)?, "fake time s{x=42}: app: hi n=3\n")?);
    let layer = refused(alloc)?.with_writer(Lines::new(alloc));
    assert!(rt; writes(alloc, layer, "fake time s{x=42}: app: hi n=3\n")?);
    let layer = refused(alloc)?.map_writer(|lines| Lines::new(lines.alloc));
    assert!(rt; writes(alloc, layer, "fake time s{x=42}: app: hi n=3\n")?);
    Ok(())
}
