// Events that can't be formatted, and makers that refuse.
use super::*;

#[test]
fn a_fault_stands_in_place_of_an_event(rt: HostRuntime) -> Result<(), Fail> {
    let mut tree = over_registry(rt.alloc(), plain(rt.alloc(), 1)?)?;
    tell(&mut tree, &FAILS, moment(0))?;
    tell_hi(&mut tree)?;
    assert!(rt;
        has_lines(
            tree.layer(),
            &[
                "Unable to format the following event. Name: ev; Fields: [message, n, x]\n",
                "fake time app: hi n=3\n",
            ]
        )
    );
    Ok(())
}

#[test]
fn faults_are_told_where_asked(rt: HostRuntime) -> Result<(), Fail> {
    let layer = plain(rt.alloc(), 1)?.log_internal_errors(false);
    let mut tree = over_registry(rt.alloc(), layer)?;
    tell(&mut tree, &FAILS, moment(0))?;
    tell_hi(&mut tree)?;
    assert!(rt; has_lines(tree.layer(), &["fake time app: hi n=3\n"]));
    assert!(rt; tree.layer().starved() == 0);
    Ok(())
}

#[test]
fn messages_are_sanitized(rt: HostRuntime) -> Result<(), Fail> {
    let red = [Some(AnyValue::Str("\u{1b}[31mred"))];
    let mut tree = over_registry(rt.alloc(), plain(rt.alloc(), 1)?)?;
    tell(&mut tree, &red, moment(0))?;
    assert!(rt; has_lines(tree.layer(), &["fake time app: \\x1b[31mred\n"]));
    let layer = plain(rt.alloc(), 1)?.with_ansi_sanitization(false);
    let mut tree = over_registry(rt.alloc(), layer)?;
    tell(&mut tree, &red, moment(0))?;
    assert!(rt; has_lines(tree.layer(), &["fake time app: \u{1b}[31mred\n"]));
    Ok(())
}

#[test]
fn want_of_memory_of_the_maker_is_counted(rt: HostRuntime) -> Result<(), Fail> {
    let mut layer = plain(rt.alloc(), 1)?;
    layer.writer_mut().refusal = Some(ErrorKind::OutOfMemory);
    let mut tree = over_registry(rt.alloc(), layer)?;
    tell_hi(&mut tree)?;
    assert!(rt; tree.layer().starved() == 1);
    let mut layer = plain(rt.alloc(), 1)?;
    layer.writer_mut().refusal = Some(ErrorKind::WriteZero);
    let mut tree = over_registry(rt.alloc(), layer)?;
    tell_hi(&mut tree)?;
    assert!(rt; tree.layer().starved() == 0);
    Ok(())
}
