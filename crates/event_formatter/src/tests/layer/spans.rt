// Spans in the lines of events.
use super::*;
use tracing_core_fields::LevelFilter;

#[test]
fn surface_layer(rt: HostRuntime) -> Result<(), Fail> {
    let mut tree = over_registry(rt.alloc(), plain(rt.alloc(), 1)?)?;
    let span = enter_span(&mut tree, "outer")?;
    tell_hi(&mut tree)?;
    let fields = FieldSet::new(&NAMES, Identifier(1));
    let more = [None, Some(AnyValue::Bool(true))];
    tree.record(&span, &Record::new(fields.value_set_all(&more)), moment(0))?;
    tree.record(&span, &Record::new(fields.value_set_all(&FAILS)), moment(0))?;
    tell_hi(&mut tree)?;
    tree.exit(&span, moment(0));
    tell_hi(&mut tree)?;
    assert!(rt;
        has_lines(
            tree.layer(),
            &[
                "fake time outer{x=42}: app: hi n=3\n",
                "fake time outer{x=42 n=true}: app: hi n=3\n",
                "fake time app: hi n=3\n",
            ]
        )
    );
    assert!(rt; tree.layer().starved() == 0);
    Ok(())
}

#[test]
fn a_failing_first_list_gives_no_text(rt: HostRuntime) -> Result<(), Fail> {
    let mut tree = over_registry(rt.alloc(), plain(rt.alloc(), 1)?)?;
    let span = make(&mut tree, "s", &FAILS, moment(0))?;
    tree.enter(&span, moment(0))?;
    tell_hi(&mut tree)?;
    assert!(rt; has_lines(tree.layer(), &["fake time s: app: hi n=3\n"]));
    Ok(())
}

#[test]
fn each_layer_sees_what_its_filter_passed(rt: HostRuntime) -> Result<(), Fail> {
    let quiet = plain(rt.alloc(), 1)?.with_filter(LevelFilter::OFF);
    let loud = plain(rt.alloc(), 2)?.with_filter(LevelFilter::INFO);
    let tree = quiet
        .and_then(loud)
        .with_subscriber(Registry::new(rt.alloc()));
    let mut tree = tree.ok().ok_or("room")?;
    enter_span(&mut tree, "outer")?;
    tell_hi(&mut tree)?;
    let both = tree.layer();
    assert!(rt; has_lines(both.inner().inner(), &[]));
    assert!(rt;
        has_lines(
            both.layer().inner(),
            &["fake time outer{x=42}: app: hi n=3\n"]
        )
    );
    Ok(())
}

#[test]
fn styles_stand_round_pieces(rt: HostRuntime) -> Result<(), Fail> {
    let mut tree = over_registry(rt.alloc(), plain(rt.alloc(), 1)?.with_ansi(true))?;
    let span = enter_span(&mut tree, "s")?;
    tell_hi(&mut tree)?;
    tree.exit(&span, moment(0));
    assert!(rt;
        has_lines(
            tree.layer(),
            &[
                "\u{1b}[2mfake time\u{1b}[0m \u{1b}[1ms\u{1b}[0m\u{1b}[1m{\u{1b}[0m\
                 \u{1b}[3mx\u{1b}[0m\u{1b}[2m=\u{1b}[0m42\u{1b}[1m}\u{1b}[0m\u{1b}[2m:\u{1b}[0m \
                 \u{1b}[2mapp\u{1b}[0m\u{1b}[2m:\u{1b}[0m hi \u{1b}[3mn\u{1b}[0m\u{1b}[2m=\u{1b}[0m3\n",
            ]
        )
    );
    Ok(())
}
