// What is set after a span was made.
use super::*;
use span_registry_layers_layers::{Context, Layer as _};
use span_registry_layers_store::FilterMap;

// Makes a root span with x = 42 at the first moment, and tells the layer of it.
fn make_under(layer: &mut Plain, registry: &mut Registry) -> Result<Id, Fail> {
    let fields = FieldSet::new(&NAMES, Identifier(1));
    let metadata = span_metadata("s", fields);
    let values = [None, None, Some(AnyValue::U64(42))];
    let attributes = Attributes::new_root(&metadata, fields.value_set_all(&values));
    let span = registry
        .new_span(&attributes, 0, FilterMap::all())
        .ok()
        .ok_or("a span")?;
    let mut context = Context::new(registry, moment(0), None);
    layer.on_new_span(&attributes, &span, &mut context);
    Ok(span)
}

// Tells the layer that a span is entered after 100 nanoseconds and left after 350.
fn pass_through(layer: &mut Plain, registry: &mut Registry, span: &Id) {
    layer.on_enter(span, &mut Context::new(registry, moment(100), None));
    layer.on_exit(span, &mut Context::new(registry, moment(350), None));
}

// Tells the layer that a span closes after 400 nanoseconds.
fn close(layer: &mut Plain, registry: &mut Registry, span: &Id) {
    layer.on_close(span, &mut Context::new(registry, moment(400), None));
}

// Records n = true on a span, and tells the layer of an event in it.
fn record_and_tell(layer: &mut Plain, registry: &mut Registry, span: &Id) {
    let fields = FieldSet::new(&NAMES, Identifier(1));
    let more = [None, Some(AnyValue::Bool(true))];
    let values = Record::new(fields.value_set_all(&more));
    let mut context = Context::new(registry, moment(0), None);
    layer.on_record(span, &values, &mut context);
    let metadata = event_metadata("ev", None, None, fields);
    let hi = [Some(AnyValue::Str("hi"))];
    let event = Event::new_child_of(Some(*span), &metadata, fields.value_set_all(&hi));
    layer.on_event(&event, &mut context);
}

#[test]
fn span_events_may_be_set_later(rt: HostRuntime) -> Result<(), Fail> {
    let mut layer = plain(rt.alloc(), 1)?;
    let mut registry = Registry::new(rt.alloc());
    let span = make_under(&mut layer, &mut registry)?;
    layer.set_span_events(FmtSpan::FULL);
    pass_through(&mut layer, &mut registry, &span);
    close(&mut layer, &mut registry, &span);
    make_under(&mut layer, &mut registry)?;
    assert!(rt;
        has_lines(
            &layer,
            &[
                "fake time s{x=42}: app: enter\n",
                "fake time s{x=42}: app: exit\n",
                "fake time s{x=42}: app: close\n",
                "fake time s{x=42}: app: new\n",
            ]
        )
    );
    Ok(())
}

#[test]
fn times_go_on_where_closes_are_not_told(rt: HostRuntime) -> Result<(), Fail> {
    let mut layer = plain(rt.alloc(), 1)?.with_span_events(FmtSpan::CLOSE);
    let mut registry = Registry::new(rt.alloc());
    let quiet = make_under(&mut layer, &mut registry)?;
    let span = make_under(&mut layer, &mut registry)?;
    layer.set_span_events(FmtSpan::NONE);
    close(&mut layer, &mut registry, &quiet);
    pass_through(&mut layer, &mut registry, &span);
    layer.set_span_events(FmtSpan::CLOSE);
    close(&mut layer, &mut registry, &span);
    assert!(rt;
        has_lines(
            &layer,
            &["fake time s{x=42}: app: close time.busy=250ns time.idle=150ns\n"]
        )
    );
    Ok(())
}

#[test]
fn a_text_keeps_the_styles_of_its_making(rt: HostRuntime) -> Result<(), Fail> {
    let mut layer = plain(rt.alloc(), 1)?;
    let mut registry = Registry::new(rt.alloc());
    let span = make_under(&mut layer, &mut registry)?;
    layer.set_ansi(true);
    record_and_tell(&mut layer, &mut registry, &span);
    assert!(rt;
        has_lines(
            &layer,
            &[
                "\u{1b}[2mfake time\u{1b}[0m \u{1b}[1ms\u{1b}[0m\u{1b}[1m{\u{1b}[0mx=42 n=true\u{1b}[1m}\u{1b}[0m\u{1b}[2m:\u{1b}[0m \
                 \u{1b}[2mapp\u{1b}[0m\u{1b}[2m:\u{1b}[0m hi\n",
            ]
        )
    );
    Ok(())
}

#[test]
fn a_styled_text_stands_in_plain_lines(rt: HostRuntime) -> Result<(), Fail> {
    let mut layer = plain(rt.alloc(), 1)?.with_ansi(true);
    let mut registry = Registry::new(rt.alloc());
    let span = make_under(&mut layer, &mut registry)?;
    layer.set_ansi(false);
    record_and_tell(&mut layer, &mut registry, &span);
    assert!(rt;
        has_lines(
            &layer,
            &[
                "fake time s{\u{1b}[3mx\u{1b}[0m\u{1b}[2m=\u{1b}[0m42 \u{1b}[3mn\u{1b}[0m\u{1b}[2m=\u{1b}[0mtrue}: app: hi\n",
            ]
        )
    );
    Ok(())
}
