use super::*;
use std::io::Write;

// The values of the visitors below.
fn values() -> [Option<AnyValue<'static>>; 2] {
    [Some(AnyValue::Str("hi")), Some(AnyValue::I64(-3))]
}

#[test]
fn surface_writers(rt: HostRuntime) -> Result<(), Fail> {
    let mut fields = FormattedFields::default(rt.alloc());
    let mut writer = fields.as_writer();
    writer.by_ref().write_str("n=")?;
    let n = 7;
    write!(writer, "{n}")?;
    assert_eq!(rt; fields.text(), "n=7");
    let text = format!(in rt.alloc(); "{fields}")?;
    assert_eq!(rt; text.as_str(), "n=7");
    Ok(())
}

#[test]
fn surface_texts_between_fields(rt: HostRuntime) -> Result<(), Fail> {
    let set = FieldSet::new(&NAMES, Identifier(1));
    let values = values();
    let mut out = String::new(rt.alloc());
    let mut visitor = DefaultFields
        .display_messages()
        .debug_alt()
        .make_visitor(Writer::new(&mut out));
    visitor.write_str("[")?;
    set.value_set_all(&values).record(&mut visitor)?;
    visitor.inner_mut().write_str("]")?;
    visitor.finish();
    assert_eq!(rt; out.as_str(), "[hi n=-3]");
    Ok(())
}

#[test]
fn surface_bytes_between_fields(rt: HostRuntime) -> Result<(), Fail> {
    let set = FieldSet::new(&NAMES, Identifier(1));
    let values = [None, Some(AnyValue::I64(-3))];
    let bytes = Vec::new(rt.alloc());
    let mut visitor = Alt::new(Names { bytes });
    visitor.write_all(b"<")?;
    set.value_set_all(&values).record(&mut visitor)?;
    assert!(rt; visitor.inner().bytes.as_slice() == b"<n".as_slice());
    Ok(())
}

#[test]
fn surface_usual_formats(rt: HostRuntime) -> Result<(), Fail> {
    assert!(rt; Json::default() == Json::new() && Pretty::default() == Pretty::new());
    assert!(rt; Full::default() == Full && Compact::default() == Compact);
    assert!(rt; DefaultFields::default() == DefaultFields && JsonFields::default() == JsonFields);
    assert!(rt; PrettyFields::default() == PrettyFields::new());
    let format = Format::default(rt.alloc()).json();
    let _ = json(rt.alloc());
    let _ = format.flatten_event(true);
    Ok(())
}

#[test]
fn surface_delimiters(rt: HostRuntime) -> Result<(), Fail> {
    let set = FieldSet::new(&NAMES, Identifier(1));
    let values = values();
    let mut out = String::new(rt.alloc());
    let mut visitor = VisitDelimited::new(";", DefaultVisitor::new(Writer::new(&mut out), true));
    set.value_set_all(&values).record(&mut visitor)?;
    visitor.finish();
    let maker = Delimited::new(";", DefaultFields);
    maker.visit_with(Writer::new(&mut out), &set.value_set_all(&values))?;
    assert_eq!(rt; out.as_str(), "hi; n=-3hi; n=-3");
    Ok(())
}

// Refuses each line.
#[derive(Drop)]
struct Refusing;

impl MakeWriter for Refusing {
    ghost takes = { λ maker m b. Unit {0} };

    ghost writes = { λ maker m line answer after. Unit {0} };

    fn writes_for(&self, _metadata: &Metadata<'_>) -> bool {
        true
    }

    fn write_for(&mut self, _metadata: &Metadata<'_>, _line: &[u8]) -> io::Result<()> {
        Err(io::Error::from(ErrorKind::WriteZero))
    }
}

// Whether the maker takes a line of this level, and what it answers to one.
fn asked<M: MakeWriter>(maker: &mut M, level: Level) -> (bool, bool) {
    let fields = FieldSet::new(&NAMES, Identifier(1));
    let metadata = Metadata::new("ev", "app", level, None, None, None, fields, Kind::EVENT);
    let takes = maker.writes_for(&metadata);
    (takes, maker.write_for(&metadata, b"line").is_ok())
}

#[test]
fn surface_makers(rt: HostRuntime) -> Result<(), Fail> {
    let mut most = WithMaxLevel::new(Refusing, Level::INFO);
    assert!(rt; asked(&mut most, Level::INFO) == (true, false));
    assert!(rt; asked(&mut most, Level::DEBUG) == (false, true));
    let mut least = WithMinLevel::new(Refusing, Level::INFO);
    assert!(rt; asked(&mut least, Level::INFO) == (true, false));
    assert!(rt; asked(&mut least, Level::WARN) == (false, true));
    let test: MetadataTest = Box::new(
        rt.alloc(),
        |metadata: &Metadata<'_>| *metadata.level() == Level::DEBUG,
    )?;
    let mut filtered = WithFilter::new(Refusing, test);
    assert!(rt; asked(&mut filtered, Level::DEBUG) == (true, false));
    assert!(rt; asked(&mut filtered, Level::INFO) == (false, true));
    let mut both = Tee::new(WithMinLevel::new(Refusing, Level::DEBUG), Refusing);
    assert!(rt; asked(&mut both, Level::INFO) == (true, false));
    let rest = WithMinLevel::new(Refusing, Level::TRACE);
    let mut either = OrElse::new(most, rest);
    assert!(rt; asked(&mut either, Level::INFO) == (true, false));
    assert!(rt; asked(&mut either, Level::DEBUG) == (true, true));
    assert!(rt; asked(&mut either, Level::TRACE) == (true, false));
    let mut some = OptionalWriter::some(Vec::new(rt.alloc()));
    some.write_all(b"ab")?;
    assert!(rt; matches!(some, EitherWriter::A(bytes) if bytes.as_slice() == b"ab".as_slice()));
    let mut none = OptionalWriter::<Vec<u8>>::none();
    none.write_all(b"ab")?;
    assert!(rt; matches!(none, EitherWriter::B(_)));
    Ok(())
}

#[test]
fn surface_usual_layers(rt: HostRuntime) -> Result<(), Fail> {
    let made = Layer::default(rt.alloc(), OutputKey(1), Refusing);
    assert!(rt; made.starved() == 0);
    let mut outputs = Vec::new(rt.alloc());
    let layer = made
        .with_writer(Lines::new(rt.alloc()))
        .event_format(
            format(rt.alloc())
                .with_timer(Timer::System(time()))
                .with_shape(LineFormat::Full),
        )
        .fmt_fields(Fields::Default);
    let output = Filtered::new(layer, LevelFilter::INFO);
    let output = Output {
        key: OutputKey(1),
        output,
    };
    outputs.push(output).ok().ok_or("room")?;
    let mut stack = Stack::new(rt.alloc(), outputs).ok().ok_or("a stack")?;
    tell(&mut stack, Level::INFO, "hi")?;
    assert!(rt; wrote(&stack, 0, &["2025-02-17T10:01:00.000000Z  INFO app: hi\n"]));
    Ok(())
}
