use super::*;
use std::fmt;
use std::test::Fail;
use tracing_core_fields::Visit;

// A value that refuses to be formatted.
struct Refuses;

impl fmt::Display for Refuses {
    fn fmt<W: fmt::Write>(&self, f: &mut fmt::Formatter<W>) -> fmt::Result {
        f.write_str("lost")?;
        Err(fmt::Error)
    }
}

#[test]
fn writers_behind_one_text(rt: HostRuntime) -> Result<(), Fail> {
    let mut out = String::from_str(rt.alloc(), "> ")?;
    let mut writer = Writer::with_settings(&mut out, STYLED);
    let mut inner = writer.by_ref();
    assert!(rt; inner.settings() == STYLED);
    inner.write_str("a")?;
    writer.write_str("b")?;
    assert_eq!(rt; out.as_str(), "> ab");
    Ok(())
}

#[test]
fn formatted_values(rt: HostRuntime) -> Result<(), Fail> {
    let mut out = String::from_str(rt.alloc(), "> ")?;
    let mut writer = Writer::new(&mut out);
    let number = 7;
    write!(writer, "n={number:03} {}", "ok")?;
    assert!(rt; write!(writer, "{Refuses}") == Err(FormatError::Failed));
    assert_eq!(rt; out.as_str(), "> n=007 ok");
    Ok(())
}

#[test]
fn kept_texts_are_written_on(rt: HostRuntime) -> Result<(), Fail> {
    let mut fields = FormattedFields::default(rt.alloc());
    assert!(rt; fields.text() == "" && fields.settings() == PLAIN);
    fields.as_writer().write_str("n=1")?;
    fields.as_writer().write_str(" m=2")?;
    assert_eq!(rt; fields.text(), "n=1 m=2");
    let mut styled = FormattedFields::new(rt.alloc(), STYLED);
    assert!(rt; styled.as_writer().settings() == STYLED);
    Ok(())
}

// What the visitors write of one value, with a text before and behind it.
#[test]
fn texts_between_fields(rt: HostRuntime) -> Result<(), Fail> {
    let set = FieldSet::new(&NAMES, Identifier(1));
    let values = [None, Some(AnyValue::I64(-3))];
    let mut out = String::new(rt.alloc());
    let mut visitor = DefaultVisitor::new(Writer::new(&mut out), true);
    visitor.write_str("<")?;
    set.value_set_all(&values).record(&mut visitor)?;
    visitor.write_str(">")?;
    let mut visitor = PrettyVisitor::new(Writer::new(&mut out), true);
    set.value_set_all(&values).record(&mut visitor)?;
    visitor.write_str("; ")?;
    let mut visitor = JsonVisitor::new(Writer::new(&mut out), true);
    visitor.write_str("{")?;
    set.value_set_all(&values).record(&mut visitor)?;
    visitor.write_str("}")?;
    assert_eq!(rt; out.as_str(), "<n=-3>n: -3; {\"n\":-3}");
    Ok(())
}

#[test]
fn visitors_inside_others(rt: HostRuntime) -> Result<(), Fail> {
    let set = FieldSet::new(&NAMES, Identifier(1));
    let field = set.field("d").ok_or("a field")?;
    let mut out = String::new(rt.alloc());
    let mut visitor = Alt::new(Messages::new(DefaultVisitor::new(Writer::new(&mut out), true)));
    visitor.record_debug(&field, &TEXT)?;
    visitor.inner_mut().inner_mut().write_str(";")?;
    let _ = visitor.inner().inner();
    assert_eq!(rt; out.as_str(), "d=three;");
    Ok(())
}
