use super::*;
use crate::tests::common::Names;
use event_formatter_text::{
    Alt, DefaultVisitor, JsonVisitor, Messages, PrettyVisitor, RecordFields,
};

// Lets the visitor take the values, between two brackets.
fn bracketed<V: VisitFmt, R: RecordFields>(visitor: &mut V, fields: &R) -> Result<(), V::Error> {
    visitor.write_str("[")?;
    fields.record(visitor)?;
    visitor.write_str("]")
}

#[test]
fn texts_of_each_visitor(rt: HostRuntime) -> Result<(), Fail> {
    let set = FieldSet::new(&NAMES, Identifier(1));
    let values = all_values();
    let fields = set.value_set_all(&values);
    let mut out = String::new(rt.alloc());
    bracketed(
        &mut DefaultVisitor::new(Writer::new(&mut out), true),
        &fields,
    )?;
    bracketed(
        &mut PrettyVisitor::new(Writer::new(&mut out), true),
        &fields,
    )?;
    bracketed(&mut JsonVisitor::new(Writer::new(&mut out), true), &fields)?;
    assert_eq!(rt;
        out.as_str(),
        "[hi n=-3 d=3][hi, n: -3, d: 3][\"message\":\"hi\",\"n\":-3,\"d\":\"3\"]"
    );
    Ok(())
}

#[test]
fn texts_through_other_visitors(rt: HostRuntime) -> Result<(), Fail> {
    let set = FieldSet::new(&NAMES, Identifier(1));
    let values = all_values();
    let fields = set.value_set_all(&values);
    let mut out = String::new(rt.alloc());
    let maker = DefaultFields.display_messages().debug_alt();
    bracketed(&mut maker.make_visitor(Writer::new(&mut out)), &fields)?;
    assert_eq!(rt; out.as_str(), "[hi n=-3 d=three]");
    Ok(())
}

#[test]
fn a_delimiter_before_other_visitors(rt: HostRuntime) -> Result<(), Fail> {
    let set = FieldSet::new(&NAMES, Identifier(1));
    let values = texts();
    let pairs = debug_fn(Pair);
    let mut out = String::new(rt.alloc());
    let maker = (&pairs).debug_alt().delimited("; ");
    maker.visit_with(Writer::new(&mut out), &set.value_set_all(&values))?;
    assert_eq!(rt; out.as_str(), "message: 'hi; n: 't; d: three");
    Ok(())
}

#[test]
fn bytes_between_fields(rt: HostRuntime) -> Result<(), Fail> {
    let set = FieldSet::new(&NAMES, Identifier(1));
    let values = [None, Some(AnyValue::I64(-3))];
    let bytes = Vec::new(rt.alloc());
    let mut visitor = Alt::new(Messages::new(Names { bytes }));
    visitor.write_all(b"<")?;
    set.value_set_all(&values).record(&mut visitor)?;
    visitor.write_all(b">")?;
    assert!(rt; visitor.inner().inner().bytes.as_slice() == b"<n>".as_slice());
    Ok(())
}
