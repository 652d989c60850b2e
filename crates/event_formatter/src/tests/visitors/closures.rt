use super::*;

// Appends the name of the field, unless its value fails.
fn append_name(
    text: String,
    field: &Field<'_>,
    value: &DebugText<'_>,
) -> Result<String, FormatError> {
    let mut text = text;
    if let DebugText::Failing = value {
        return Err(FormatError::Failed);
    }
    text.push_str(field.name())?;
    Ok(text)
}

#[test]
fn a_closure(rt: HostRuntime) -> Result<(), Fail> {
    let closure: AppendField = Box::new(
        rt.alloc(),
        |text: String, field: &Field<'_>, value: &DebugText<'_>| append_name(text, field, value),
    )?;
    let names = debug_fn(FieldClosure::new(rt.alloc(), closure));
    let set = FieldSet::new(&NAMES, Identifier(1));
    let mut out = String::new(rt.alloc());
    let maker = (&names).delimited(", ");
    maker.visit_with(Writer::new(&mut out), &set.value_set_all(&all_values()))?;
    assert_eq!(rt; out.as_str(), "message, n, d");
    let failing = [Some(AnyValue::Debug(DebugText::Failing))];
    let mut out = String::new(rt.alloc());
    let refused = maker.visit_with(Writer::new(&mut out), &set.value_set_all(&failing));
    assert!(rt; refused == Err(FormatError::Failed));
    Ok(())
}
