use super::*;
use std::test::Fail;

// What the formatter keeps of a span with these lists of values.
fn kept<F: FormatFields>(
    alloc: Global,
    formatter: &F,
    lists: &[&[Option<AnyValue<'_>>]],
) -> Result<FormattedFields, FormatError> {
    let set = FieldSet::new(&NAMES, Identifier(1));
    let mut fields = formatter.start(alloc, PLAIN)?;
    for values in lists {
        match formatter.add_fields(alloc, &mut fields, &set.value_set_all(values)) {
            Err(FormatError::OutOfMemory) => return Err(FormatError::OutOfMemory),
            Ok(()) | Err(FormatError::Failed) => {}
        }
    }
    Ok(fields)
}

const ONE: [Option<AnyValue<'static>>; 2] = [None, Some(AnyValue::U64(1))];

const FAILS: [Option<AnyValue<'static>>; 2] = [
    Some(AnyValue::U64(5)),
    Some(AnyValue::Debug(DebugText::Failing)),
];

const MORE: [Option<AnyValue<'static>>; 3] = [
    None,
    Some(AnyValue::U64(2)),
    Some(AnyValue::Bool(false)),
];

#[test]
fn a_failing_record_changes_nothing(rt: HostRuntime) -> Result<(), Fail> {
    let fields = kept(rt.alloc(), &DefaultFields, &[&ONE, &FAILS, &MORE])?;
    assert_eq!(rt; fields.text(), "n=1 n=2 d=false");
    let fields = kept(rt.alloc(), &PrettyFields, &[&ONE, &FAILS, &MORE])?;
    assert_eq!(rt; fields.text(), "n: 1 n: 2, d: false");
    let fields = kept(rt.alloc(), &JsonFields, &[&ONE, &FAILS, &MORE])?;
    assert_eq!(rt; fields.text(), "{\"d\":false,\"n\":2}");
    Ok(())
}

#[test]
fn a_failing_first_list_leaves_the_start(rt: HostRuntime) -> Result<(), Fail> {
    let fields = kept(rt.alloc(), &DefaultFields, &[&FAILS, &ONE])?;
    assert_eq!(rt; fields.text(), "n=1");
    let fields = kept(rt.alloc(), &JsonFields, &[&FAILS])?;
    assert_eq!(rt; fields.text(), "{}");
    Ok(())
}

#[test]
fn a_record_without_fields_adds_a_space(rt: HostRuntime) -> Result<(), Fail> {
    let fields = kept(rt.alloc(), &DefaultFields, &[&ONE, &[]])?;
    assert_eq!(rt; fields.text(), "n=1 ");
    assert!(rt; fields.settings() == PLAIN);
    let (text, words) = fields.into_parts();
    assert!(rt; text.as_str() == "n=1 " && words.is_empty());
    Ok(())
}

#[test]
fn parts_are_put_together_again(rt: HostRuntime) -> Result<(), Fail> {
    let fields = kept(rt.alloc(), &JsonFields, &[&MORE])?;
    let (text, words) = fields.into_parts();
    assert_eq!(rt; words.len(), 4);
    let mut fields = FormattedFields::from_parts(text, words, PLAIN);
    let set = FieldSet::new(&NAMES, Identifier(1));
    JsonFields.add_fields(rt.alloc(), &mut fields, &set.value_set_all(&ONE))?;
    let shown = format!(in rt.alloc(); "{fields}")?;
    assert_eq!(rt; shown.as_str(), "{\"d\":false,\"n\":1}");
    Ok(())
}
