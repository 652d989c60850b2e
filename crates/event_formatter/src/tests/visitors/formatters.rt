use super::*;
use crate::tests::common::PLAIN;
use event_formatter_text::FormatFields;

// What is kept of a span with two lists of these values.
fn kept_text<F: FormatFields>(
    alloc: Global,
    formatter: &F,
    values: &[Option<AnyValue<'_>>],
) -> Result<String, FormatError> {
    let set = FieldSet::new(&NAMES, Identifier(1));
    let mut kept = formatter.start(alloc, PLAIN)?;
    formatter.add_fields(alloc, &mut kept, &set.value_set_all(values))?;
    formatter.add_fields(alloc, &mut kept, &set.value_set_all(values))?;
    let (text, words) = kept.into_parts();
    let _ = words;
    Ok(text)
}

// What the formatter writes of the values, behind what stands there.
fn text_of<F: FormatFields>(
    alloc: Global,
    formatter: &F,
    values: &[Option<AnyValue<'_>>],
) -> Result<String, FormatError> {
    let set = FieldSet::new(&NAMES, Identifier(1));
    let mut out = String::from_str(alloc, "> ")?;
    let mut writer = Writer::with_settings(&mut out, PLAIN);
    formatter.format_fields(alloc, &mut writer, &set.value_set_all(values))?;
    Ok(out)
}

#[test]
fn functions(rt: HostRuntime) -> Result<(), Fail> {
    let formatter = debug_fn(Pair);
    let text = text_of(rt.alloc(), &formatter, &texts())?;
    assert_eq!(rt; text.as_str(), "> message: 'hin: 'td: 3");
    let kept = kept_text(rt.alloc(), &formatter, &texts())?;
    assert_eq!(rt;
        kept.as_str(),
        "message: 'hin: 'td: 3 message: 'hin: 'td: 3"
    );
    Ok(())
}

#[test]
fn delimited_functions(rt: HostRuntime) -> Result<(), Fail> {
    let formatter = debug_fn(Pair).delimited(", ");
    let text = text_of(rt.alloc(), &formatter, &texts())?;
    assert_eq!(rt; text.as_str(), "> message: 'hi, n: 't, d: 3");
    let kept = kept_text(rt.alloc(), &formatter, &texts()[1..])?;
    assert_eq!(rt; kept.as_str(), "message: 't, n: 3 message: 't, n: 3");
    Ok(())
}

#[test]
fn a_value_that_fails(rt: HostRuntime) -> Result<(), Fail> {
    let failed = Some(FormatError::Failed);
    assert!(rt; text_of(rt.alloc(), &debug_fn(Pair), &all_values()).err() == failed);
    let delimited = debug_fn(Pair).delimited(", ");
    assert!(rt; text_of(rt.alloc(), &delimited, &all_values()).err() == failed);
    assert!(rt; kept_text(rt.alloc(), &delimited, &all_values()).err() == failed);
    Ok(())
}
