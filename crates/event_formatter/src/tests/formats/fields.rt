use super::*;
use event_formatter_text::FormatFields;

#[test]
fn two_lists(rt: HostRuntime) -> Result<(), Fail> {
    let set = FieldSet::new(&NAMES, Identifier(1));
    let first = only_m();
    let second = [None, Some(AnyValue::I64(3))];
    for (fields, text) in [
        (Fields::Default, "m n=3"),
        (Fields::Pretty, "m, n: 3"),
        (Fields::PrettyFields, "m n: 3"),
        (Fields::Json, "{\"message\":\"m\",\"n\":3}"),
    ] {
        let mut kept = fields.start(rt.alloc(), PLAIN)?;
        fields.add_fields(rt.alloc(), &mut kept, &set.value_set_all(&[]))?;
        fields.add_fields(rt.alloc(), &mut kept, &set.value_set_all(&first))?;
        fields.add_fields(rt.alloc(), &mut kept, &set.value_set_all(&second))?;
        assert_eq!(rt; kept.text(), text);
    }
    Ok(())
}
