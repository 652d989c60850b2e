use super::*;
use std::test::Fail;

#[test]
fn default_fields(rt: HostRuntime) -> Result<(), Fail> {
    let text = text_of(rt.alloc(), &DefaultFields::new(), PLAIN, &all_values())?;
    assert_eq!(rt;
        text.as_str(),
        "hi\\x1b n=-3 d=3 e=boom e.sources=[a, b] wide=7 yes=true raw=[01 ff]"
    );
    Ok(())
}

#[test]
fn pretty_fields(rt: HostRuntime) -> Result<(), Fail> {
    let text = text_of(rt.alloc(), &PrettyFields::new(), STYLED, &all_values())?;
    assert_eq!(rt;
        text.as_str(),
        "hi\u{1b}, n: -3, d: 3, e: boom, e.sources: [a, b], wide: 7, yes: true, raw: [01 ff]"
    );
    Ok(())
}

#[test]
fn json_fields(rt: HostRuntime) -> Result<(), Fail> {
    let text = text_of(rt.alloc(), &JsonFields::new(), STYLED, &all_values())?;
    assert_eq!(rt;
        text.as_str(),
        "{\"d\":\"3\",\"e\":\"boom\",\"message\":\"hi\\u001b\",\"n\":-3,\"raw\":[1,255],\"wide\":\"7\",\"yes\":true}"
    );
    Ok(())
}

#[test]
fn styles(rt: HostRuntime) -> Result<(), Fail> {
    let values = [Some(AnyValue::Str("m")), Some(AnyValue::U64(1))];
    let text = text_of(rt.alloc(), &DefaultFields, STYLED, &values)?;
    assert_eq!(rt; text.as_str(), "m \u{1b}[3mn\u{1b}[0m\u{1b}[2m=\u{1b}[0m1");
    Ok(())
}

#[test]
fn escapes(rt: HostRuntime) -> Result<(), Fail> {
    let controls = "\u{1b}\u{7}\u{8}\u{c}\u{7f}\u{80}\u{9f}é";
    let message = [Some(AnyValue::Str(controls))];
    let text = text_of(rt.alloc(), &DefaultFields, PLAIN, &message)?;
    assert_eq!(rt; text.as_str(), "\\x1b\\x07\\x08\\x0c\\x7f\\u{80}\\u{9f}é");
    let field = [None, Some(AnyValue::Str("a\"b\\\n\r\t\0\u{1b}\u{9f}é"))];
    let text = text_of(rt.alloc(), &DefaultFields, PLAIN, &field)?;
    assert_eq!(rt;
        text.as_str(),
        "n=\"a\\\"b\\\\\\n\\r\\t\\0\\u{1b}\\u{9f}é\""
    );
    let text = text_of(rt.alloc(), &JsonFields, PLAIN, &field)?;
    assert_eq!(rt;
        text.as_str(),
        "{\"n\":\"a\\\"b\\\\\\n\\r\\t\\u0000\\u001b\u{9f}é\"}"
    );
    Ok(())
}

#[test]
fn a_value_that_fails(rt: HostRuntime) -> Result<(), Fail> {
    let values = ONE_AND_FAILING;
    let failed = Some(FormatError::Failed);
    assert!(rt; text_of(rt.alloc(), &DefaultFields, PLAIN, &values).err() == failed);
    assert!(rt; text_of(rt.alloc(), &PrettyFields, PLAIN, &values).err() == failed);
    assert!(rt; text_of(rt.alloc(), &JsonFields, PLAIN, &values).err() == failed);
    Ok(())
}

#[test]
fn no_values(rt: HostRuntime) -> Result<(), Fail> {
    let empty = text_of(rt.alloc(), &DefaultFields, PLAIN, &[])?;
    assert_eq!(rt; empty.as_str(), "");
    let object = text_of(rt.alloc(), &JsonFields, PLAIN, &[])?;
    assert_eq!(rt; object.as_str(), "{}");
    Ok(())
}

#[test]
fn writers(rt: HostRuntime) -> Result<(), Fail> {
    let mut out = String::new(rt.alloc());
    let mut writer = Writer::new(&mut out);
    assert!(rt; !writer.has_ansi_escapes() && writer.sanitizes_ansi_escapes());
    assert!(rt; writer.settings() == PLAIN);
    writer.write_str("a\u{1b}")?;
    writer.write_char('é')?;
    assert_eq!(rt; out.as_str(), "a\u{1b}é");
    Ok(())
}

#[test]
fn visitors_over_others(rt: HostRuntime) -> Result<(), Fail> {
    let mut out = String::new(rt.alloc());
    let values = [
        Some(AnyValue::Str("m")),
        Some(AnyValue::Str("t")),
        Some(AnyValue::Debug(TEXT)),
    ];
    let set = FieldSet::new(&NAMES, Identifier(1));
    let inner = JsonVisitor::new(Writer::new(&mut out), true);
    let mut visitor = Messages::new(Alt::new(inner));
    set.value_set_all(&values).record(&mut visitor)?;
    let _ = visitor.into_inner().into_inner();
    assert_eq!(rt;
        out.as_str(),
        "\"message\":\"m\",\"n\":\"t\",\"d\":\"three\""
    );
    Ok(())
}

#[test]
fn members_of_an_object(rt: HostRuntime) -> Result<(), Fail> {
    let set = FieldSet::new(&NAMES, Identifier(1));
    let mut out = String::new(rt.alloc());
    push_json_string(&mut out, "a\"b")?;
    let none = push_json_members(&mut out, true, &set.value_set_all(&[]))?;
    assert!(rt; none);
    let values = [Some(AnyValue::Str("m")), Some(AnyValue::U64(1))];
    let is_first = push_json_members(&mut out, false, &set.value_set_all(&values))?;
    assert!(rt; !is_first);
    assert_eq!(rt; out.as_str(), "\"a\\\"b\",\"message\":\"m\",\"n\":1");
    Ok(())
}
