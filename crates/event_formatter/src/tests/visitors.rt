//! What visitors of makers write, and where they refuse.

mod between;
mod closures;
mod formatters;

ghost use Rattle.std.specs.Prelude.{◌≡◌, ◌++◌, Some};
ghost use Rattle.event_formatter_text.specs.Lists.{Formats};
ghost use Rattle.event_formatter_text.specs.Writers.{IsSameWriter, written};
ghost use Rattle.event_formatter_text.specs.field.Pairs.{pair_text};

use event_formatter_text::{DefaultFields, FormatError, JsonFields, PrettyFields, Writer, *};
use std::alloc::Global;
use std::test::Fail;
use tracing_core_fields::{AnyValue, DebugText, Field, FieldSet, Identifier, Visit};

const NAMES: [&str; 3] = ["message", "n", "d"];

const TEXT: DebugText<'static> = DebugText::Texts {
    plain: "3",
    alternate: "three",
};

fn all_values() -> [Option<AnyValue<'static>>; 3] {
    [
        Some(AnyValue::Str("hi")),
        Some(AnyValue::I64(-3)),
        Some(AnyValue::Debug(TEXT)),
    ]
}

fn texts() -> [Option<AnyValue<'static>>; 3] {
    [
        Some(AnyValue::Str("hi")),
        Some(AnyValue::Str("t")),
        Some(AnyValue::Debug(TEXT)),
    ]
}

// Writes a name, a colon and a text: one that was written before as it is, and any other behind a sign. It refuses
// all else.
#[derive(Clone, Copy)]
struct Pair;

impl WriteField for Pair {
    ghost writes = { λ _ _ field value before answer after. Formats (pair_text field.name value) before answer after };

    fn write_field(
        &self,
        writer: &mut Writer<'_>,
        field: &Field<'_>,
        value: &DebugText<'_>,
    ) -> Result<(), FormatError> {
        match value {
            DebugText::Texts { plain, .. } => write_pair(writer, field.name(), ": ", plain),
            DebugText::Str(text) => write_pair(writer, field.name(), ": '", text),
            _ => Err(FormatError::Failed),
        }
    }
}

impl WritePiece for Pair {
    ghost piece = { λ _ _ name value. pair_text name value };

    ghost writes_piece = { λ _ _ _ _ _ _ _ wrote. wrote };
}

fn write_pair(
    writer: &mut Writer<'_>,
    name: &str,
    mark: &str,
    text: &str,
) -> Result<(), FormatError>
    ensures same { IsSameWriter writer.old writer.new }
    ensures text { Formats (Some (name.now ++ mark.now ++ text.now)) (written writer.old) result (written writer.new) }
{
    writer.write_str(name)?;
    writer.write_str(mark)?;
    writer.write_str(text)?;
    Ok(())
}

#[test]
fn alternate_texts(rt: HostRuntime) -> Result<(), Fail> {
    let mut out = String::new(rt.alloc());
    let set = FieldSet::new(&NAMES, Identifier(1));
    let values = all_values();
    let maker = DefaultFields.debug_alt();
    maker.visit_with(Writer::new(&mut out), &set.value_set_all(&values))?;
    assert_eq!(rt; out.as_str(), "hi n=-3 d=three");
    Ok(())
}

#[test]
fn makers_of_each_format(rt: HostRuntime) -> Result<(), Fail> {
    let set = FieldSet::new(&NAMES, Identifier(1));
    let values = all_values();
    let mut out = String::new(rt.alloc());
    PrettyFields.visit_with(Writer::new(&mut out), &set.value_set_all(&values))?;
    assert_eq!(rt; out.as_str(), "hi, n: -3, d: 3");
    let mut out = String::new(rt.alloc());
    JsonFields.visit_with(Writer::new(&mut out), &set.value_set_all(&values))?;
    assert_eq!(rt; out.as_str(), "\"message\":\"hi\",\"n\":-3,\"d\":\"3\"");
    Ok(())
}

#[test]
fn messages_and_delimiters(rt: HostRuntime) -> Result<(), Fail> {
    let set = FieldSet::new(&NAMES, Identifier(1));
    let values = texts();
    let pairs = debug_fn(Pair);
    let mut out = String::new(rt.alloc());
    let maker = (&pairs).delimited(", ").display_messages().debug_alt();
    maker.visit_with(Writer::new(&mut out), &set.value_set_all(&values))?;
    assert_eq!(rt; out.as_str(), "message: hi, n: 't, d: three");
    Ok(())
}

#[test]
fn a_refusal_ends_the_visit(rt: HostRuntime) -> Result<(), Fail> {
    let set = FieldSet::new(&NAMES, Identifier(1));
    let values = all_values();
    let pairs = debug_fn(Pair);
    let mut out = String::new(rt.alloc());
    let mut visitor = (&pairs).delimited("-").make_visitor(Writer::new(&mut out));
    visitor.write_str("+")?;
    let refused = set.value_set_all(&values).record(&mut visitor);
    assert!(rt; refused == Err(FormatError::Failed));
    visitor.finish();
    assert_eq!(rt; out.as_str(), "+message: 'hi-");
    Ok(())
}
