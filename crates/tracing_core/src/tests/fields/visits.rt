use super::*;
use std::alloc::{AllocError, Global};
use std::convert::AsStr;
use std::fmt;
use std::fmt::Write;

#[derive(Debug, PartialEq, Eq, Drop)]
enum Stop {
    Full,
    OutOfMemory,
}

impl From<AllocError> for Stop {
    fn from(_: AllocError) -> Stop {
        Stop::OutOfMemory
    }
}

// Writes each field's place, its name and what it is given, and refuses once `limit` entries stand.
#[derive(Drop)]
struct Lines {
    text: String,
    limit: usize,
}

fn make_lines(alloc: Global, limit: usize) -> Lines {
    Lines {
        text: String::new(alloc),
        limit,
    }
}

impl Lines {
    fn add(&mut self, field: &Field<'_>, value: &DebugText<'_>) -> Result<(), Stop> {
        if self.limit == 0 {
            return Err(Stop::Full);
        }
        self.limit -= 1;
        let (place, name) = (field.index(), field.name());
        match write!(self.text, "{place} {name}={value:?};") {
            Ok(()) => Ok(()),
            Err(_) => Err(Stop::OutOfMemory),
        }
    }
}

// Leaves each call but the last to its default.
impl Visit for Lines {
    type Error = Stop;

    ghost shows = { λ _ _ _ _ _. Unit {0} };

    fn record_debug(&mut self, field: &Field<'_>, value: &DebugText<'_>) -> Result<(), Stop> {
        self.add(field, value)
    }
}

// Counts texts, and writes what else it is given.
#[derive(Drop)]
struct Texts {
    count: u64,
    others: Lines,
}

impl Visit for Texts {
    type Error = Stop;

    ghost shows = { λ _ _ _ _ _. Unit {0} };

    fn record_str(&mut self, _field: &Field<'_>, value: &str) -> Result<(), Stop> {
        self.count = self.count.saturating_add(value.len() as u64);
        Ok(())
    }

    fn record_debug(&mut self, field: &Field<'_>, value: &DebugText<'_>) -> Result<(), Stop> {
        self.others.add(field, value)
    }
}

#[test]
fn sets_of_strings_are_read(rt: HostRuntime) -> Result<(), Fail> {
    let alloc = rt.alloc();
    let names = vec![in alloc; "a".to_string(alloc)?, "b".to_string(alloc)?]?;
    let set = FieldSet::of_strings(&names, Identifier(3));
    let lent = ["a", "b"];
    assert!(rt; set == FieldSet::new(&lent, Identifier(3)));
    assert!(rt; set != FieldSet::new(&lent[..1], Identifier(3)));
    let b = set.field("b").ok_or("b")?;
    assert_eq!(rt;
        (b.index(), b.name(), b.as_str(), set.len()),
        (1, "b", "b", 2)
    );
    assert!(rt; set.field("c").is_none());
    assert_eq!(rt; format!(in alloc; "{set}")?.as_str(), "{a, b}");
    assert_eq!(rt;
        format!(in alloc; "{}", FieldSet::new(&[], Identifier(3)))?.as_str(),
        "{}"
    );
    let mut last = 0;
    for field in &set {
        last = field.index();
    }
    assert_eq!(rt; last, 1);
    Ok(())
}

#[test]
fn debug_texts_print(rt: HostRuntime) -> Result<(), Fail> {
    let alloc = rt.alloc();
    let texts = DebugText::Texts {
        plain: "a",
        alternate: "b",
    };
    assert_eq!(rt; format!(in alloc; "{texts:?}{texts:#?}")?.as_str(), "ab");
    for (text, want) in [
        (DebugText::I64(-3), "-3"),
        (DebugText::U64(7), "7"),
        (
            DebugText::I128(-(1 << 100)),
            "-1267650600228229401496703205376",
        ),
        (DebugText::U128(1 << 100), "1267650600228229401496703205376"),
        (DebugText::Bool(true), "true"),
        (DebugText::Str("a \"b\""), "\"a \\\"b\\\"\""),
        (
            DebugText::Str("\\ \n\r\t\0 \u{1b}\u{7f}\u{9f} é 😀"),
            "\"\\\\ \\n\\r\\t\\0 \\u{1b}\\u{7f}\\u{9f} é 😀\"",
        ),
        (DebugText::Bytes(b""), "[]"),
        (DebugText::Bytes(b"\x00\x7f\xff"), "[00 7f ff]"),
        (DebugText::Error(ErrorText::new("e", &["why"])), "e"),
    ] {
        assert_eq!(rt; format!(in alloc; "{text:?}")?.as_str(), want);
        assert_eq!(rt; format!(in alloc; "{text:#?}")?.as_str(), want);
    }
    assert!(rt; format!(in alloc; "{:?}", DebugText::Failing).is_err());
    assert_eq!(rt;
        format!(in alloc;
            "{:>4?}|{:+?}|{:6?}|{:6?}",
            DebugText::U64(7),
            DebugText::I64(7),
            DebugText::Bool(true),
            DebugText::Str("a")
        )?
        .as_str(),
        "   7|+7|true  |\"a\""
    );
    Ok(())
}

#[test]
fn each_value_is_visited(rt: HostRuntime) -> Result<(), Fail> {
    let names = ["a", "b", "c", "d", "e", "f", "g", "h", "i"];
    let set = FieldSet::new(&names, Identifier(1));
    let sources = ["why"];
    let values = each_value(&sources);
    let mut visitor = make_lines(rt.alloc(), 8);
    assert_eq!(rt;
        set.value_set_all(&values).record(&mut visitor),
        Err(Stop::Full)
    );
    assert_eq!(rt;
        visitor.text.as_str(),
        "0 a=-1;1 b=2;2 c=-3;3 d=4;4 e=false;5 f=\"s\";6 g=[0a];7 h=e;"
    );
    let mut texts = Texts {
        count: 0,
        others: make_lines(rt.alloc(), 9),
    };
    assert_eq!(rt; set.value_set_all(&values[4..7]).record(&mut texts), Ok(()));
    assert_eq!(rt;
        (texts.count, texts.others.text.as_str()),
        (1, "0 a=false;2 c=[0a];")
    );
    Ok(())
}

#[test]
fn only_own_present_values_are_visited(rt: HostRuntime) -> Result<(), Fail> {
    let set = FieldSet::new(&NAMES, Identifier(7));
    let foreign = FieldSet::new(&NAMES, Identifier(8));
    let longer_names = ["message", "count", "n", "past"];
    let longer = FieldSet::new(&longer_names, Identifier(7));
    let own = set.field("message").ok_or("message")?;
    let count = set.field("count").ok_or("count")?;
    let other = foreign.field("message").ok_or("message")?;
    let past = longer.field("past").ok_or("past")?;
    let values = [
        (other, Some(AnyValue::U64(1))),
        (past, Some(AnyValue::U64(5))),
        (count, Some(AnyValue::U64(2))),
        (own, Some(AnyValue::Empty)),
        (own, None),
        (own, Some(AnyValue::U64(3))),
        (count, Some(AnyValue::U64(4))),
    ];
    assert_eq!(rt; set.value_set(&values).len(), 5);
    let mut visitor = make_lines(rt.alloc(), 9);
    assert_eq!(rt; set.value_set(&values).record(&mut visitor), Ok(()));
    assert_eq!(rt; visitor.text.as_str(), "1 count=2;0 message=3;1 count=4;");
    let mut visitor = make_lines(rt.alloc(), 1);
    assert_eq!(rt;
        set.value_set(&values).record(&mut visitor),
        Err(Stop::Full)
    );
    assert_eq!(rt; visitor.text.as_str(), "1 count=2;");
    Ok(())
}

#[test]
fn owned_values_are_given_by_index(rt: HostRuntime) -> Result<(), Fail> {
    let alloc = rt.alloc();
    let set = FieldSet::new(&NAMES, Identifier(7));
    let message = set.field("message").ok_or("message")?;
    let count = set.field("count").ok_or("count")?;
    let text = "hi".to_string(alloc)?;
    let values = vec![in alloc;
        FieldValue {
            field: 2,
            value: OwnedValue::I64(-1)
        },
        FieldValue {
            field: 3,
            value: OwnedValue::U64(1)
        },
        FieldValue {
            field: 1,
            value: OwnedValue::Empty
        },
        FieldValue {
            field: 0,
            value: OwnedValue::Text(text)
        },
        FieldValue {
            field: 2,
            value: OwnedValue::U64(5)
        },
    ]?;
    let given = set.value_set_indexed(IndexedValues::Owned(&values));
    assert_eq!(rt; (given.len(), given.is_empty()), (4, false));
    assert!(rt; given.contains(&message) && !given.contains(&count));
    let mut visitor = make_lines(alloc, 9);
    assert_eq!(rt; given.record(&mut visitor), Ok(()));
    assert_eq!(rt;
        visitor.text.as_str(),
        "2 count=-1;0 message=\"hi\";2 count=5;"
    );
    assert!(rt;
        set.value_set_indexed(IndexedValues::Owned(&values[1..3]))
            .is_empty()
    );
    Ok(())
}

#[test]
fn ids_are_lent(rt: HostRuntime) -> Result<(), Fail> {
    let id = Id::from_u64(3).ok_or("an id")?;
    let kept: Option<Id> = Option::from(&id);
    assert_eq!(rt; kept, Some(id));
    Ok(())
}

#[test]
fn error_texts_keep_their_parts(rt: HostRuntime) {
    let sources = ["b", "c"];
    let error = ErrorText::new("a", &sources);
    assert_eq!(rt; (error.text(), error.sources().len()), ("a", 2));
}
