use super::*;
use std::alloc::AllocError;

// Writes a letter for each call, and keeps the bytes of what was last given as a text.
#[derive(Drop)]
struct Letters {
    text: String,
}

impl Letters {
    fn add(&mut self, letter: char) -> Result<(), AllocError> {
        self.text.push(letter)
    }
}

// Tells each call by its own letter.
impl VisitKinds for Letters {
    type Error = AllocError;

    ghost takes = { λ _ _ _ _ _. Unit {0} };

    fn record_i64(&mut self, _field: &Field<'_>, _value: i64) -> Result<(), AllocError> {
        self.add('i')
    }

    fn record_u64(&mut self, _field: &Field<'_>, _value: u64) -> Result<(), AllocError> {
        self.add('u')
    }

    fn record_i128(&mut self, _field: &Field<'_>, _value: i128) -> Result<(), AllocError> {
        self.add('I')
    }

    fn record_u128(&mut self, _field: &Field<'_>, _value: u128) -> Result<(), AllocError> {
        self.add('U')
    }

    fn record_bool(&mut self, _field: &Field<'_>, _value: bool) -> Result<(), AllocError> {
        self.add('b')
    }

    fn record_str(&mut self, _field: &Field<'_>, _value: &str) -> Result<(), AllocError> {
        self.add('s')
    }

    fn record_bytes(&mut self, _field: &Field<'_>, _value: &[u8]) -> Result<(), AllocError> {
        self.add('y')
    }

    fn record_error(
        &mut self,
        _field: &Field<'_>,
        _value: &ErrorText<'_>,
    ) -> Result<(), AllocError> {
        self.add('e')
    }

    fn record_debug(
        &mut self,
        _field: &Field<'_>,
        _value: &DebugText<'_>,
    ) -> Result<(), AllocError> {
        self.add('d')
    }
}

#[test]
fn each_value_takes_the_call_of_its_kind(rt: HostRuntime) -> Result<(), Fail> {
    let alloc = rt.alloc();
    let names = ["a", "b", "c", "d", "e", "f", "g", "h", "i"];
    let set = FieldSet::new(&names, Identifier(1));
    let sources = ["why"];
    let values = each_value(&sources);
    let mut letters = Letters {
        text: String::new(alloc),
    };
    set.value_set_all(&values).record(&mut letters)?;
    assert_eq!(rt; letters.text.as_str(), "iuIUbsyed");
    Ok(())
}

#[test]
fn owned_values_take_the_call_of_their_kind(rt: HostRuntime) -> Result<(), Fail> {
    let alloc = rt.alloc();
    let names = ["a"];
    let set = FieldSet::new(&names, Identifier(1));
    let values = [
        FieldValue {
            field: 0,
            value: OwnedValue::I64(-1),
        },
        FieldValue {
            field: 0,
            value: OwnedValue::U64(2),
        },
        FieldValue {
            field: 0,
            value: OwnedValue::Text("s".to_string(alloc)?),
        },
    ];
    let mut letters = Letters {
        text: String::new(alloc),
    };
    set.value_set_indexed(IndexedValues::Owned(&values))
        .record(&mut letters)?;
    assert_eq!(rt; letters.text.as_str(), "ius");
    Ok(())
}

#[test]
fn owned_values_of_each_kind_are_lent(rt: HostRuntime) -> Result<(), Fail> {
    let alloc = rt.alloc();
    let sources = vec![in alloc; "why".to_string(alloc)?]?;
    let values = vec![in alloc;
        OwnedValue::I64(-1),
        OwnedValue::U64(2),
        OwnedValue::I128(-3),
        OwnedValue::U128(4),
        OwnedValue::Bool(false),
        OwnedValue::Text("s".to_string(alloc)?),
        OwnedValue::Bytes(vec![in alloc; 10_u8]?),
        OwnedValue::Error {
            text: "e".to_string(alloc)?,
            sources
        },
        OwnedValue::Failing,
        OwnedValue::Empty,
    ]?;
    let lent_sources = ["why"];
    let expected = each_value(&lent_sources);
    for (index, value) in values.iter().enumerate() {
        let lent = expected.get(index).copied().flatten();
        assert!(rt;
            value.lend() == lent.unwrap_or(AnyValue::Empty),
            "at {index}"
        );
    }
    let debug = OwnedValue::Debug {
        plain: "p".to_string(alloc)?,
        alternate: "a".to_string(alloc)?,
    };
    let texts = DebugText::Texts {
        plain: "p",
        alternate: "a",
    };
    assert!(rt; debug.lend() == AnyValue::Debug(texts));
    Ok(())
}

#[test]
fn texts_are_equal_however_they_are_lent(rt: HostRuntime) -> Result<(), Fail> {
    let alloc = rt.alloc();
    let owned = vec![in alloc; "a".to_string(alloc)?, "b".to_string(alloc)?]?;
    let texts = Texts::Owned(&owned);
    assert!(rt; texts == Texts::Lent(&["a", "b"]) && texts != Texts::Lent(&["a", "c"]));
    assert!(rt; texts != Texts::Lent(&["a"]) && Texts::Lent(&[]).is_empty());
    assert_eq!(rt;
        (texts.len(), texts.get(1), texts.get(2)),
        (2, Some("b"), None)
    );
    let error = ErrorText::of_strings("e", &owned);
    assert!(rt; error == ErrorText::new("e", &["a", "b"]) && error.sources() == texts);
    Ok(())
}
