use std::fmt;
use std::num::{NonZeroI128, NonZeroU8, Wrapping};
use std::test::Fail;
use tracing_core_fields::{AnyValue, DebugText, ErrorText, *};

// A value whose `fmt` fails half way.
struct Broken;

impl fmt::Display for Broken {
    fn fmt<W: fmt::Write>(&self, f: &mut fmt::Formatter<W>) -> fmt::Result {
        f.write_str("half")?;
        Err(fmt::Error)
    }
}

impl fmt::Debug for Broken {
    fn fmt<W: fmt::Write>(&self, f: &mut fmt::Formatter<W>) -> fmt::Result {
        f.write_str("half")?;
        Err(fmt::Error)
    }
}

// A value with two forms.
struct Forms;

impl fmt::Debug for Forms {
    fn fmt<W: fmt::Write>(&self, f: &mut fmt::Formatter<W>) -> fmt::Result {
        f.write_str(if f.alternate() { "long" } else { "short" })
    }
}

#[test]
fn numbers_have_their_widths(rt: HostRuntime) -> Result<(), Fail> {
    assert!(rt; (-1i8).value() == AnyValue::I64(-1) && (-1i16).value() == AnyValue::I64(-1));
    assert!(rt;
        (-1i32).value() == AnyValue::I64(-1) && i64::MIN.value() == AnyValue::I64(i64::MIN)
    );
    assert!(rt; (-1isize).value() == AnyValue::I64(-1) && (-1i128).value() == AnyValue::I128(-1));
    assert!(rt; 1u8.value() == AnyValue::U64(1) && 1u16.value() == AnyValue::U64(1));
    assert!(rt; 1u32.value() == AnyValue::U64(1) && u64::MAX.value() == AnyValue::U64(u64::MAX));
    assert!(rt;
        1usize.value() == AnyValue::U64(1) && u128::MAX.value() == AnyValue::U128(u128::MAX)
    );
    let small = NonZeroU8::new(3).ok_or("zero")?;
    let wide = NonZeroI128::new(-3).ok_or("zero")?;
    assert!(rt; small.value() == AnyValue::U64(3) && wide.value() == AnyValue::I128(-3));
    assert!(rt; Wrapping(7u8).value() == AnyValue::U64(7));
    Ok(())
}

#[test]
fn other_values_are_given(rt: HostRuntime) -> Result<(), Fail> {
    let alloc = rt.alloc();
    assert!(rt; true.value() == AnyValue::Bool(true) && "a".value() == AnyValue::Str("a"));
    let bytes: &[u8] = b"ab";
    assert!(rt; bytes.value() == AnyValue::Bytes(b"ab"));
    let owned = "own".to_string(alloc)?;
    assert!(rt; owned.value() == AnyValue::Str("own") && (&owned).value() == AnyValue::Str("own"));
    let boxed = Box::new(alloc, 4u8)?;
    assert!(rt; boxed.value() == AnyValue::U64(4));
    let mut number = 5u8;
    let lent = &mut number;
    assert!(rt; lent.value() == AnyValue::U64(5));
    assert!(rt; Some(6u8).value() == AnyValue::U64(6));
    assert!(rt; None::<u8>.value() == AnyValue::Empty && Empty.value() == AnyValue::Empty);
    let error = ErrorText::new("e", &[]);
    assert!(rt; error.value() == AnyValue::Error(error));
    assert!(rt; DebugText::Failing.value() == AnyValue::Debug(DebugText::Failing));
    Ok(())
}

#[test]
fn values_are_written_ahead(rt: HostRuntime) -> Result<(), Fail> {
    let alloc = rt.alloc();
    let shown = display(alloc, &7u8)?;
    let seven = DebugText::Texts {
        plain: "7",
        alternate: "7",
    };
    assert!(rt; shown.text() == seven && shown.value() == AnyValue::Debug(seven));
    assert_eq!(rt; format!(in alloc; "{shown:?}")?.as_str(), "7");
    assert!(rt; display(alloc, &Broken)?.value() == AnyValue::Debug(DebugText::Failing));
    let shown = debug(alloc, &Forms)?;
    let forms = DebugText::Texts {
        plain: "short",
        alternate: "long",
    };
    assert!(rt; shown.text() == forms && shown.value() == AnyValue::Debug(forms));
    assert_eq!(rt;
        format!(in alloc; "{shown:?} {shown:#?}")?.as_str(),
        "short long"
    );
    assert!(rt; debug(alloc, &Broken)?.value() == AnyValue::Debug(DebugText::Failing));
    Ok(())
}
