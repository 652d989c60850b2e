// Copies of owned values, and which of them say the same.
use std::alloc::{AllocError, Global};
use std::test::Fail;
use tracing_core_fields::{FieldValue, OwnedValue, are_same_values};

/// A value of each kind, and no value at last.
fn values_of_each_kind(alloc: Global) -> Result<Vec<OwnedValue>, AllocError> {
    let sources = vec![in alloc; "why".to_string(alloc)?, "whence".to_string(alloc)?]?;
    let values = vec![in alloc;
        OwnedValue::I64(1),
        OwnedValue::U64(1),
        OwnedValue::I128(1),
        OwnedValue::U128(1),
        OwnedValue::Bool(true),
        OwnedValue::Text("s".to_string(alloc)?),
        OwnedValue::Bytes(vec![in alloc; 115_u8]?),
        OwnedValue::Error {
            text: "s".to_string(alloc)?,
            sources
        },
        OwnedValue::Debug {
            plain: "s".to_string(alloc)?,
            alternate: "s".to_string(alloc)?
        },
        OwnedValue::Failing,
        OwnedValue::Empty,
    ]?;
    Ok(values)
}

#[test]
fn a_copy_is_the_same_as_its_value_alone(rt: HostRuntime) -> Result<(), Fail> {
    let values = values_of_each_kind(rt.alloc())?;
    for (index, value) in values.iter().enumerate() {
        let copy = value.clone()?;
        for (other, given) in values.iter().enumerate() {
            assert_eq!(rt; copy.is_same(given), index == other);
        }
        assert!(rt; copy.lend() == value.lend());
    }
    Ok(())
}

/// The values of the fields 0, 1, and so on.
fn fields_of(alloc: Global, values: Vec<OwnedValue>) -> Result<Vec<FieldValue>, AllocError> {
    let mut given = Vec::new(alloc);
    for (field, value) in values.into_iter().enumerate() {
        given.push(FieldValue { field, value })?;
    }
    Ok(given)
}

#[test]
fn absent_values_are_passed_over(rt: HostRuntime) -> Result<(), Fail> {
    let alloc = rt.alloc();
    let given = fields_of(alloc, values_of_each_kind(alloc)?)?;
    let mut copies = given.clone()?;
    assert!(rt; are_same_values(&given, &copies));
    copies.push(FieldValue {
        field: 20,
        value: OwnedValue::Empty,
    })?;
    assert!(rt; are_same_values(&given, &copies) && are_same_values(&copies, &given));
    copies.push(FieldValue {
        field: 20,
        value: OwnedValue::Failing,
    })?;
    assert!(rt; !are_same_values(&given, &copies) && !are_same_values(&copies, &given));
    let (first, later) = copies.split_first_mut().ok_or("a value")?;
    assert!(rt; !later.is_empty());
    first.field = 7;
    assert!(rt; !are_same_values(&given, &copies));
    Ok(())
}
