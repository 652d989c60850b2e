//! Values of fields.

use crate::lines::decode::members::{Members, owned_text};
use crate::lines::fault::LineFault;
use serde_json::Value as Json;
use std::alloc::Global;
use tracing_core::OwnedValue;

/// A whole number of 64 bits, a bool, a text, `null` for no value, or an object whose key says the kind.
pub(crate) fn value_of(alloc: Global, value: &Json) -> Result<OwnedValue, LineFault> {
    match value {
        Json::Null => Ok(OwnedValue::Empty),
        Json::Bool(truth) => Ok(OwnedValue::Bool(*truth)),
        Json::String(_) => Ok(OwnedValue::Text(owned_text(alloc, value)?)),
        Json::Number(number) => match (number.as_u64(), number.as_i64()) {
            (Some(whole), _) => Ok(OwnedValue::U64(whole)),
            (None, Some(whole)) => Ok(OwnedValue::I64(whole)),
            (None, None) => Err(LineFault::NotReadable),
        },
        Json::Object(_) => value_of_kind(alloc, Members::of(value)?),
        Json::Array(_) => Err(LineFault::NotReadable),
    }
}

fn value_of_kind(alloc: Global, members: Members<'_>) -> Result<OwnedValue, LineFault> {
    if let Some(text) = members.find("debug") {
        members.only(&["debug"])?;
        return debug_value(alloc, text);
    }
    if let Some(bytes) = members.find("bytes") {
        members.only(&["bytes"])?;
        return Ok(OwnedValue::Bytes(owned_bytes(alloc, bytes)?));
    }
    if members.find("i128").is_some() {
        members.only(&["i128"])?;
        let number = members.text("i128")?.parse::<i128>();
        return Ok(OwnedValue::I128(number.or(Err(LineFault::NotReadable))?));
    }
    if members.find("u128").is_some() {
        members.only(&["u128"])?;
        let number = members.text("u128")?.parse::<u128>();
        return Ok(OwnedValue::U128(number.or(Err(LineFault::NotReadable))?));
    }
    members.only(&["error", "sources"])?;
    Ok(OwnedValue::Error {
        text: owned_text(alloc, members.get("error")?)?,
        sources: owned_texts(alloc, members.list("sources")?)?,
    })
}

/// A value by the text that `Debug` writes of it, or one whose `Debug` fails.
fn debug_value(alloc: Global, text: &Json) -> Result<OwnedValue, LineFault> {
    if matches!(text, Json::Null) {
        return Ok(OwnedValue::Failing);
    }
    Ok(OwnedValue::Debug {
        plain: owned_text(alloc, text)?,
        alternate: owned_text(alloc, text)?,
    })
}

fn owned_bytes(alloc: Global, value: &Json) -> Result<Vec<u8>, LineFault> {
    let mut bytes = Vec::new(alloc);
    for item in value.as_array().ok_or(LineFault::NotReadable)? {
        let number = item.as_u64().ok_or(LineFault::NotReadable)?;
        bytes.push(u8::try_from(number).or(Err(LineFault::NotReadable))?)?;
    }
    Ok(bytes)
}

fn owned_texts(alloc: Global, values: &[Json]) -> Result<Vec<String>, LineFault> {
    let mut texts = Vec::new(alloc);
    for value in values {
        texts.push(owned_text(alloc, value)?)?;
    }
    Ok(texts)
}
