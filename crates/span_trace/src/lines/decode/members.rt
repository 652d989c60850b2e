//! Members of JSON objects, read by key and type.

use crate::lines::fault::LineFault;
use serde_json::{Map, Value as Json};
use std::alloc::{AllocError, Global};
use tracing_core_moments::Moment;

/// The members of a JSON object.
#[derive(Clone, Copy)]
pub(crate) struct Members<'a> {
    map: &'a Map<String, Json>,
}

impl<'a> Members<'a> {
    /// The members, where the value is an object.
    pub(crate) fn of(value: &'a Json) -> Result<Members<'a>, LineFault> {
        let map = value.as_object().ok_or(LineFault::NotReadable)?;
        Ok(Members { map })
    }

    /// Refuses each key but these.
    pub(crate) fn only(self, keys: &[&str]) -> Result<(), LineFault> {
        for key in self.map.keys() {
            let word = key.as_str();
            if !keys.iter().any(|known| *known == word) {
                return Err(LineFault::NotReadable);
            }
        }
        Ok(())
    }

    /// The value of a key that may be absent.
    pub(crate) fn find(self, key: &str) -> Option<&'a Json> {
        self.map.get(key)
    }

    /// The value of a key that has to be there.
    pub(crate) fn get(self, key: &str) -> Result<&'a Json, LineFault> {
        self.find(key).ok_or(LineFault::NotReadable)
    }

    pub(crate) fn text(self, key: &str) -> Result<&'a str, LineFault> {
        self.get(key)?.as_str().ok_or(LineFault::NotReadable)
    }

    /// A text of its own, where the key is there.
    pub(crate) fn text_if_given(
        self,
        alloc: Global,
        key: &str,
    ) -> Result<Option<String>, LineFault> {
        match self.find(key) {
            None => Ok(None),
            Some(value) => Ok(Some(owned_text(alloc, value)?)),
        }
    }

    pub(crate) fn number(self, key: &str) -> Result<u64, LineFault> {
        self.get(key)?.as_u64().ok_or(LineFault::NotReadable)
    }

    pub(crate) fn size(self, key: &str) -> Result<usize, LineFault> {
        whole_number(self.get(key)?)
    }

    /// A whole number, where the key is there.
    pub(crate) fn size_if_given(self, key: &str) -> Result<Option<usize>, LineFault> {
        match self.find(key) {
            None => Ok(None),
            Some(value) => Ok(Some(whole_number(value)?)),
        }
    }

    pub(crate) fn list(self, key: &str) -> Result<&'a [Json], LineFault> {
        let items = self.get(key)?.as_array().ok_or(LineFault::NotReadable)?;
        Ok(items.as_slice())
    }

    /// A bool, or the default where the key is absent.
    pub(crate) fn flag_or(self, key: &str, default: bool) -> Result<bool, LineFault> {
        match self.find(key) {
            None => Ok(default),
            Some(value) => value.as_bool().ok_or(LineFault::NotReadable),
        }
    }

    /// Seconds and nanoseconds under `moment`.
    pub(crate) fn moment(self) -> Result<Moment, LineFault> {
        let (first, second) = pair(self.get("moment")?)?;
        let seconds = first.as_i64().ok_or(LineFault::NotReadable)?;
        let nanoseconds = number_of_32_bits(second)?;
        Ok(Moment {
            seconds,
            nanoseconds,
        })
    }
}

/// The two items of a list of two.
pub(crate) fn pair(value: &Json) -> Result<(&Json, &Json), LineFault> {
    let items = value.as_array().ok_or(LineFault::NotReadable)?;
    match items.as_slice() {
        [first, second] => Ok((first, second)),
        _ => Err(LineFault::NotReadable),
    }
}

pub(crate) fn whole_number(value: &Json) -> Result<usize, LineFault> {
    let number = value.as_u64().ok_or(LineFault::NotReadable)?;
    usize::try_from(number).or(Err(LineFault::NotReadable))
}

pub(crate) fn number_of_32_bits(value: &Json) -> Result<u32, LineFault> {
    let number = value.as_u64().ok_or(LineFault::NotReadable)?;
    u32::try_from(number).or(Err(LineFault::NotReadable))
}

/// A copy of a text.
pub(crate) fn owned_text(alloc: Global, value: &Json) -> Result<String, LineFault> {
    let text = value.as_str().ok_or(LineFault::NotReadable)?;
    let copy: Result<String, AllocError> = String::from_str(alloc, text);
    Ok(copy?)
}
