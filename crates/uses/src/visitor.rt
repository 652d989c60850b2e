//! Two visitors of your own: one that is told each value by the call of its kind, and one that writes a single call.

ghost use Rattle.std.specs.Prelude.{◌≡◌, ◌<◌, ◌++◌, ◌∷◌, [], IfOk, OnOk, map, string_bytes};
ghost use Rattle.tracing_core.specs.PlainValue.{debug_of};
ghost use Rattle.tracing_core.specs.ValueSet.{entries_of};
ghost use Rattle.uses.specs.Letters.{AddsLetter, kind_letter, text_letter};

use std::alloc::{AllocError, Global};
use tracing_core::{DebugText, ErrorText, Field, ValueSet, Visit, VisitKinds};

/// Writes a letter for each value, by the call that hands the value over.
#[derive(Drop)]
pub struct Kinds {
    letters: String,
}

impl Kinds {
    fn add(&mut self, letter: char) -> Result<(), AllocError>
        requires { letter < 128 }
        ensures { OnOk result (string_bytes self.new.letters ≡ string_bytes self.old.letters ++ letter ∷ []) }
    {
        self.letters.push(letter)
    }
}

/// Each call is its own, so that a number is told from a text that was written before.
impl VisitKinds for Kinds {
    type Error = AllocError;

    ghost takes = { λ before field value answer after.
        AddsLetter (string_bytes before.letters) (kind_letter value) answer (string_bytes after.letters) };

    fn record_i64(&mut self, _field: &Field<'_>, _value: i64) -> Result<(), AllocError> {
        self.add('i')
    }

    fn record_u64(&mut self, _field: &Field<'_>, _value: u64) -> Result<(), AllocError> {
        self.add('u')
    }

    fn record_i128(&mut self, _field: &Field<'_>, _value: i128) -> Result<(), AllocError> {
        self.add('I')
    }

    fn record_u128(&mut self, _field: &Field<'_>, _value: u128) -> Result<(), AllocError> {
        self.add('U')
    }

    fn record_bool(&mut self, _field: &Field<'_>, _value: bool) -> Result<(), AllocError> {
        self.add('b')
    }

    fn record_str(&mut self, _field: &Field<'_>, _value: &str) -> Result<(), AllocError> {
        self.add('s')
    }

    fn record_bytes(&mut self, _field: &Field<'_>, _value: &[u8]) -> Result<(), AllocError> {
        self.add('y')
    }

    fn record_error(
        &mut self,
        _field: &Field<'_>,
        _value: &ErrorText<'_>,
    ) -> Result<(), AllocError> {
        self.add('e')
    }

    fn record_debug(
        &mut self,
        _field: &Field<'_>,
        _value: &DebugText<'_>,
    ) -> Result<(), AllocError> {
        self.add('d')
    }
}

/// A letter for the call of each present value of the set's own fields, in order.
///
/// # Errors
///
/// Out of memory.
pub fn kinds_of(alloc: Global, values: &ValueSet<'_>) -> Result<String, AllocError>
    ensures { IfOk result (λ letters. string_bytes letters ≡ map (λ entry. kind_letter entry.1)
        (entries_of values.now)) }
{
    let mut kinds = Kinds {
        letters: String::new(alloc),
    };
    values.record(&mut kinds)?;
    Ok(kinds.letters)
}

/// Writes `t` for a text and `-` for any other value.
#[derive(Drop)]
pub struct Texts {
    letters: String,
}

/// The other calls hand their values on to this one, as debug texts that still say what kind of value they are of.
impl Visit for Texts {
    type Error = AllocError;

    ghost shows = { λ before field value answer after.
        AddsLetter (string_bytes before.letters) (text_letter value) answer (string_bytes after.letters) };

    fn record_debug(
        &mut self,
        _field: &Field<'_>,
        value: &DebugText<'_>,
    ) -> Result<(), AllocError> {
        match value {
            DebugText::Str(_) => self.letters.push('t'),
            _ => self.letters.push('-'),
        }
    }
}

/// A letter for each present value of the set's own fields, in order: `t` for a text, `-` for another one.
///
/// # Errors
///
/// Out of memory.
pub fn texts_of(alloc: Global, values: &ValueSet<'_>) -> Result<String, AllocError>
    ensures { IfOk result (λ letters. string_bytes letters ≡ map (λ entry. text_letter (debug_of entry.1))
        (entries_of values.now)) }
{
    let mut texts = Texts {
        letters: String::new(alloc),
    };
    values.record(&mut texts)?;
    Ok(texts.letters)
}
