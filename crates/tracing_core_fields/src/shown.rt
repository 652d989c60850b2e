//! Values that have no case of their own, by the texts that they print.
ghost use Rattle.std.specs.Prelude.{◌≡◌, IfOk, IfSome, Some};
ghost use Rattle.std.specs.Fmt.{DisplaysOnOk};
ghost use Rattle.tracing_core_fields.specs.DebugText.{plain_debug};
ghost use Rattle.tracing_core_fields.specs.PlainDebug.{plain_output};
ghost use Rattle.tracing_core_fields.specs.PlainValue.{Debug};
ghost use Rattle.tracing_core_fields.specs.Shown.{plain_display, plain_shown, plain_text};

use crate::draft::{alternate_text, debug_text, display_text};
use crate::value::Value;
use crate::{AnyValue, DebugText};
use std::alloc::{AllocError, Global};
use std::fmt;

/// A value by what its `Display` writes, which was written ahead.
#[derive(Drop)]
pub struct DisplayValue {
    text: Option<String>,
}

/// A value by what its `Debug` writes in its plain and in its alternate form, which was written ahead.
#[derive(Drop)]
pub struct DebugValue {
    texts: Option<Texts>,
}

#[derive(Drop)]
struct Texts {
    plain: String,
    alternate: String,
}

/// The value by what its `Display` writes. Where its `fmt` fails, the field is given a text that fails.
pub fn display<T: fmt::Display>(alloc: Global, value: &T) -> Result<DisplayValue, AllocError>
    ensures { IfOk result (λ shown. IfSome (plain_text (plain_display shown)) (λ text.
        IfSome (T.output value.now) (λ bytes. text ≡ bytes))) }
{
    let text = display_text(alloc, value)?;
    Ok(DisplayValue { text })
}

/// The value by what its `Debug` writes. Where its `fmt` fails, the field is given a text that fails.
pub fn debug<T: fmt::Debug>(alloc: Global, value: &T) -> Result<DebugValue, AllocError>
    ensures { IfOk result (λ shown. IfSome (plain_text (plain_shown shown)) (λ text.
        IfSome (T.debug_output value.now) (λ bytes. text ≡ bytes))) }
{
    let texts = match (debug_text(alloc, value)?, alternate_text(alloc, value)?) {
        (Some(plain), Some(alternate)) => Some(Texts { plain, alternate }),
        _ => None,
    };
    Ok(DebugValue { texts })
}

impl DisplayValue {
    /// What stands for the value: its text in both forms, or a text that fails.
    pub fn text(&self) -> DebugText<'_>
        ensures { plain_debug result ≡ plain_display self.now }
    {
        match &self.text {
            Some(text) => DebugText::Texts {
                plain: text.as_str(),
                alternate: text.as_str(),
            },
            None => DebugText::Failing,
        }
    }
}

impl DebugValue {
    /// What stands for the value: its texts, or a text that fails.
    pub fn text(&self) -> DebugText<'_>
        ensures { plain_debug result ≡ plain_shown self.now }
    {
        match &self.texts {
            Some(texts) => DebugText::Texts {
                plain: texts.plain.as_str(),
                alternate: texts.alternate.as_str(),
            },
            None => DebugText::Failing,
        }
    }
}

impl Value for DisplayValue {
    ghost meaning = { λ shown. Some (Debug (plain_display shown)) };

    fn value(&self) -> AnyValue<'_> {
        AnyValue::Debug(self.text())
    }
}

impl Value for DebugValue {
    ghost meaning = { λ shown. Some (Debug (plain_shown shown)) };

    fn value(&self) -> AnyValue<'_> {
        AnyValue::Debug(self.text())
    }
}

impl fmt::Debug for DisplayValue {
    ghost debug_output = { λ shown. plain_output (plain_display shown) };

    fn fmt<W: fmt::Write>(&self, f: &mut fmt::Formatter<W>) -> fmt::Result {
        fmt::Debug::fmt(&self.text(), f)
    }
}

impl fmt::Debug for DebugValue {
    ghost debug_output = { λ shown. plain_output (plain_shown shown) };

    fn fmt<W: fmt::Write>(&self, f: &mut fmt::Formatter<W>) -> fmt::Result {
        fmt::Debug::fmt(&self.text(), f)
    }
}
