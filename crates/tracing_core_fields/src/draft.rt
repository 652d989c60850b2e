//! Texts that are written ahead of their use.
ghost use Rattle.std.specs.Prelude.{◌≡◌, ◌++◌, [], Some, true, false, IfOk, IfSome, OnErr, OnOk, string_bytes};

use std::alloc::{AllocError, Global};
use std::fmt;
use std::fmt::Write;

// A text that is being written, and whether there was no memory for a part of it.
#[derive(Drop)]
struct Draft {
    text: String,
    is_short: bool,
}

impl fmt::Write for Draft {
    ghost write_str_gives = { λ before bytes after. string_bytes after.text ≡ string_bytes before.text ++ bytes };

    fn write_str(&mut self, s: &str) -> fmt::Result
        ensures ok { OnOk result (string_bytes self.new.text ≡ string_bytes self.old.text ++ s.now) }
        ensures short { OnErr result (self.new.is_short ≡ true) }
    {
        match self.text.push_str(s) {
            Ok(()) => Ok(()),
            Err(_) => {
                self.is_short = true;
                Err(fmt::Error)
            }
        }
    }
}

impl Draft {
    fn new(alloc: Global) -> Draft
        ensures empty { string_bytes result.text ≡ [] }
        ensures short { result.is_short ≡ false }
    {
        Draft {
            text: String::new(alloc),
            is_short: false,
        }
    }

    // The text that was written, or `None` where writing it failed for another reason than memory.
    fn finish(self, written: fmt::Result) -> Result<Option<String>, AllocError>
        ensures whole { written ≡ Ok tt → IfOk result (λ text. text ≡ Some self.text) }
        ensures failed { IfOk result (λ text. IfSome text (λ text. (written ≡ Ok tt) × (text ≡ self.text))) }
        ensures memory { OnErr result (self.is_short ≡ true) × OnOk result (self.is_short ≡ false) }
    {
        if self.is_short {
            return Err(AllocError);
        }
        match written {
            Ok(()) => Ok(Some(self.text)),
            Err(_) => Ok(None),
        }
    }
}

// What `{}` writes of the value, or `None` where the value's `fmt` fails.
pub(crate) fn display_text<T: fmt::Display>(
    alloc: Global,
    value: &T,
) -> Result<Option<String>, AllocError>
    ensures { IfOk result (λ text. IfSome text (λ text.
        IfSome (T.output value.now) (λ bytes. string_bytes text ≡ bytes))) }
{
    let mut draft = Draft::new(alloc);
    let written = write!(draft, "{value}");
    draft.finish(written)
}

// What `{:?}` writes of the value, or `None` where the value's `fmt` fails.
pub(crate) fn debug_text<T: fmt::Debug>(
    alloc: Global,
    value: &T,
) -> Result<Option<String>, AllocError>
    ensures { IfOk result (λ text. IfSome text (λ text.
        IfSome (T.debug_output value.now) (λ bytes. string_bytes text ≡ bytes))) }
{
    display_text(alloc, &format_args!("{value:?}"))
}

// What `{:#?}` writes of the value, or `None` where the value's `fmt` fails.
pub(crate) fn alternate_text<T: fmt::Debug>(
    alloc: Global,
    value: &T,
) -> Result<Option<String>, AllocError> {
    display_text(alloc, &format_args!("{value:#?}"))
}
