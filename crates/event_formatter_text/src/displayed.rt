//! Values that are appended to a text by what they print.
ghost use Rattle.std.specs.Prelude.{OnOk, string_bytes};
ghost use Rattle.std.specs.Fmt.{AppendsText};

use crate::error::FormatError;
use std::fmt::Display;
use tracing_core_fields::{DebugText, display};

/// Appends what `{}` writes of the value. It is written to a text of its own first, so that a value that fails is told apart
/// from want of memory, and leaves nothing behind.
///
/// # Errors
///
/// A value that can't be formatted, or out of memory. Nothing was appended then.
pub(crate) fn push_displayed<D: Display + Drop>(
    out: &mut String,
    value: D,
) -> Result<(), FormatError>
    ensures { OnOk result (AppendsText (string_bytes out.old) (string_bytes out.new) (D.output value)) }
{
    let shown = display(*out.allocator(), &value)?;
    match shown.text() {
        DebugText::Texts { plain, .. } => {
            out.push_str(plain)?;
            Ok(())
        }
        _ => Err(FormatError::Failed),
    }
}
