//! Values as members of an object that has others too.
ghost use Rattle.std.specs.Prelude.{string_bytes};
ghost use Rattle.event_formatter_text.specs.MemberChains.{ExtendsWhole, members_of};

use crate::error::FormatError;
use crate::record_fields::RecordFields;
use crate::visitors::json::JsonVisitor;
use crate::writer::Writer;

/// Appends the values as members of a JSON object, in their order, with a comma before each but the first one of the
/// object. It answers whether the next member is still the first.
///
/// # Errors
///
/// A value that can't be formatted, or out of memory. What was appended before is to be dropped.
pub fn push_json_members<R: RecordFields>(
    out: &mut String,
    is_first: bool,
    fields: &R,
) -> Result<bool, FormatError>
    ensures { ExtendsWhole (members_of (R.values fields.now)) is_first (string_bytes out.old) result
        (string_bytes out.new) }
{
    let mut visitor = JsonVisitor::new(Writer::new(out), is_first);
    match fields.record(&mut visitor) {
        Ok(()) => Ok(visitor.is_empty),
        Err(error) => Err(error),
    }
}
