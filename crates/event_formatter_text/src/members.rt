//! A visitor that keeps the members of a JSON object, and the words that are kept of them.
ghost use Rattle.std.specs.Prelude.{◌≡◌, [], IfOk, map, string_bytes, unwrap_or};
ghost use Rattle.tracing_core_fields.specs.DebugText.{plain_debug};
ghost use Rattle.event_formatter_text.specs.FieldTexts.{plain_name};
ghost use Rattle.event_formatter_text.specs.JsonObjects.{pair_of, pairs_in, put_all, words_of};
ghost use Rattle.event_formatter_text.specs.JsonTexts.{json_value};
ghost use Rattle.event_formatter_text.specs.GivenMembers.{GivesMembers};

use crate::error::FormatError;
use crate::field_text::plain_name;
use crate::json_object::{Member, put};
use crate::json_text::push_json_value;
use crate::record_fields::RecordFields;
use std::alloc::{AllocError, Global};
use tracing_core_fields::{DebugText, Field, Visit};

/// Keeps the values of fields as members, the last of each key, in order of the keys.
#[derive(Drop)]
pub(crate) struct MembersVisitor {
    alloc: Global,
    members: Vec<Member>,
}

// The field as a member; its value is empty where it can't be formatted.
fn member_of(alloc: Global, name: &str, value: &DebugText<'_>) -> Result<Member, AllocError>
    ensures key { IfOk result (λ member. string_bytes member.key ≡ plain_name name.now) }
    ensures value { IfOk result (λ member. string_bytes member.value ≡ unwrap_or (json_value (plain_debug value.now)) []) }
{
    let key = String::from_str(alloc, plain_name(name))?;
    let mut text = String::new(alloc);
    push_json_value(&mut text, value)?;
    Ok(Member { key, value: text })
}

impl Visit for MembersVisitor {
    ghost use Rattle.event_formatter_text.specs.Members.{KeepsMember};

    type Error = FormatError;

    ghost shows = { KeepsMember };

    fn record_debug(
        &mut self,
        field: &Field<'_>,
        value: &DebugText<'_>,
    ) -> Result<(), FormatError> {
        if matches!(value, DebugText::Failing) {
            return Err(FormatError::Failed);
        }
        let member = member_of(self.alloc, field.name(), value)?;
        put(&mut self.members, member)?;
        Ok(())
    }
}

/// The members once those of the fields were put.
///
/// # Errors
///
/// A value that can't be formatted, or out of memory.
pub(crate) fn with_fields<R: RecordFields>(
    alloc: Global,
    members: Vec<Member>,
    fields: &R,
) -> Result<Vec<Member>, FormatError>
    ensures { GivesMembers (put_all (R.values fields.now).names (R.values fields.now).entries
        (map pair_of members.items)) result }
{
    let mut visitor = MembersVisitor { alloc, members };
    match fields.record(&mut visitor) {
        Ok(()) => Ok(visitor.members),
        Err(error) => Err(error),
    }
}

// The member of a key and a value.
fn copied(alloc: Global, key: &str, value: &str) -> Result<Member, AllocError>
    ensures { IfOk result (λ member. pair_of member ≡ (key.now, value.now)) }
{
    let key = String::from_str(alloc, key)?;
    let value = String::from_str(alloc, value)?;
    Ok(Member { key, value })
}

/// The members that the words are of.
pub(crate) fn members_in(alloc: Global, words: &[String]) -> Result<Vec<Member>, AllocError>
    ensures { IfOk result (λ members. map pair_of members.items ≡ pairs_in (map string_bytes words.now)) }
{
    let mut members = Vec::new(alloc);
    let mut rest = words;
    while let [key, value, later @ ..] = rest {
        members.push(copied(alloc, key.as_str(), value.as_str())?)?;
        rest = later;
    }
    Ok(members)
}

/// The words that are kept of members.
pub(crate) fn words_in(alloc: Global, members: Vec<Member>) -> Result<Vec<String>, AllocError>
    ensures { IfOk result (λ words. map string_bytes words.items ≡ words_of (map pair_of members.items)) }
{
    let mut words = Vec::new(alloc);
    for member in members {
        let Member { key, value } = member;
        words.push(key)?;
        words.push(value)?;
    }
    Ok(words)
}
