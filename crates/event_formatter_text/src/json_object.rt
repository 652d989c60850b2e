//! The members of a JSON object, in order of their keys.
ghost use Rattle.std.specs.Prelude.{◌≡◌, ◌≤◌, ◌++◌, ◌∷◌, [], List, ℕ, OnOk, codes, drop, length, map, string_bytes, take};
ghost use Rattle.event_formatter_text.specs.JsonObjects.{is_first_key, later_members, member_text, members_inside, object_text, pair_of};
ghost use Rattle.event_formatter_text.specs.JsonObjects.{put, put_first};

use crate::escape::push_json_string;
use std::alloc::AllocError;

/// A key, and the JSON of its value.
#[derive(Drop)]
pub(crate) struct Member {
    pub(crate) key: String,
    pub(crate) value: String,
}

// Where the key stands, or would stand.
fn place_of(members: &[Member], key: &str) -> usize
    ensures within { result ≤ length members.now }
    ensures place { (value : List ℕ) → put key.now value (map pair_of members.now)
        ≡ take result (map pair_of members.now) ++ put_first key.now value (drop result (map pair_of members.now)) }
{
    for place in 0..members.len() {
        let is_before = members[place].key.as_str() < key;
        if !is_before {
            return place;
        }
    }
    members.len()
}

// Whether the member at the place has the key.
fn has_key(members: &[Member], place: usize, key: &str) -> bool
    ensures { result ≡ is_first_key key.now (drop place (map pair_of members.now)) }
{
    place < members.len() && members[place].key.as_str() == key
}

/// Puts a member in: in the place of one with the same key, or before the first with a greater one.
pub(crate) fn put(members: &mut Vec<Member>, member: Member) -> Result<(), AllocError>
    ensures { OnOk result (map pair_of members.new.items
        ≡ put (pair_of member).0 (pair_of member).1 (map pair_of members.old.items)) }
{
    let place = place_of(members.as_slice(), member.key.as_str());
    if has_key(members.as_slice(), place, member.key.as_str()) {
        members[place] = member;
        return Ok(());
    }
    members.insert(place, member)?;
    Ok(())
}

// Appends a member.
fn push_member(out: &mut String, member: &Member) -> Result<(), AllocError>
    ensures { OnOk result (string_bytes out.new ≡ string_bytes out.old ++ member_text (pair_of member.now)) }
{
    push_json_string(out, member.key.as_str())?;
    out.push(':')?;
    out.push_str(member.value.as_str())
}

// Appends members, a comma before each.
fn push_later_members(out: &mut String, members: &[Member]) -> Result<(), AllocError>
    ensures { OnOk result (string_bytes out.new ≡ string_bytes out.old
        ++ later_members (map pair_of members.now)) }
{
    for member in members {
        out.push(',')?;
        push_member(out, member)?;
    }
    Ok(())
}

// Appends members, a comma between each two.
fn push_members(out: &mut String, members: &[Member]) -> Result<(), AllocError>
    ensures { OnOk result (string_bytes out.new ≡ string_bytes out.old
        ++ members_inside (map pair_of members.now)) }
{
    let [first, later @ ..] = members else {
        return Ok(());
    };
    push_member(out, first)?;
    push_later_members(out, later)
}

/// Appends the object of the members.
pub(crate) fn push_object(out: &mut String, members: &[Member]) -> Result<(), AllocError>
    ensures { OnOk result (string_bytes out.new ≡ string_bytes out.old
        ++ object_text (map pair_of members.now)) }
{
    out.push('{')?;
    push_members(out, members)?;
    out.push('}')
}
