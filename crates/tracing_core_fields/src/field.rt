//! Fields, and the sets that they stand in.
ghost use Rattle.std.specs.Prelude.{◌≡◌, ◌<◌, ◌↔◌, length, map, string_bytes, IsTrue, IfSome, Some};
ghost use Rattle.std.specs.Option.{option_map};
ghost use Rattle.tracing_core_fields.specs.FieldSet.{field_names};

use crate::callsite::Identifier;
use crate::texts::Texts;
use std::convert::AsStr;
use std::fmt;
use std::hash::{Hash, Hasher};

/// The fields of a span or an event, by their names.
#[derive(Clone, Copy, Debug)]
pub struct FieldSet<'a> {
    names: Texts<'a>,
    callsite: Identifier,
}

impl<'a> FieldSet<'a> {
    ghost use Rattle.tracing_core_fields.specs.Field.{field_index, has_field, plain_field, set_of_field};
    ghost use Rattle.tracing_core_fields.specs.Visits.{IsFieldAt};
    ghost use Rattle.tracing_core_fields.specs.FieldSet.{set_callsite, index_of_name, plain_fields};
    ghost use Rattle.tracing_core_fields.specs.Iter.{fields_left};

    /// The set of these names at the callsite.
    pub const fn new(names: &'a [&'a str], callsite: Identifier) -> FieldSet<'a>
        ensures names { field_names result ≡ map (λ name. name.now) names.now }
        ensures callsite { set_callsite result ≡ callsite.0 }
    {
        let names = Texts::Lent(names);
        FieldSet { names, callsite }
    }

    /// The set of these names, which are owned texts, at the callsite.
    pub const fn of_strings(names: &'a [String], callsite: Identifier) -> FieldSet<'a>
        ensures names { field_names result ≡ map string_bytes names.now }
        ensures callsite { set_callsite result ≡ callsite.0 }
    {
        let names = Texts::Owned(names);
        FieldSet { names, callsite }
    }

    /// The callsite of the set.
    pub fn callsite(&self) -> Identifier
        ensures { result.0 ≡ set_callsite self.now }
    {
        self.callsite
    }

    /// The first field of the name, or `None` where no field has it.
    pub fn field(&self, name: &str) -> Option<Field<'a>>
        ensures index { option_map field_index result ≡ index_of_name self.now name.now }
        ensures set { IfSome result (λ field. set_of_field field ≡ self.now) }
    {
        let index = self.names.index_of(name)?;
        Some(Field {
            index,
            fields: *self,
        })
    }

    /// Whether the field is one of this set: it has the set's callsite, and an index below the set's length.
    pub fn contains(&self, field: &Field<'_>) -> bool
        ensures { result ≡ has_field self.now field.now }
    {
        field.callsite() == self.callsite && field.index < self.names.len()
    }

    // The field at the index.
    pub(crate) fn at(&self, index: usize) -> Field<'a>
        requires { index < length (field_names self.now) }
        ensures { IsFieldAt (set_callsite self.now) (field_names self.now) index (plain_field result) }
    {
        Field {
            index,
            fields: *self,
        }
    }

    /// The fields, in order.
    pub fn iter(&self) -> Iter<'a>
        ensures { fields_left result ≡ plain_fields self.now }
    {
        Iter {
            next_index: 0,
            fields: *self,
        }
    }

    /// How many fields the set has.
    pub fn len(&self) -> usize
        ensures { result ≡ length (field_names self.now) }
    {
        self.names.len()
    }

    /// Whether the set has no field.
    pub fn is_empty(&self) -> bool
        ensures { IsTrue result ↔ (length (field_names self.now) ≡ 0) }
    {
        self.names.len() == 0
    }
}

impl PartialEq for FieldSet<'_> {
    ghost use Rattle.std.specs.Cmp.{partial_equiv_from_equiv};
    ghost use Rattle.tracing_core_fields.specs.FieldSet.{is_same_set, is_same_set-equivalence, IsSameSet};

    ghost eq = { is_same_set };

    ghost laws = { partial_equiv_from_equiv is_same_set-equivalence };

    fn eq(&self, other: &Self) -> bool
        ensures test { result ≡ is_same_set self.now other.now }
        ensures same { IsTrue result ↔ IsSameSet self.now other.now }
    {
        self.callsite == other.callsite && self.names.are(&other.names)
    }
}

impl Eq for FieldSet<'_> {
    ghost use Rattle.tracing_core_fields.specs.FieldSet.{is_same_set-equivalence};

    ghost laws = { is_same_set-equivalence };
}

/// Writes the names between braces, a comma between each two.
impl fmt::Display for FieldSet<'_> {
    ghost use Rattle.tracing_core_fields.specs.FieldSet.{set_text};

    ghost output = { λ set. Some (set_text (field_names set)) };

    fn fmt<W: fmt::Write>(&self, f: &mut fmt::Formatter<W>) -> fmt::Result {
        f.write_str("{")?;
        self.names.write(f)?;
        f.write_str("}")
    }
}

impl<'a> IntoIterator for &FieldSet<'a> {
    ghost use Rattle.tracing_core_fields.specs.FieldSet.{plain_fields};
    ghost use Rattle.tracing_core_fields.specs.Iter.{fields_left};

    type Item = Field<'a>;

    type IntoIter = Iter<'a>;

    ghost into_iter_gives = { λ set it. fields_left it ≡ plain_fields set.now };

    fn into_iter(self) -> Iter<'a> {
        self.iter()
    }
}

/// One field of a set.
#[derive(Clone, Copy, Debug)]
pub struct Field<'a> {
    index: usize,
    fields: FieldSet<'a>,
    ghost in_range: { index < length (field_names fields) },
}

impl<'a> Field<'a> {
    ghost use Rattle.tracing_core_fields.specs.Field.{field_index, field_callsite, field_name, set_of_field};

    /// The callsite of the field's set.
    pub fn callsite(&self) -> Identifier
        ensures { result.0 ≡ field_callsite self.now }
    {
        self.fields.callsite
    }

    /// The name of the field.
    pub fn name(&self) -> &'a str
        ensures { result.now ≡ field_name self.now }
    {
        self.fields.names.text(self.index)
    }

    /// The index of the field in its set.
    pub fn index(&self) -> usize
        ensures value { result ≡ field_index self.now }
        ensures range { result < length (field_names (set_of_field self.now)) }
    {
        self.index
    }
}

// Stands for `AsRef<str>`.
impl AsStr for Field<'_> {
    ghost use Rattle.tracing_core_fields.specs.Field.{field_name};

    ghost text = { field_name };

    fn as_str(&self) -> &str {
        self.name()
    }
}

impl PartialEq for Field<'_> {
    ghost use Rattle.std.specs.Prelude.{◌==◌};
    ghost use Rattle.std.proofs.Common.{rules};
    ghost use Rattle.std.specs.Cmp.Rules.{comparing};
    ghost use Rattle.tracing_core_fields.specs.Field.{is_same_field};

    ghost eq = { is_same_field };

    ghost laws = { Prim.search (comparing, rules) };

    fn eq(&self, other: &Self) -> bool {
        self.callsite() == other.callsite() && self.index == other.index
    }
}

impl Eq for Field<'_> {
    ghost use Rattle.std.proofs.Common.{rules};
    ghost use Rattle.std.specs.Cmp.Rules.{comparing};

    ghost laws = { Prim.search (comparing, rules) };
}

impl Hash for Field<'_> {
    ghost use Rattle.std.proofs.Common.{rules};
    ghost use Rattle.tracing_core_fields.specs.Field.{field_hash_input};

    ghost hash_input = { field_hash_input };

    ghost respects_eq = { Prim.search rules };

    fn hash<H: Hasher>(&self, state: &mut H) {
        state.write_u64(self.fields.callsite.0);
        state.write_usize(self.index);
    }
}

impl fmt::Display for Field<'_> {
    ghost use Rattle.std.specs.Fmt.{padded};
    ghost use Rattle.tracing_core_fields.specs.Field.{field_name};

    ghost output = { λ field. Some (field_name field) };

    ghost styled_output = { λ field spec. Some (padded spec (field_name field)) };

    fn fmt<W: fmt::Write>(&self, f: &mut fmt::Formatter<W>) -> fmt::Result {
        f.pad(self.name())
    }
}

/// The fields of a set, in order.
#[derive(Clone, Copy, Debug)]
pub struct Iter<'a> {
    next_index: usize,
    fields: FieldSet<'a>,
}

impl<'a> Iterator for Iter<'a> {
    ghost use Rattle.std.specs.Iterator.{YieldsFirstBy, item_count};
    ghost use Rattle.tracing_core_fields.specs.Field.{plain_field};
    ghost use Rattle.tracing_core_fields.specs.Iter.{fields_left};

    type Item = Field<'a>;

    ghost next_gives = { YieldsFirstBy plain_field fields_left };

    ghost remaining = { item_count fields_left };

    fn next(&mut self) -> Option<Field<'a>> {
        if self.next_index >= self.fields.names.len() {
            return None;
        }
        let field = Field {
            index: self.next_index,
            fields: self.fields,
        };
        self.next_index += 1;
        Some(field)
    }
}
