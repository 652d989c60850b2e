//! What is known of a span or an event before it happens.
ghost use Rattle.std.specs.Prelude.{◌≡◌, ◌↔◌, IsTrue};
ghost use Rattle.std.specs.Option.{option_copied};
ghost use Rattle.tracing_core_fields.specs.FieldSet.{field_names, set_callsite};
ghost use Rattle.tracing_core_fields.specs.Metadata.{metadata_eq, metadata_eq-equivalence, metadata_fields, plain_metadata};
ghost use Rattle.tracing_core_fields.specs.PlainMetadata.{is_same_label, is_same_place, is_same_shape};

use crate::callsite::Identifier;
use crate::field::FieldSet;
use crate::kind::Kind;
use crate::level::Level;

/// What is known of a span or an event before it happens: its name, its level, its place in the source
/// and its fields.
#[derive(Clone, Copy, Debug)]
pub struct Metadata<'a> {
    name: &'a str,
    target: &'a str,
    level: Level,
    module_path: Option<&'a str>,
    file: Option<&'a str>,
    line: Option<u32>,
    fields: FieldSet<'a>,
    kind: Kind,
}

impl<'a> Metadata<'a> {
    /// The metadata with these parts.
    #[allow(clippy::too_many_arguments)]
    pub const fn new(
        name: &'a str,
        target: &'a str,
        level: Level,
        file: Option<&'a str>,
        line: Option<u32>,
        module_path: Option<&'a str>,
        fields: FieldSet<'a>,
        kind: Kind,
    ) -> Metadata<'a>
        ensures parts { plain_metadata result ≡ record {
          name = name.now;
          target = target.now;
          level = level;
          module_path = option_copied module_path.entry;
          file = option_copied file.entry;
          line = line;
          field_names = field_names fields.entry;
          callsite = set_callsite fields.entry;
          kind = kind;
        } }
        ensures fields { metadata_fields result ≡ fields.entry }
    {
        Metadata {
            name,
            target,
            level,
            module_path,
            file,
            line,
            fields,
            kind,
        }
    }

    /// The fields of the span or event.
    pub fn fields(&self) -> &FieldSet<'a>
        ensures fields { result.now ≡ metadata_fields self.now }
        ensures names { field_names result.now ≡ (plain_metadata self.now).field_names }
        ensures callsite { set_callsite result.now ≡ (plain_metadata self.now).callsite }
    {
        &self.fields
    }

    /// How verbose the span or event is.
    pub fn level(&self) -> &Level
        ensures { result.now ≡ (plain_metadata self.now).level }
    {
        &self.level
    }

    /// The name of the span or event.
    pub fn name(&self) -> &'a str
        ensures { result.now ≡ (plain_metadata self.now).name }
    {
        self.name
    }

    /// The part of the program that the span or event belongs to.
    pub fn target(&self) -> &'a str
        ensures { result.now ≡ (plain_metadata self.now).target }
    {
        self.target
    }

    /// The module of the callsite, where it is known.
    pub fn module_path(&self) -> Option<&'a str>
        ensures { option_copied result ≡ (plain_metadata self.now).module_path }
    {
        self.module_path
    }

    /// The source file of the callsite, where it is known.
    pub fn file(&self) -> Option<&'a str>
        ensures { option_copied result ≡ (plain_metadata self.now).file }
    {
        self.file
    }

    /// The line of the callsite, where it is known.
    pub fn line(&self) -> Option<u32>
        ensures { result ≡ (plain_metadata self.now).line }
    {
        self.line
    }

    /// The callsite, which is that of the fields.
    pub fn callsite(&self) -> Identifier
        ensures { result.0 ≡ (plain_metadata self.now).callsite }
    {
        self.fields.callsite()
    }

    /// What the callsite makes.
    pub fn kind(&self) -> Kind
        ensures { result ≡ (plain_metadata self.now).kind }
    {
        self.kind
    }

    /// Whether the callsite makes events.
    pub fn is_event(&self) -> bool
        ensures { result ≡ (plain_metadata self.now).kind.is_event }
    {
        self.kind.is_event()
    }

    /// Whether the callsite makes spans.
    pub fn is_span(&self) -> bool
        ensures { result ≡ (plain_metadata self.now).kind.is_span }
    {
        self.kind.is_span()
    }

    fn has_label_of(&self, other: &Metadata<'_>) -> bool
        ensures { result ≡ is_same_label (plain_metadata self.now) (plain_metadata other.now) }
    {
        self.name == other.name && self.target == other.target && self.level == other.level
    }

    fn has_place_of(&self, other: &Metadata<'_>) -> bool
        ensures { result ≡ is_same_place (plain_metadata self.now) (plain_metadata other.now) }
    {
        self.module_path == other.module_path && self.file == other.file && self.line == other.line
    }

    fn has_shape_of(&self, other: &Metadata<'_>) -> bool
        ensures { result ≡ is_same_shape (plain_metadata self.now) (plain_metadata other.now) }
    {
        self.fields == other.fields && self.kind == other.kind
    }
}

/// Metadata is equal where all its parts are.
impl PartialEq for Metadata<'_> {
    ghost use Rattle.std.specs.Cmp.{partial_equiv_from_equiv};

    ghost eq = { metadata_eq };

    ghost laws = { partial_equiv_from_equiv metadata_eq-equivalence };

    fn eq(&self, other: &Self) -> bool
        ensures test { result ≡ metadata_eq self.now other.now }
        ensures same { IsTrue result ↔ (plain_metadata self.now ≡ plain_metadata other.now) }
    {
        self.has_shape_of(other) && self.has_label_of(other) && self.has_place_of(other)
    }
}

impl Eq for Metadata<'_> {
    ghost laws = { metadata_eq-equivalence };
}
