//! Metadata that owns its texts.
ghost use Rattle.std.specs.Prelude.{◌≡◌, IfOk, map, string_bytes};
ghost use Rattle.std.specs.Option.{option_map, option_copied};
ghost use Rattle.tracing_core_fields.specs.FieldSet.{field_names, set_callsite};
ghost use Rattle.tracing_core_fields.specs.Metadata.{plain_metadata};
ghost use Rattle.tracing_core_fields.specs.OwnedMetadatas.{owned_plain};
ghost use Rattle.tracing_core_fields.specs.PlainMetadata.{is_same_metadata};

use crate::callsite::Identifier;
use crate::field::FieldSet;
use crate::kind::Kind;
use crate::level::Level;
use crate::metadata::Metadata;
use std::alloc::{AllocError, Global};

/// A copy of metadata, for whoever keeps it longer than its texts are lent. Share it by an `Arc`.
///
/// A contract sees it by `owned_plain`.
#[derive(Debug, Drop)]
pub struct OwnedMetadata {
    name: String,
    target: String,
    level: Level,
    module_path: Option<String>,
    file: Option<String>,
    line: Option<u32>,
    fields: Vec<String>,
    callsite: Identifier,
    kind: Kind,
}

fn owned(alloc: Global, text: Option<&str>) -> Result<Option<String>, AllocError>
    ensures { IfOk result (λ copy. option_map string_bytes copy ≡ option_copied text.entry) }
{
    match text {
        None => Ok(None),
        Some(known) => Ok(Some(String::from_str(alloc, known)?)),
    }
}

#[tactic(auto, using(crate::proofs::FieldLemmas::names_named, crate::proofs::FieldLemmas::map_more))]
fn owned_names(alloc: Global, fields: &FieldSet<'_>) -> Result<Vec<String>, AllocError>
    ensures { IfOk result (λ names. map string_bytes names.items ≡ field_names fields.now) }
{
    let mut names = Vec::new(alloc);
    for field in fields.iter() {
        names.push(String::from_str(alloc, field.name())?)?;
    }
    Ok(names)
}

fn lent(text: &Option<String>) -> Option<&str>
    ensures { option_copied result ≡ option_map string_bytes text.now }
{
    match text {
        None => None,
        Some(known) => Some(known.as_str()),
    }
}

impl OwnedMetadata {
    /// A copy of the metadata.
    ///
    /// # Errors
    ///
    /// Out of memory.
    pub fn new(alloc: Global, metadata: &Metadata<'_>) -> Result<OwnedMetadata, AllocError>
        ensures { IfOk result (λ copy. owned_plain copy ≡ plain_metadata metadata.now) }
    {
        Ok(OwnedMetadata {
            name: String::from_str(alloc, metadata.name())?,
            target: String::from_str(alloc, metadata.target())?,
            level: *metadata.level(),
            module_path: owned(alloc, metadata.module_path())?,
            file: owned(alloc, metadata.file())?,
            line: metadata.line(),
            fields: owned_names(alloc, metadata.fields())?,
            callsite: metadata.callsite(),
            kind: metadata.kind(),
        })
    }

    /// The name.
    pub fn name(&self) -> &str
        ensures { result.now ≡ (owned_plain self.now).name }
    {
        self.name.as_str()
    }

    /// What the callsite makes.
    pub fn kind(&self) -> Kind
        ensures { result ≡ (owned_plain self.now).kind }
    {
        self.kind
    }

    /// The fields, which lend their names.
    pub fn fields(&self) -> FieldSet<'_>
        ensures names { field_names result ≡ (owned_plain self.now).field_names }
        ensures callsite { set_callsite result ≡ (owned_plain self.now).callsite }
    {
        FieldSet::of_strings(self.fields.as_slice(), self.callsite)
    }

    /// The metadata, which lends the texts.
    pub fn metadata(&self) -> Metadata<'_>
        ensures { plain_metadata result ≡ owned_plain self.now }
    {
        self.metadata_at(self.callsite)
    }

    /// The metadata, which lends the texts, with the fields of another callsite.
    pub fn metadata_at(&self, callsite: Identifier) -> Metadata<'_>
        ensures { plain_metadata result ≡ record (owned_plain self.now) { callsite = callsite.0 } }
    {
        Metadata::new(
            self.name.as_str(),
            self.target.as_str(),
            self.level,
            lent(&self.file),
            self.line,
            lent(&self.module_path),
            FieldSet::of_strings(self.fields.as_slice(), callsite),
            self.kind,
        )
    }

    /// Whether all parts of the metadata are those of the copy.
    pub fn is_same(&self, metadata: &Metadata<'_>) -> bool
        ensures { result ≡ is_same_metadata (owned_plain self.now) (plain_metadata metadata.now) }
    {
        let own = self.metadata();
        own == *metadata
    }
}
