//! Where the lines of a layer go.
ghost use Rattle.std.specs.Borrow.{sem};
ghost use Rattle.std.specs.Prelude.{◌≡◌, ◌++◌, OnOk, false, string_bytes};
ghost use Rattle.tracing_core_fields.specs.FieldSet.{field_names};
ghost use Rattle.tracing_core_fields.specs.Metadata.{plain_metadata};
ghost use Rattle.event_formatter.specs.fmt_layer.MakerLoan.{LendsOwnMaker};
ghost use Rattle.event_formatter.specs.fmt_layer.Lines.{HandsLine, Offers, RestsWithout, before_fields, before_name};
ghost use Rattle.event_formatter.specs.fmt_layer.Lines.{fault_if, fault_text, names_inside, one_more};

use event_formatter_text::MakeWriter;
use std::alloc::AllocError;
use std::io::ErrorKind;
use tracing_core_fields::{FieldSet, Metadata};

/// The maker that takes the lines, the line that is being written, and how many texts and lines found no memory.
#[derive(Drop)]
pub(crate) struct Output<W> {
    pub(crate) maker: W,
    pub(crate) line: String,
    pub(crate) starved: u64,
}

// Appends the names, a comma and a space between two.
fn push_names(out: &mut String, fields: &FieldSet<'_>) -> Result<(), AllocError>
    ensures { OnOk result (string_bytes out.new ≡ string_bytes out.old ++ names_inside (field_names fields.now)) }
{
    let mut rest = fields.iter();
    let Some(first) = rest.next() else {
        return Ok(());
    };
    out.push_str(first.name())?;
    for field in rest {
        out.push_str(", ")?;
        out.push_str(field.name())?;
    }
    Ok(())
}

// What stands before the name of an event that can't be formatted.
#[tactic(auto, unfolding(crate::specs::fmt_layer::Lines::before_name))]
fn before_name() -> &'static str
    ensures { result.now ≡ before_name }
{
    "Unable to format the following event. Name: "
}

// What stands before the names of its fields.
#[tactic(auto, unfolding(crate::specs::fmt_layer::Lines::before_fields))]
fn before_fields() -> &'static str
    ensures { result.now ≡ before_fields }
{
    "; Fields: ["
}

// Appends what stands in place of an event that can't be formatted.
fn push_fault(out: &mut String, metadata: &Metadata<'_>) -> Result<(), AllocError>
    ensures { OnOk result (string_bytes out.new ≡ string_bytes out.old ++ fault_text (plain_metadata metadata.now)) }
{
    out.push_str(before_name())?;
    out.push_str(metadata.name())?;
    out.push_str(before_fields())?;
    push_names(out, metadata.fields())?;
    out.push_str("]\n")
}

impl<W: Drop> Output<W> {
    /// The same with another maker.
    pub(crate) fn with_maker<V>(self, maker: V) -> Output<V>
        ensures maker { result.maker ≡ maker }
        ensures starved { result.starved ≡ self.starved }
    {
        Output {
            maker,
            line: self.line,
            starved: self.starved,
        }
    }
}

impl<W> Output<W> {
    /// The maker, to be changed.
    pub(crate) fn maker_mut(&mut self) -> &mut W
        ensures lent { result.now ≡ self.old.maker }
        ensures* ends { sem 𝓛 (LendsOwnMaker W.row self.entry result) }
    {
        &mut self.maker
    }

    /// The same with the maker that the function makes of this one's.
    pub(crate) fn map_maker<V, F: FnOnce(W) -> V>(self, map: F) -> Output<V>
        requires { F.pre map self.maker }
        ensures maker { F.post map self.maker result.maker }
        ensures starved { result.starved ≡ self.starved }
    {
        Output {
            maker: map(self.maker),
            line: self.line,
            starved: self.starved,
        }
    }

    /// Counts a text or a line that found no memory.
    pub(crate) fn miss(&mut self)
        ensures { self.new ≡ record self.old { starved = one_more self.old.starved } }
    {
        self.starved = self.starved.saturating_add(1);
    }
}

impl<W: MakeWriter> Output<W> {
    /// Hands the line on, whole. A refusal of the maker is its own affair, but for lack of memory, which is counted.
    pub(crate) fn hand_over(&mut self, metadata: &Metadata<'_>)
        ensures { HandsLine W.writes self.old (plain_metadata metadata.now) (string_bytes self.old.line) self.new }
    {
        let answer = self.maker.write_for(metadata, self.line.as_bytes());
        if let Err(error) = answer {
            if error.kind() == ErrorKind::OutOfMemory {
                self.miss();
            }
        }
    }

    /// Hands on what stands in place of an event that can't be formatted, where faults are told.
    pub(crate) fn hand_fault(&mut self, metadata: &Metadata<'_>, tells_faults: bool)
        ensures fault { let m = plain_metadata metadata.now in Offers W.writes self.old m (fault_if tells_faults m) self.new }
        // Where faults aren't told, nothing is handed on, and nothing is counted as without memory.
        ensures quiet { tells_faults ≡ false → RestsWithout W.writes self.old self.new }
    {
        if !tells_faults {
            return;
        }
        self.line.clear();
        match push_fault(&mut self.line, metadata) {
            Ok(()) => self.hand_over(metadata),
            Err(_) => self.miss(),
        }
    }
}
