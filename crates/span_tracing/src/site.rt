//! Callsites that an application registers once and then names.
ghost use Rattle.std.specs.Prelude.{◌≡◌, IfOk, MatchOption, MatchResult, None, Some, map};
ghost use Rattle.tracing_core_fields.specs.FieldSet.{index_of_name};
ghost use Rattle.tracing_core_fields.specs.Metadata.{metadata_fields, plain_metadata};
ghost use Rattle.span_tracing.specs.Sites.{AreTaken, MakesSite, RegistersSite, event_kind, site_metadata, span_kind};
ghost use Rattle.span_tracing_skeleton.specs.declared.call_error.CallError.TheVariants.{NoField};
ghost use Rattle.span_tracing_skeleton.specs.Looking.{named};
ghost use Rattle.span_tracing_steps.specs.States.{callsites_of};

use crate::Trace;
use span_tracing_skeleton::{CallError, HasRegistry, Refusal};
use tracing_core::CallsiteIndex;
use tracing_core_fields::{FieldSet, Identifier, Kind, Level, Metadata, Subscriber};

/// A callsite that is registered with a trace, for [`event!`](crate::event) and [`span!`](crate::span). An application keeps its own in a
/// struct.
#[derive(Clone, Copy, Debug)]
pub struct Site {
    /// Its identifier.
    pub identifier: Identifier,
    /// Where it stands in the trace.
    pub index: CallsiteIndex,
    /// Its fields.
    pub fields: FieldSet<'static>,
}

/// The number of an identifier that no callsite of the trace has, or none where all but the greatest are taken.
fn free_number<T: Subscriber + HasRegistry>(trace: &Trace<T>) -> Option<u64>
    ensures { MatchOption result (AreTaken (callsites_of trace.now.hub.callsites))
        (λ number. named (callsites_of trace.now.hub.callsites) number ≡ None) }
{
    for number in 0..u64::MAX {
        if trace.callsite(Identifier(number)).is_none() {
            return Some(number);
        }
    }
    None
}

impl Site {
    /// Registers a callsite of events, under an identifier that no other has. In lines of text the field `message` shows its value alone.
    ///
    /// # Errors
    ///
    /// `OutOfMemory`, or `Taken` where each identifier but the greatest has a callsite; both leave the trace as it was.
    pub fn event<T: Subscriber + HasRegistry>(
        trace: &mut Trace<T>,
        target: &'static str,
        name: &'static str,
        level: Level,
        fields: &'static [&'static str],
    ) -> Result<Site, Refusal>
        // The site has the fields, in their order, and its callsite is one of events with this target, name and level.
        ensures { MakesSite ⟦<T as Subscriber>⟧ trace.old (site_metadata target.now name.now level (map (λ field. field.now) fields.now)
            event_kind) result trace.new }
    {
        Site::make(trace, target, name, level, fields, Kind::EVENT)
    }

    /// Registers a callsite of spans, as [`event`](Site::event) does one of events.
    ///
    /// # Errors
    ///
    /// As of [`event`](Site::event).
    pub fn span<T: Subscriber + HasRegistry>(
        trace: &mut Trace<T>,
        target: &'static str,
        name: &'static str,
        level: Level,
        fields: &'static [&'static str],
    ) -> Result<Site, Refusal>
        ensures { MakesSite ⟦<T as Subscriber>⟧ trace.old (site_metadata target.now name.now level (map (λ field. field.now) fields.now)
            span_kind) result trace.new }
    {
        Site::make(trace, target, name, level, fields, Kind::SPAN)
    }

    fn make<T: Subscriber + HasRegistry>(
        trace: &mut Trace<T>,
        target: &'static str,
        name: &'static str,
        level: Level,
        fields: &'static [&'static str],
        kind: Kind,
    ) -> Result<Site, Refusal>
        ensures { MakesSite ⟦<T as Subscriber>⟧ trace.old (site_metadata target.now name.now level (map (λ field. field.now) fields.now)
            kind) result trace.new }
    {
        let Some(number) = free_number(trace) else {
            return Err(Refusal::Taken);
        };
        let identifier = Identifier(number);
        let fields = FieldSet::new(fields, identifier);
        let metadata = Metadata::new(name, target, level, None, None, None, fields, kind);
        Site::register(trace, &metadata)
    }

    /// Registers a callsite under the identifier that its fields name.
    ///
    /// # Errors
    ///
    /// As `Trace::register`.
    pub fn register<T: Subscriber + HasRegistry>(
        trace: &mut Trace<T>,
        metadata: &Metadata<'static>,
    ) -> Result<Site, Refusal>
        ensures registers { RegistersSite ⟦<T as Subscriber>⟧ trace.old (plain_metadata metadata.now) result trace.new }
        // The site has the fields of the metadata.
        ensures fields { IfOk result (λ site. site.fields ≡ metadata_fields metadata.now) }
    {
        let identifier = metadata.callsite();
        let _interest = trace.register(identifier, metadata)?;
        match trace.callsite(identifier) {
            Some(index) => Ok(Site {
                identifier,
                index,
                fields: *metadata.fields(),
            }),
            // It was registered.
            None => unreachable!(),
        }
    }

    /// Where the first field of this name stands among the site's.
    ///
    /// # Errors
    ///
    /// `NoField`, with the name, where the site has none.
    pub fn field(&self, name: &'static str) -> Result<usize, CallError>
        ensures { MatchResult result
            (λ place. index_of_name self.now.fields name.now ≡ Some place)
            (λ error. (index_of_name self.now.fields name.now ≡ None) × (error ≡ NoField name.entry)) }
    {
        match self.fields.field(name) {
            Some(field) => Ok(field.index()),
            None => Err(CallError::NoField(name)),
        }
    }
}
