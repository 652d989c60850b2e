// Texts of spans for which there is no memory.
use super::*;
use span_registry_layers_layers::{LayerExt, Layered, SubscriberExt};
use span_registry_layers_store::Registry;
use std::alloc::AllocError;
use tracing_core_fields::{Record, Subscriber};

// Finds no memory for what is added to the text of a span, and for the start of one only where there is room for it.
#[derive(Drop)]
pub struct Starved {
    pub starts: bool,
}

impl FormatFields for Starved {
    ghost use Rattle.std.specs.Prelude.{None};
    ghost use Rattle.event_formatter_text.specs.SpanFields.{no_fields};
    ghost use Rattle.event_formatter_text.specs.Visitors.{default_text};

    ghost text_of = { λ _ settings values. default_text settings values };

    ghost started = { λ _ settings. no_fields settings };

    ghost added = { λ _ fields values. None };

    fn format_fields<R: RecordFields>(
        &self,
        alloc: Global,
        writer: &mut Writer<'_>,
        fields: &R,
    ) -> Result<(), FormatError> {
        DefaultFields.format_fields(alloc, writer, fields)
    }

    fn start(&self, alloc: Global, settings: Settings) -> Result<FormattedFields, AllocError> {
        if self.starts {
            return Ok(FormattedFields::new(alloc, settings));
        }
        Err(AllocError)
    }

    fn add_fields<R: RecordFields>(
        &self,
        _alloc: Global,
        _current: &mut FormattedFields,
        _fields: &R,
    ) -> Result<(), FormatError> {
        Err(FormatError::OutOfMemory)
    }
}

type Tree = Layered<Layer<Starved, Format<Full, SystemTime>, Lines>, Registry>;

// A layer that tells closes, over a registry.
fn starved_tree(alloc: Global) -> Result<Tree, Fail> {
    let layer = layer(alloc, OutputKey(1), Lines::new(alloc))
        .fmt_fields(Starved { starts: true })
        .with_span_events(FmtSpan::CLOSE);
    let tree = layer.with_subscriber(Registry::new(alloc));
    Ok(tree.ok().ok_or("room")?)
}

// Makes a span `request` with n = 7, and records the same once more.
fn make_and_record<S: Subscriber>(tree: &mut S) -> Result<Id, Fail> {
    let fields = FieldSet::new(&NAMES, Identifier(1));
    let metadata = span_metadata("request", fields);
    let values = [None, Some(AnyValue::U64(7))];
    let attributes = Attributes::new(&metadata, fields.value_set_all(&values));
    let span = tree.new_span(&attributes, PLACE)?.ok_or("a span")?;
    tree.record(&span, &Record::new(fields.value_set_all(&values)), PLACE)?;
    Ok(span)
}

#[test]
fn texts_without_memory_are_missed_alone(rt: HostRuntime) -> Result<(), Fail> {
    let mut tree = starved_tree(rt.alloc())?;
    let span = make_and_record(&mut tree)?;
    assert!(rt; tree.layer().starved() == 2);
    let last = At {
        nanoseconds: 5,
        ..PLACE
    };
    tree.try_close(span, last);
    let written = tree.layer().writer().lines.as_slice();
    assert!(rt; written.len() == 1 && tree.layer().starved() == 2);
    assert_eq!(rt;
        written[0].as_str(),
        "2025-02-17T10:01:00.000000Z  INFO request: app: close time.busy=0.00ns time.idle=5.00ns\n"
    );
    Ok(())
}
