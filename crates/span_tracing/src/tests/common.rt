//! Moments, metadata, values and outputs that several tests use.

use event_formatter::{Fields, Format, Layer, LineFormat, Timer};
use event_formatter_lines::{FixedText, FmtSpan};
use event_formatter_text::Route;
use span_registry_layers::Output;
use span_registry_layers_layers::{Filter, Filtered};
use span_registry_layers_store::OutputKey;
use span_tracing_outputs::{LineSettings, OutputSpec, PendingLines, SinkSpec};
use std::alloc::{AllocError, Global};
use std::test::Fail;
use tracing_appender_rolling::Folder;
use tracing_core_fields::{
    AnyValue, FieldSet, FieldValue, Kind, LentValue, Level, LevelFilter, Metadata, OwnedValue,
};
use tracing_core_moments::Moment;

/// 2025-02-17T10:01:00Z.
pub(crate) const MONDAY: Moment = Moment {
    seconds: 1_739_786_460,
    nanoseconds: 0,
};

/// 2025-02-18T00:00:00Z.
pub(crate) const TUESDAY: Moment = Moment {
    seconds: 1_739_836_800,
    nanoseconds: 0,
};

/// One second before the first moment.
pub(crate) const TOO_EARLY: Moment = Moment {
    seconds: -62_135_596_801,
    nanoseconds: 0,
};

pub(crate) type Shape = Format<LineFormat, Timer>;

pub(crate) type Shown = Filtered<Layer<Fields, Shape, PendingLines>, LevelFilter>;

pub(crate) fn span_at<'a>(name: &'a str, level: Level, fields: FieldSet<'a>) -> Metadata<'a> {
    Metadata::new(name, "app", level, None, None, None, fields, Kind::SPAN)
}

pub(crate) fn event_at<'a>(name: &'a str, level: Level, fields: FieldSet<'a>) -> Metadata<'a> {
    Metadata::new(name, "app", level, None, None, None, fields, Kind::EVENT)
}

pub(crate) fn text_field(
    alloc: Global,
    field: usize,
    text: &str,
) -> Result<FieldValue, AllocError> {
    Ok(FieldValue {
        field,
        value: OwnedValue::Text(String::from_str(alloc, text)?),
    })
}

pub(crate) fn number_field(field: usize, number: u64) -> FieldValue {
    FieldValue {
        field,
        value: OwnedValue::U64(number),
    }
}

/// The same, lent.
pub(crate) fn lent_text<'a>(field: usize, text: &'a str) -> LentValue<'a> {
    LentValue {
        field,
        value: AnyValue::Str(text),
    }
}

pub(crate) fn lent_number<'a>(field: usize, number: u64) -> LentValue<'a> {
    LentValue {
        field,
        value: AnyValue::U64(number),
    }
}

/// An output of this shape, with lines at the close of spans.
pub(crate) fn output_in(
    alloc: Global,
    key: u32,
    shape: LineFormat,
    fields: Fields,
    filter: LevelFilter,
) -> Result<Output<Shown>, Fail> {
    output_filtered(alloc, key, shape, fields, filter)
}

/// The same under any filter.
pub(crate) fn output_filtered<F: Filter>(
    alloc: Global,
    key: u32,
    shape: LineFormat,
    fields: Fields,
    filter: F,
) -> Result<Output<Filtered<Layer<Fields, Shape, PendingLines>, F>>, Fail> {
    let time = FixedText::new(String::from_str(alloc, "fake time")?);
    let format = Format::new(alloc)
        .with_timer(Timer::Fixed(time))
        .with_shape(shape);
    let layer = Layer::new(alloc, OutputKey(key), PendingLines::new(alloc))
        .without_time()
        .event_format(format)
        .fmt_fields(fields)
        .with_span_events(FmtSpan::CLOSE);
    Ok(Output {
        key: OutputKey(key),
        output: Filtered::new(layer, filter),
    })
}

/// One output from INFO on, over sinks that are still to be opened.
pub(crate) fn output_over<D: Folder, Q: Drop>(
    alloc: Global,
    key: u32,
    lines: LineSettings,
    route: Route,
    sinks: Vec<SinkSpec<D, Q>>,
) -> Result<Vec<OutputSpec<LevelFilter, D, Q>>, Fail> {
    let made = OutputSpec::new(OutputKey(key), LevelFilter::INFO, lines, route, sinks);
    let spec = made.map_err(|refused| refused.error)?;
    let mut outputs = Vec::new(alloc);
    outputs.push(spec).ok().ok_or("room")?;
    Ok(outputs)
}
