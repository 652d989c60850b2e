//! Lines of stacks, with their outputs.

use crate::lines::decode::members::{Members, number_of_32_bits, owned_text};
use crate::lines::decode::route::route_of;
use crate::lines::decode::sink::{SinkLine, sink_lines};
use crate::lines::fault::LineFault;
use event_formatter::Route;
use serde_json::Value as Json;
use std::alloc::Global;
use tracing_core::LevelFilter;
use tracing_core_moments::Moment;

/// A stack of outputs.
#[derive(Drop)]
pub struct StackLine {
    pub moment: Moment,
    pub outputs: Vec<OutputLine>,
}

/// An output and its sinks.
#[derive(Drop)]
pub struct OutputLine {
    pub key: u32,
    pub filter: LevelFilter,
    pub format: FormatName,
    pub time: TimeLine,
    pub show_level: bool,
    /// The moments of a span at which a line is written for it. One that is named twice counts once.
    pub span_events: Vec<SpanEvent>,
    /// Which sinks take a line, by their places in `sinks`. Those places may be past the end.
    pub route: Route,
    pub sinks: Vec<SinkLine>,
}

/// A format of lines.
#[derive(Clone, Copy, Debug, Drop, PartialEq, Eq)]
pub enum FormatName {
    Full,
    Compact,
    Pretty,
    Json,
}

/// What stands at the start of a line.
#[derive(Debug, Drop)]
pub enum TimeLine {
    /// The moment.
    System,
    /// This text.
    Fixed(String),
    Absent,
}

/// A moment of a span.
#[derive(Clone, Copy, Debug, Drop, PartialEq, Eq)]
pub enum SpanEvent {
    New,
    Enter,
    Exit,
    Close,
}

pub(crate) fn stack_line(alloc: Global, members: Members<'_>) -> Result<StackLine, LineFault> {
    members.only(&["do", "moment", "outputs"])?;
    let moment = members.moment()?;
    Ok(StackLine {
        moment,
        outputs: output_lines(alloc, members.list("outputs")?)?,
    })
}

fn output_lines(alloc: Global, list: &[Json]) -> Result<Vec<OutputLine>, LineFault> {
    let mut outputs = Vec::new(alloc);
    for value in list {
        outputs.push(output_line(alloc, Members::of(value)?)?)?;
    }
    Ok(outputs)
}

const OUTPUT_KEYS: [&str; 8] = [
    "key",
    "filter",
    "format",
    "route",
    "time",
    "show_level",
    "span_events",
    "sinks",
];

/// The level filter that a line names.
pub(crate) fn filter_of(members: Members<'_>) -> Result<LevelFilter, LineFault> {
    let filter = members.text("filter")?.parse::<LevelFilter>();
    filter.or(Err(LineFault::NotReadable))
}

fn output_line(alloc: Global, members: Members<'_>) -> Result<OutputLine, LineFault> {
    members.only(&OUTPUT_KEYS)?;
    let key = number_of_32_bits(members.get("key")?)?;
    let filter = filter_of(members)?;
    let format = format_named(members.text("format")?)?;
    let show_level = members.flag_or("show_level", true)?;
    // what owns memory comes last, so that little has to be given back where a member can't be read
    Ok(OutputLine {
        key,
        filter,
        format,
        time: time_of(alloc, members.find("time"))?,
        show_level,
        span_events: span_events(alloc, members)?,
        route: route_of(alloc, members.get("route")?)?,
        sinks: sink_lines(alloc, members.list("sinks")?)?,
    })
}

fn format_named(word: &str) -> Result<FormatName, LineFault> {
    match word {
        "full" => Ok(FormatName::Full),
        "compact" => Ok(FormatName::Compact),
        "pretty" => Ok(FormatName::Pretty),
        "json" => Ok(FormatName::Json),
        _ => Err(LineFault::NotReadable),
    }
}

/// A fixed text, or none for null. The text `system` names the moment's text, and so does an absent key.
fn time_of(alloc: Global, value: Option<&Json>) -> Result<TimeLine, LineFault> {
    let Some(value) = value else {
        return Ok(TimeLine::System);
    };
    match value.as_str() {
        Some("system") => Ok(TimeLine::System),
        Some(_) => Ok(TimeLine::Fixed(owned_text(alloc, value)?)),
        None if value.is_null() => Ok(TimeLine::Absent),
        None => Err(LineFault::NotReadable),
    }
}

fn span_events(alloc: Global, members: Members<'_>) -> Result<Vec<SpanEvent>, LineFault> {
    let mut events = Vec::new(alloc);
    if members.find("span_events").is_none() {
        return Ok(events);
    }
    for value in members.list("span_events")? {
        events.push(span_event(value)?)?;
    }
    Ok(events)
}

/// The moment of that name.
pub(crate) fn span_event(value: &Json) -> Result<SpanEvent, LineFault> {
    match value.as_str() {
        Some("new") => Ok(SpanEvent::New),
        Some("enter") => Ok(SpanEvent::Enter),
        Some("exit") => Ok(SpanEvent::Exit),
        Some("close") => Ok(SpanEvent::Close),
        _ => Err(LineFault::NotReadable),
    }
}
