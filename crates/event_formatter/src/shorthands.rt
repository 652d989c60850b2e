//! The usual formats, timers and layer, by the names under which they are known.
ghost use Rattle.std.specs.Prelude.{◌≡◌, None};
ghost use Rattle.event_formatter_lines.specs.Json.{default_shape};
ghost use Rattle.event_formatter.specs.formats.Parts.{default_parts};
ghost use Rattle.event_formatter.specs.fmt_layer.Builders.{IsNew};

use crate::fmt_layer::Layer;
use crate::formats::{Format, Full, Json};
use event_formatter_lines::{SystemTime, Uptime};
use event_formatter_text::DefaultFields;
use span_registry_layers_store::OutputKey;
use std::alloc::Global;

/// The full format with time, level and target.
pub fn format(alloc: Global) -> Format<Full, SystemTime>
    ensures parts { result.parts ≡ default_parts }
    ensures ansi { result.ansi ≡ None }
{
    Format::new(alloc)
}

/// The JSON format with time, level and target.
pub fn json(alloc: Global) -> Format<Json, SystemTime>
    ensures shape { result.shape.shape ≡ default_shape }
    ensures parts { result.parts ≡ default_parts }
    ensures ansi { result.ansi ≡ None }
{
    format(alloc).json()
}

/// The timer that writes moments as `YYYY-MM-DDTHH:MM:SS.ffffffZ`.
pub fn time() -> SystemTime {
    SystemTime::new()
}

/// The timer that writes the time since this start, which is given in seconds from 1970-01-01T00:00:00Z and the
/// nanoseconds after these.
pub fn uptime(seconds: i64, nanoseconds: u32) -> Uptime
    ensures { (result.seconds ≡ seconds) × (result.nanoseconds ≡ nanoseconds) }
{
    Uptime::new(seconds, nanoseconds)
}

/// A layer that writes the full format to the maker, as [`Layer::new`] says.
pub fn layer<W>(
    alloc: Global,
    key: OutputKey,
    maker: W,
) -> Layer<DefaultFields, Format<Full, SystemTime>, W>
    ensures { IsNew key maker result }
{
    Layer::new(alloc, key, maker)
}
