//! What tests of several files use: settings, values, metadata, a maker that keeps its lines, and a visitor.

use event_formatter_text::{FormatError, MakeWriter, Settings, VisitWrite};
use std::alloc::Global;
use std::io;
use std::io::ErrorKind;
use tracing_core_fields::{AnyValue, DebugText, Field, FieldSet, Kind, Level, Metadata, Visit};

pub const PLAIN: Settings = Settings {
    styles: false,
    sanitizes: true,
};

pub const STYLED: Settings = Settings {
    styles: true,
    sanitizes: true,
};

pub const ONE_AND_FAILING: [Option<AnyValue<'static>>; 2] = [
    Some(AnyValue::I64(1)),
    Some(AnyValue::Debug(DebugText::Failing)),
];

// The metadata of a span.
pub fn span_metadata<'a>(name: &'a str, fields: FieldSet<'a>) -> Metadata<'a> {
    let level = Level::INFO;
    Metadata::new(name, "app", level, None, None, None, fields, Kind::SPAN)
}

// The metadata of an event.
pub fn event_metadata<'a>(
    name: &'a str,
    file: Option<&'a str>,
    line: Option<u32>,
    fields: FieldSet<'a>,
) -> Metadata<'a> {
    let level = Level::INFO;
    Metadata::new(name, "app", level, file, line, None, fields, Kind::EVENT)
}

// Keeps the lines that it is handed, or refuses them.
#[derive(Drop)]
pub struct Lines {
    pub alloc: Global,
    pub lines: Vec<String>,
    pub refusal: Option<ErrorKind>,
}

impl Lines {
    pub fn new(alloc: Global) -> Lines {
        Lines {
            alloc,
            lines: Vec::new(alloc),
            refusal: None,
        }
    }

    // Whether it was handed just these.
    pub fn are(&self, lines: &[&str]) -> bool {
        let written = self.lines.as_slice();
        if written.len() != lines.len() {
            return false;
        }
        for index in 0..lines.len() {
            if written[index].as_str() != lines[index] {
                return false;
            }
        }
        true
    }
}

impl MakeWriter for Lines {
    ghost use Rattle.std.specs.Prelude.{◌≡◌, true};

    ghost takes = { λ maker m b. b ≡ true };

    ghost writes = { λ maker m line answer after. Unit {0} };

    fn writes_for(&self, _metadata: &Metadata<'_>) -> bool {
        true
    }

    fn write_for(&mut self, _metadata: &Metadata<'_>, line: &[u8]) -> io::Result<()> {
        if let Some(kind) = self.refusal {
            return Err(io::Error::from(kind));
        }
        let Ok(text) = std::str::from_utf8(line) else {
            return Err(io::Error::from(ErrorKind::InvalidData));
        };
        self.lines.push(String::from_str(self.alloc, text)?)?;
        Ok(())
    }
}

// Writes the names of fields as bytes.
#[derive(Drop)]
pub struct Names {
    pub bytes: Vec<u8>,
}

impl Visit for Names {
    ghost use Rattle.std.specs.Prelude.{⊤};

    type Error = FormatError;

    ghost shows = { λ _ _ _ _ _. ⊤ };

    fn record_debug(
        &mut self,
        field: &Field<'_>,
        _value: &DebugText<'_>,
    ) -> Result<(), FormatError> {
        self.bytes.extend_from_slice(field.name().as_bytes())?;
        Ok(())
    }
}

impl VisitWrite for Names {
    ghost use Rattle.std.specs.Prelude.{⊤};

    ghost appends_bytes = { λ _ _ _ _. ⊤ };

    fn write_all(&mut self, bytes: &[u8]) -> Result<(), FormatError> {
        self.bytes.extend_from_slice(bytes)?;
        Ok(())
    }
}
