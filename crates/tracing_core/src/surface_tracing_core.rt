// Each call of the crate once, through the paths that a user has.

mod fields;
mod hub;
mod lines;
mod requests;
mod run;
mod serving;
mod texts;

use crate::{At, FieldSet, Identifier, Kind, Level, Metadata};

/// Now, on a lane.
fn moment(lane: u64) -> At {
    At {
        lane,
        seconds: 0,
        nanoseconds: 0,
    }
}

fn metadata_of<'a>(fields: FieldSet<'a>, level: Level, kind: Kind) -> Metadata<'a> {
    Metadata::new("made", "app", level, None, None, None, fields, kind)
}

/// The metadata of INFO spans with these fields.
fn span_metadata<'a>(fields: FieldSet<'a>) -> Metadata<'a> {
    metadata_of(fields, Level::INFO, Kind::SPAN)
}

/// The metadata of an INFO event with no field.
fn event_metadata<'a>(callsite: u64) -> Metadata<'a> {
    metadata_of(
        FieldSet::new(&[], Identifier(callsite)),
        Level::INFO,
        Kind::EVENT,
    )
}
