//! Setup lines.

use crate::lines::decode::members::{Members, number_of_32_bits, owned_text};
use crate::lines::decode::stack::{StackLine, filter_of};
use crate::lines::fault::LineFault;
use serde_json::Value as Json;
use std::alloc::Global;
use tracing_core::{Kind, Level, LevelFilter};

/// A setup call.
#[derive(Drop)]
pub enum Setup {
    Stack(StackLine),
    Callsite(CallsiteLine),
    Lane(LaneLine),
    /// A filter on the shelf.
    Shelf(LevelFilter),
}

/// What is known of an event or a span before it happens.
#[derive(Drop)]
pub struct CallsiteLine {
    pub id: u64,
    pub kind: Kind,
    pub name: String,
    pub target: String,
    pub level: Level,
    pub fields: Vec<String>,
    pub file: Option<String>,
    pub line: Option<u32>,
}

impl CallsiteLine {
    /// The first field of that name.
    pub fn field_index(&self, name: &str) -> Option<usize> {
        self.fields.iter().position(|field| field.as_str() == name)
    }
}

/// A thread.
#[derive(Drop)]
pub struct LaneLine {
    pub thread: u64,
    pub name: Option<String>,
}

const CALLSITE_KEYS: [&str; 9] = [
    "do", "id", "kind", "name", "target", "level", "fields", "file", "line",
];

pub(crate) fn callsite_line(
    alloc: Global,
    members: Members<'_>,
) -> Result<CallsiteLine, LineFault> {
    members.only(&CALLSITE_KEYS)?;
    let id = members.number("id")?;
    let kind = kind_of(members.text("kind")?)?;
    let level = members.text("level")?.parse::<Level>();
    let level = level.or(Err(LineFault::NotReadable))?;
    let line = match members.find("line") {
        None => None,
        Some(value) => Some(number_of_32_bits(value)?),
    };
    // what owns memory comes last, so that little has to be given back where a member can't be read
    Ok(CallsiteLine {
        id,
        kind,
        name: owned_text(alloc, members.get("name")?)?,
        target: owned_text(alloc, members.get("target")?)?,
        level,
        fields: field_names(alloc, members.list("fields")?)?,
        file: members.text_if_given(alloc, "file")?,
        line,
    })
}

fn kind_of(word: &str) -> Result<Kind, LineFault> {
    match word {
        "event" => Ok(Kind::EVENT),
        "span" => Ok(Kind::SPAN),
        _ => Err(LineFault::NotReadable),
    }
}

fn field_names(alloc: Global, list: &[Json]) -> Result<Vec<String>, LineFault> {
    let mut names = Vec::new(alloc);
    for value in list {
        names.push(owned_text(alloc, value)?)?;
    }
    Ok(names)
}

pub(crate) fn lane_line(alloc: Global, members: Members<'_>) -> Result<LaneLine, LineFault> {
    members.only(&["do", "thread", "name"])?;
    Ok(LaneLine {
        thread: members.number("thread")?,
        name: members.text_if_given(alloc, "name")?,
    })
}

pub(crate) fn shelf_line(members: Members<'_>) -> Result<LevelFilter, LineFault> {
    members.only(&["do", "filter"])?;
    filter_of(members)
}
