//! Sinks of outputs.

use crate::lines::decode::members::{Members, owned_text};
use crate::lines::fault::LineFault;
use serde_json::Value as Json;
use std::alloc::Global;
use tracing_appender_rolling::Rotation;

/// The files that take an output's lines.
#[derive(Drop)]
pub struct SinkLine {
    pub folder: FolderLine,
    /// How often the file changes.
    pub rotation: Rotation,
    /// What stands before the date in a file's name.
    pub prefix: Option<String>,
    /// What stands after the date in a file's name.
    pub suffix: Option<String>,
    /// How many files are kept. None and 0 mean no limit.
    pub max_files: Option<usize>,
    /// The name of a link to the latest file.
    pub link: Option<String>,
    /// The queue in front of the files, where there is one.
    pub queue: Option<QueueLine>,
}

/// The queue in front of a sink's files.
#[derive(Clone, Copy, Debug, Drop)]
pub struct QueueLine {
    /// How many lines it has room for.
    pub limit: usize,
    /// Whether a line that it has no room for is dropped, in place of held.
    pub lossy: bool,
}

/// Where a sink's files lie.
#[derive(Debug, Drop)]
pub enum FolderLine {
    /// In a new folder in memory, with this name.
    Memory(String),
    /// In the directory at this path.
    Disk(String),
}

pub(crate) fn sink_lines(alloc: Global, list: &[Json]) -> Result<Vec<SinkLine>, LineFault> {
    let mut sinks = Vec::new(alloc);
    for value in list {
        sinks.push(sink_line(alloc, Members::of(value)?)?)?;
    }
    Ok(sinks)
}

const SINK_KEYS: [&str; 7] = [
    "folder",
    "rotation",
    "prefix",
    "suffix",
    "max_files",
    "link",
    "queue",
];

fn sink_line(alloc: Global, members: Members<'_>) -> Result<SinkLine, LineFault> {
    members.only(&SINK_KEYS)?;
    let rotation = rotation_named(members.text("rotation")?)?;
    let max_files = members.size_if_given("max_files")?;
    let queue = queue_of(members)?;
    // what owns memory comes last, so that little has to be given back where a member can't be read
    Ok(SinkLine {
        folder: folder_of(alloc, Members::of(members.get("folder")?)?)?,
        rotation,
        prefix: members.text_if_given(alloc, "prefix")?,
        suffix: members.text_if_given(alloc, "suffix")?,
        max_files,
        link: members.text_if_given(alloc, "link")?,
        queue,
    })
}

/// The queue of a sink, where its line has one.
fn queue_of(members: Members<'_>) -> Result<Option<QueueLine>, LineFault> {
    let Some(value) = members.find("queue") else {
        return Ok(None);
    };
    let queue = Members::of(value)?;
    queue.only(&["limit", "lossy"])?;
    Ok(Some(QueueLine {
        limit: queue.size("limit")?,
        lossy: queue.flag_or("lossy", true)?,
    }))
}

/// Either kind of folder, and not both.
fn folder_of(alloc: Global, members: Members<'_>) -> Result<FolderLine, LineFault> {
    if let Some(path) = members.find("disk") {
        members.only(&["disk"])?;
        return Ok(FolderLine::Disk(owned_text(alloc, path)?));
    }
    members.only(&["memory"])?;
    let name = members.get("memory")?;
    Ok(FolderLine::Memory(owned_text(alloc, name)?))
}

fn rotation_named(word: &str) -> Result<Rotation, LineFault> {
    match word {
        "minutely" => Ok(Rotation::MINUTELY),
        "hourly" => Ok(Rotation::HOURLY),
        "daily" => Ok(Rotation::DAILY),
        "weekly" => Ok(Rotation::WEEKLY),
        "never" => Ok(Rotation::NEVER),
        _ => Err(LineFault::NotReadable),
    }
}
