//! The threads of lanes, as lines show them.
ghost use Rattle.std.specs.Prelude.{◌≡◌, ◌++◌, IfOk, OnOk, map, string_bytes};
ghost use Rattle.std.specs.Option.{option_copied, option_map};
ghost use Rattle.event_formatter.specs.fmt_layer.Builders.{SameButLanes};
ghost use Rattle.event_formatter.specs.fmt_layer.Threads.{plain_lanes};
ghost use Rattle.span_tracing_outputs.specs.files.Threads.{lane_of};

use crate::files::line_settings::Lines;
use std::alloc::{AllocError, Global};

/// The thread that a lane stands for.
#[derive(Clone, Copy, Debug)]
pub struct LaneThread<'a> {
    /// Its name, where it has one.
    pub name: Option<&'a str>,
    /// Its number.
    pub id: u64,
}

fn own_name(alloc: Global, name: Option<&str>) -> Result<Option<String>, AllocError>
    ensures { IfOk result (λ own. option_map string_bytes own ≡ option_copied name.entry) }
{
    match name {
        None => Ok(None),
        Some(name) => Ok(Some(String::from_str(alloc, name)?)),
    }
}

/// Tells a layer of the threads of lanes, in order.
///
/// # Errors
///
/// Out of memory. The layer then knows some of them.
pub(crate) fn tell_threads(
    alloc: Global,
    layer: &mut Lines,
    threads: &[LaneThread<'_>],
) -> Result<(), AllocError>
    ensures lanes { OnOk result (plain_lanes layer.new.threads ≡ plain_lanes layer.old.threads
        ++ map lane_of threads.now) }
    ensures rest { SameButLanes layer.old layer.new }
{
    for thread in threads {
        let name = own_name(alloc, thread.name)?;
        layer.thread(name, thread.id)?;
    }
    Ok(())
}
