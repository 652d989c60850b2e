//! An output with a file for each day, in one call.
ghost use Rattle.span_tracing.specs.DailyOutputs.{DailyGives};

use span_registry_layers_store::OutputKey;
use span_tracing_outputs::{LineSettings, OpenStackError, OutputSpec};
use std::rt::Files;
use tracing_appender_rolling::{Builder, DiskFolder, Rotation};

/// An output under a filter that writes its lines to a file for each day in a directory: `PREFIX.YYYY-MM-DD`, by UTC. The directory is made
/// when the files are opened, where it isn't there. No old file is removed. [`OutputSpec::file`] takes other names and other folders.
///
/// # Errors
///
/// Those of [`OutputSpec::file`].
pub fn daily_output<R: Files + AllocGlobal + Clone + Drop, F: Drop>(
    rt: R,
    key: OutputKey,
    filter: F,
    lines: LineSettings,
    directory: &str,
    prefix: &str,
) -> Result<OutputSpec<F, DiskFolder<R>>, OpenStackError>
    // It is what `OutputSpec::file` gives for names with a day and the prefix, in a folder at the path.
    ensures { DailyGives (λ (folder : DiskFolder R _ _). folder.path) key filter lines directory.now prefix.now result }
{
    let alloc = rt.alloc();
    let files = Builder::new(alloc)
        .rotation(Rotation::DAILY)
        .filename_prefix(prefix);
    let folder = DiskFolder::new(rt, directory);
    OutputSpec::file(alloc, key, filter, lines, files, folder)
}
