//! What was lost to a folder's faults, or on the way to the folder.

ghost use Rattle.std.specs.Prelude.{◌≡◌};

use crate::folders::{FolderError, FolderFault};

/// What was lost to a folder's faults, or on the way to the folder. Each count stops at the greatest number.
#[derive(Clone, Copy, Debug, PartialEq, Eq)]
pub struct Faults {
    /// Openings that failed; the old file stays in use.
    pub switches: usize,
    /// Listings and removals that failed. A listing whose directory isn't there yet is no failure.
    pub retentions: usize,
    /// Lines whose write failed, where the rest of each is lost; and lines that were lost on their way here, as by a
    /// closed queue.
    pub writes: usize,
    /// The last fault.
    pub last: Option<FolderFault>,
}

impl Faults {
    ghost use Rattle.tracing_appender_rolling.specs.Faults.{no_faults, after_switch, after_retention, after_listing, after_write};
    ghost use Rattle.tracing_appender_rolling.specs.Faults.{with_lost_writes};

    pub(crate) fn none() -> Faults
        ensures { result ≡ no_faults }
    {
        Faults {
            switches: 0,
            retentions: 0,
            writes: 0,
            last: None,
        }
    }

    /// The counts once so many further lines were lost before any folder was asked. The last fault stays as it was.
    pub fn with_lost_writes(self, lines: usize) -> Faults
        ensures { result ≡ with_lost_writes self lines }
    {
        Faults {
            writes: self.writes.saturating_add(lines),
            ..self
        }
    }

    pub(crate) fn after_switch(self, fault: FolderFault) -> Faults
        ensures { result ≡ after_switch self fault }
    {
        Faults {
            switches: self.switches.saturating_add(1),
            last: Some(fault),
            ..self
        }
    }

    pub(crate) fn after_retention(self, fault: FolderFault) -> Faults
        ensures { result ≡ after_retention self fault }
    {
        Faults {
            retentions: self.retentions.saturating_add(1),
            last: Some(fault),
            ..self
        }
    }

    /// After a listing that was refused. Where the directory isn't there yet, that is no fault: the opening makes it.
    pub(crate) fn after_listing(self, fault: FolderFault) -> Faults
        ensures { result ≡ after_listing self fault }
    {
        match fault {
            FolderFault::NotFound => self,
            FolderFault::Refused | FolderFault::Unsupported | FolderFault::WriteZero => {
                self.after_retention(fault)
            }
        }
    }

    pub(crate) fn after_write(self, outcome: Result<(), FolderError>) -> Faults
        ensures { result ≡ after_write self outcome }
    {
        match outcome {
            Ok(()) | Err(FolderError::OutOfMemory) => self,
            Err(FolderError::Fault(fault)) => Faults {
                writes: self.writes.saturating_add(1),
                last: Some(fault),
                ..self
            },
        }
    }
}
