//! Laws over the definitions.

ghost use Rattle.tracing_appender_rolling.specs.LineHandover.{LinesHaveOneEnd};
ghost use Rattle.tracing_appender_rolling.specs.Looks.{LaterPeriodsAreDue};
ghost use Rattle.tracing_appender_rolling.specs.Names.{NamesDiffer};
ghost use Rattle.tracing_appender_rolling.specs.FilesInOrder.{LinesStandWhole, FilesReadInOrder, OwnFilesReadInOrder, RetentionSpares};
ghost use Rattle.tracing_appender_rolling.specs.PrunedSinks.{FilesByPeriod};
ghost use Rattle.tracing_appender_rolling.specs.FilesByTries.{FilesGoByTries};

/// Different periods have different file names.
pub fn names_differ()
    ensures { NamesDiffer }
{}

/// A second lies at or past the end of another's period exactly where its own period is a later one.
pub fn later_periods_are_due()
    ensures { LaterPeriodsAreDue }
{}

/// Each period's file that retention left holds what its opening found and then that period's lines.
pub fn files_by_period()
    ensures { FilesByPeriod }
{}

/// A handed line stands whole in the file of its period, and no other file depends on it.
pub fn lines_stand_whole()
    ensures { LinesStandWhole }
{}

/// What becomes of a line, and what it leaves, is settled by the state before it, under any plan of refusals,
/// while no memory is refused.
pub fn lines_have_one_end()
    ensures { LinesHaveOneEnd }
{}

/// Files that were empty at the opening, read in byte order of their names, are the handed lines in order.
pub fn files_read_in_order()
    ensures all { FilesReadInOrder }
    // The sink's own files, where they were empty at the opening, read in byte order of their names, are the handed lines in order.
    ensures own { OwnFilesReadInOrder }
{}

/// Whatever a folder refuses, retention leaves the bytes of every file that it doesn't remove.
pub fn retention_spares_others()
    ensures { RetentionSpares }
{}

/// Whatever a folder refuses, the files go by a list of tries: the building's, and one for each line whose period
/// is later than that of every try before. The current file is that of the last try that succeeded, and each file,
/// standing or removed, has what it had at the opening and then the bytes that the folder's writes took for it.
/// While no memory is refused.
pub fn files_go_by_tries()
    ensures { FilesGoByTries }
{}
