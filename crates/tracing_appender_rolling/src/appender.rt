//! A file that changes by the period.

ghost use Rattle.std.specs.Prelude.{◌≡◌, ◌≤◌, List, [], Option, Some, None, IfOk, IfErr, OnOk, OnErr, Ok, true, false, length, drop};
ghost use Rattle.std.specs.Prelude.{string_bytes};
ghost use Rattle.std.specs.Option.{option_map};
ghost use Rattle.tracing_core_moments.specs.Moments.{is_moment, period_at, end_of, is_due};
ghost use Rattle.tracing_appender_rolling.specs.folders.Contents.{Contents};
ghost use Rattle.tracing_appender_rolling.specs.Names.{HasGoodLink};
ghost use Rattle.tracing_appender_rolling.specs.Builders.{builder_names};
ghost use Rattle.tracing_appender_rolling.specs.Tries.{TriesFile};
ghost use Rattle.tracing_appender_rolling.specs.Writes.{WritesAll};
ghost use Rattle.tracing_appender_rolling.specs.FaultReports.{CountsRetention, ReportsAll, ReportsError, ReportsTry};
ghost use Rattle.tracing_appender_rolling.specs.Faults.{no_faults};
ghost use Rattle.tracing_appender_rolling.specs.AnyFolder.{Rolls};
ghost use Rattle.tracing_appender_rolling.specs.Appenders.{Begins};
ghost use Rattle.tracing_appender_rolling.specs.PrunedSinks.{MayOpen, OpensSink};

use crate::builder::Builder;
use crate::faults::Faults;
use crate::folders::{FileNumber, Folder, FolderError, FolderFault};
use crate::init::{InitContext, InitFailure};
use crate::opening::create_writer;
use crate::retention::prune_old_logs;
use std::alloc::{AllocError, Global};
use tracing_core_moments::Moment;

/// Why a file could not be opened, with what was handed in: the folder as the calls until then left it.
#[derive(Drop)]
pub(crate) struct OpenRefusal<D> {
    pub(crate) context: InitContext,
    pub(crate) error: FolderError,
    pub(crate) builder: Builder,
    pub(crate) folder: D,
}

/// A file that was opened after retention, and what retention lost.
#[derive(Clone, Copy, Debug)]
pub(crate) struct Opened {
    file: FileNumber,
    faults: Faults,
}

/// A log file over a folder, which changes when a moment passes the end of the file's period.
#[derive(Drop)]
pub struct RollingFileAppender<D> {
    pub(crate) alloc: Global,
    pub(crate) builder: Builder,
    pub(crate) folder: D,
    /// The first second past the period of the last try to open a file.
    pub(crate) boundary: Option<i64>,
    pub(crate) current: FileNumber,
    pub(crate) faults: Faults,
}

impl<D: Folder> RollingFileAppender<D> {
    ghost use Rattle.tracing_appender_rolling.specs.Appenders.{Holds, LooksAt, MissesAt, IsOpened, FailedAt};
    ghost use Rattle.tracing_appender_rolling.specs.Looks.{Held, Switches, end_at};
    ghost use Rattle.tracing_appender_rolling.specs.AnyFolder.{RollsAt};
    ghost use Rattle.tracing_appender_rolling.specs.Faults.{after_write, with_lost_writes};
    ghost use Rattle.tracing_appender_rolling.specs.PrunedSinks.{PrunedSink, AgreesSink, RollsSink, WritesSink};

    /// Opens the file of the moment's period, after retention. Names are not looked at.
    ///
    /// # Errors
    ///
    /// The folder's fault, or `OutOfMemory`, with the builder and the folder.
    pub(crate) fn open(
        alloc: Global,
        builder: Builder,
        mut folder: D,
        moment: Moment,
    ) -> Result<Self, OpenRefusal<D>>
        requires { is_moment moment ≡ true }
        ensures builder { IfOk result (λ appender. appender.builder ≡ builder) }
        // Over known contents, whatever the folder refuses, the appender stands where retention and the opening left the folder.
        ensures held { (c : Contents) → D.contents folder ≡ Some c →
            IfOk result (λ appender. IsOpened D.contents (builder_names builder) moment c appender) }
        ensures failed { (c : Contents) → D.contents folder ≡ Some c →
            IfErr result (λ refusal. FailedAt (builder_names builder) moment c refusal.context refusal.error
            (D.contents refusal.folder)) }
        // Over a plain folder the appender agrees with a model of its files, and nothing is lost.
        ensures state { (c : Contents) → D.contents folder ≡ Some c → HasGoodLink (builder_names builder) →
            MayOpen c (builder_names builder) →
            IfOk result (λ appender. OpensSink D.contents (builder_names builder) moment c appender) }
        ensures starved { (c : Contents) → D.contents folder ≡ Some c → HasGoodLink (builder_names builder) →
            MayOpen c (builder_names builder) → IfErr result (λ refusal. refusal.error ≡ FolderError.OutOfMemory) }
        ensures back { IfErr result (λ refusal. refusal.builder ≡ builder) }
        ensures counted { IfOk result (λ appender. CountsRetention (D.failed folder) no_faults appender.faults
            (D.failed appender.folder)) }
        ensures error { IfErr result (λ refusal. ReportsError (D.failed folder) refusal.error
            (D.failed refusal.folder)) }
    {
        match open_first(alloc, &builder, &mut folder, moment) {
            Ok(opened) => Ok(RollingFileAppender {
                alloc,
                boundary: builder.rotation.next_date(moment),
                builder,
                folder,
                current: opened.file,
                faults: opened.faults,
            }),
            Err(failure) => Err(OpenRefusal {
                context: failure.context,
                error: failure.error,
                builder,
                folder,
            }),
        }
    }

    /// Whether the file's period is over.
    fn should_rollover(&self, moment: Moment) -> bool
        ensures { result ≡ is_due self.now.boundary moment.seconds }
    {
        match self.boundary {
            None => false,
            Some(boundary) => boundary <= moment.seconds,
        }
    }

    /// Looks at a moment before a line is written: from the end of the file's period on that end moves, retention
    /// runs, and the file of the moment's period is opened. A folder's fault keeps the old file until the moment's
    /// period ends, and is counted. Out of memory keeps it too, and is not counted.
    pub(crate) fn roll(&mut self, moment: Moment) -> Result<(), AllocError>
        requires { is_moment moment ≡ true }
        ensures looked { (h : Held) → Holds D.contents self.old h →
            OnOk result (LooksAt D.contents (builder_names self.old.builder) moment h self.new) }
        ensures missed { (h : Held) → Holds D.contents self.old h →
            OnErr result (MissesAt D.contents (builder_names self.old.builder) moment h self.new) }
        // Where the appender agreed with a model of its files, it agrees with it after a look that found memory, and no fault is
        // counted.
        ensures state { (c : Contents) (p : PrunedSink) → D.contents self.old.folder ≡ Some c →
            AgreesSink D.contents self.old p → RollsSink D.contents p moment c self.old result self.new }
        // Over any folder a look before the end of the period changes nothing; a later one moves that end, counts faults, and keeps
        // the file where the opening failed.
        ensures anywhere { RollsAt D.failed moment self.old self.new }
        ensures stays { OnErr result (self.new.current ≡ self.old.current) }
        ensures builder { self.new.builder ≡ self.old.builder }
    {
        if !self.should_rollover(moment) {
            return Ok(());
        }
        self.refresh_writer(moment)?;
        Ok(())
    }

    /// Moves the end of the period, runs retention and opens the file of the moment's period.
    // Out of line: taken into the loop of a caller, its calendar arithmetic is moved in front of the test of the
    // period, and each request pays for it, also one that has no line. That was measured.
    #[inline(never)]
    fn refresh_writer(&mut self, moment: Moment) -> Result<(), AllocError>
        requires { is_moment moment ≡ true }
        ensures switched { Switches (builder_names self.old.builder) moment self.old.boundary self.old.current
            self.old.faults (D.contents self.old.folder) result self.new.boundary self.new.current self.new.faults
            (D.contents self.new.folder) }
        ensures anywhere { Rolls (builder_names self.old.builder) moment (D.failed self.old.folder) self.old.current
            self.old.faults self.new.boundary self.new.current self.new.faults (D.failed self.new.folder) }
        ensures stays { OnErr result (self.new.current ≡ self.old.current) }
        ensures builder { self.new.builder ≡ self.old.builder }
    {
        // first of all, so that a look that finds no memory isn't made again by each line of the period
        self.boundary = self.builder.rotation.next_date(moment);
        let name = self.builder.join_date(self.alloc, moment)?;
        let folder = &mut self.folder;
        prune_old_logs(self.alloc, &self.builder, folder, &mut self.faults)?;
        match create_writer(folder, name.as_str(), &self.builder.latest) {
            Ok(file) => {
                let old = self.current;
                self.current = file;
                // the old file is written no more, so what its close answers is passed over
                let _ = self.folder.close_file(old);
                Ok(())
            }
            Err(failure) => match failure.error {
                FolderError::OutOfMemory => Err(AllocError),
                FolderError::Fault(fault) => {
                    self.faults = self.faults.after_switch(fault);
                    Ok(())
                }
            },
        }
    }

    /// Writes bytes to the current file until all are taken. A fault loses the rest, and is counted.
    ///
    /// # Errors
    ///
    /// The fault, or out of memory, which is no fault.
    pub(crate) fn push(&mut self, bytes: &[u8]) -> Result<(), FolderError>
        ensures written { WritesAll (D.contents self.old.folder) self.old.current bytes.now result
            (D.contents self.new.folder) }
        ensures faults { self.new.faults ≡ after_write self.old.faults result }
        ensures still { self.new ≡ record self.old { folder = self.new.folder; faults = self.new.faults } }
        // Where the appender agreed with a model of its files, there is no fault, and these bytes stand there, or none where memory
        // ran out.
        ensures state { WritesSink (builder_names self.old.builder) self.old.boundary self.old.current
            (λ done. bytes.now) result (D.contents self.old.folder) (D.contents self.new.folder) }
        ensures names { builder_names self.new.builder ≡ builder_names self.old.builder }
        ensures error { ReportsAll (D.failed self.old.folder) result (length bytes.now) (D.failed self.new.folder) }
    {
        let outcome = write_all(&mut self.folder, self.current, bytes);
        // The counts are copied where something may be counted alone: most lines are written.
        if outcome.is_err() {
            self.faults = self.faults.after_write(outcome);
        }
        outcome
    }

    /// Counts so many lines among the writes that failed, for whoever lost them in front of the appender, as a closed queue
    /// does. The folder isn't asked, and the last fault stays as it was.
    pub fn add_lost_writes(&mut self, lines: usize)
        ensures { self.new ≡ record self.old { faults = with_lost_writes self.old.faults lines } }
    {
        self.faults = self.faults.with_lost_writes(lines);
    }

    /// What was lost to the folder's faults, or on the way to the folder.
    pub fn faults(&self) -> Faults
        ensures { result ≡ self.now.faults }
    {
        self.faults
    }

    /// The folder.
    pub fn folder(&self) -> &D
        ensures { result.now ≡ self.now.folder }
    {
        &self.folder
    }

    /// The folder, once nothing more is written.
    pub fn into_folder(self) -> D
        ensures { result ≡ self.folder }
    {
        self.folder
    }

    /// The builder and the folder, for whoever hands back what the appender was built of.
    pub fn into_parts(self) -> (Builder, D)
        ensures { result ≡ (self.builder, self.folder) }
    {
        (self.builder, self.folder)
    }
}

/// The file of the moment's period, opened after retention.
fn open_first<D: Folder>(
    alloc: Global,
    builder: &Builder,
    folder: &mut D,
    moment: Moment,
) -> Result<Opened, InitFailure>
    requires { is_moment moment ≡ true }
    ensures begins { Begins (builder_names builder.now) moment (D.contents folder.old) result (D.contents folder.new) }
    ensures counted { IfOk result (λ opened. CountsRetention (D.failed folder.old) no_faults opened.faults
        (D.failed folder.new)) }
    ensures error { ReportsTry (D.failed folder.old) result (D.failed folder.new) }
{
    let starved = InitFailure {
        context: InitContext::File,
        error: FolderError::OutOfMemory,
    };
    let Ok(name) = builder.join_date(alloc, moment) else {
        return Err(starved);
    };
    let mut faults = Faults::none();
    let Ok(()) = prune_old_logs(alloc, builder, folder, &mut faults) else {
        return Err(starved);
    };
    match create_writer(folder, name.as_str(), &builder.latest) {
        Ok(file) => Ok(Opened { file, faults }),
        Err(failure) => Err(failure),
    }
}

/// Writes until all bytes are taken.
fn write_all<D: Folder>(folder: &mut D, file: FileNumber, bytes: &[u8]) -> Result<(), FolderError>
    ensures written { WritesAll (D.contents folder.old) file bytes.now result (D.contents folder.new) }
    ensures error { ReportsAll (D.failed folder.old) result (length bytes.now) (D.failed folder.new) }
{
    let mut from = 0;
    while from < bytes.len() {
        let taken = folder.write(file, rest_of(bytes, from))?;
        if taken == 0 {
            return Err(FolderError::Fault(FolderFault::WriteZero));
        }
        from += taken;
    }
    Ok(())
}

fn rest_of(bytes: &[u8], from: usize) -> &[u8]
    requires { from ≤ length bytes.now }
    ensures { result.now ≡ drop from bytes.now }
{
    &bytes[from..]
}
