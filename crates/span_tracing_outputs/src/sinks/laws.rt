//! Laws of lines that are taken one after another.
ghost use Rattle.span_tracing_outputs.specs.sinks.AnySinks.{KindsStay};
ghost use Rattle.span_tracing_outputs.specs.sinks.Fates.{CountsAreExact, DropsAreCounted, KeptLinesGoInTurn, LinesReachFiles, RunsAreTold};
ghost use Rattle.span_tracing_outputs.specs.sinks.OutputRuns.{EachComposes};
ghost use Rattle.span_tracing_outputs.specs.sinks.QueueFiles.{QueuesStand};
ghost use Rattle.span_tracing_outputs.specs.sinks.Routed.{RoutedTakeTheirs};
ghost use Rattle.span_tracing_outputs.specs.sinks.Runs.{RunsCompose};
ghost use Rattle.span_tracing_outputs.specs.sinks.SinkTurns.{SinksMeetTheirs};
ghost use Rattle.span_tracing_outputs.specs.sinks.LinesInFiles.{LinesStandInFiles};

use crate::LineSink;
use tracing_appender::LiveQueue;
use tracing_appender_queue::drops_are_exact;
use tracing_appender_rolling::Folder;

/// Runs of lines follow one another as their lists do, and what a sink takes at one moment is a run.
pub fn runs_compose<S: LineSink>()
    ensures { RunsCompose S.takes }
{}

/// The sinks of several outputs, request by request: each takes a run of its own, which grows by what a request hands
/// over.
pub fn each_sink_has_its_run<N, E, F, S: LineSink>()
    ensures { EachComposes N E F S.takes }
{}

/// Of a run of lines each of an output's sinks takes those that the route sends to it, in order and whole, whatever becomes of them at
/// the others; and the route stays. So what a folder refuses changes no other sink's files.
#[tactic(auto, using(crate::proofs::sinks::RoutedLines::routed_take_theirs))]
pub fn routed_sinks_take_theirs<S: LineSink>()
    ensures { RoutedTakeTheirs S.takes }
{}

/// A run of lines goes to a direct sink as its rolling file takes them, and to a queued one as its queue does: each line is queued,
/// dropped, held or lost, or finds no memory, and nothing is written. To a live one it goes line by line, as its queue takes lines.
#[tactic(auto, using(crate::proofs::sinks::SinkKinds::kinds_stay))]
pub fn kinds_stay<D: Folder, Q: LiveQueue>()
    ensures { KindsStay D.contents D.failed Q.settles }
{}

/// Each sink of a stack meets just what comes to it, step by step: the lines that its output's route sends there, and the calls on its
/// queue, whatever comes to the others. A direct sink takes its lines as its rolling file does. Of a queued one each line and each call
/// does as the queue says. The queue of a live one is offered its lines, and refuses each call.
pub fn sinks_meet_theirs<D: Folder, Q: LiveQueue>()
    ensures { SinksMeetTheirs D.contents D.failed Q.settles }
{}

/// Which bytes stand in the files of a queued sink after lines and calls on its queue, where no line found no memory and the appender
/// agreed with a sink before: exactly the lines that the steps of workers took, each handed over at its step's moment, stand in the files
/// that retention left, behind what was found there and handed over before. What waits, is held and was counted then follows from what
/// waited before.
pub fn queued_lines_stand_in_files<D: Folder>()
    ensures { QueuesStand D.contents D.failed }
{
    drops_are_exact();
}

/// Each line of a run has one fate. With these fates the count of dropped lines is exact, and all holds that an
/// appender promises of its writes: over a folder of known contents which looks, removals, openings and writes were
/// made, line by line, whatever it refuses; and over any folder what is counted.
pub fn runs_are_told<D: Folder>()
    ensures { RunsAreTold D.contents D.failed }
{}

/// Where the count of dropped lines stayed, exactly the lines of a run were handed to the files, in order, each at
/// its own moment and behind what retention removed before it.
pub fn lines_reach_files<D: Folder>()
    ensures { LinesReachFiles D.contents D.failed }
{}

/// Where the count of dropped lines stayed, exactly the lines of a run stand in the folder's files that retention
/// left, behind what was found there.
pub fn lines_stand_in_files<D: Folder>()
    ensures { LinesStandInFiles D.contents D.failed }
{}

/// The count of dropped lines never falls, and rises by at most one a line. The names of the files stay.
pub fn drops_are_counted<D: Folder>()
    ensures runs { DropsAreCounted D.contents D.failed }
    // Exactly the lines that found no memory or whose moment is out of range are counted as dropped, up to the greatest number.
    ensures exact { CountsAreExact }
{}

/// Lines of which none was dropped go to the files by the list of tries that the appender's laws tell of.
pub fn kept_lines_go_in_turn()
    ensures { KeptLinesGoInTurn }
{}
