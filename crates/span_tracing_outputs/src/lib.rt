//! A stack that hands its outputs' lines to sinks, the sinks that write log files, `open_stack`, and a model of each output.
#![tactic(auto)]

mod files;
mod hand;
mod has_filters;
mod has_outputs;
mod has_registry;
mod has_sinks;
mod laws;
mod output_sinks;
mod pending;
mod sink;
mod sinks;
mod trace_stack;

pub use files::{
    EitherFolder, FileStack, LaneThread, LineSettings, Lines, OpenStackError, OutputSpec, SinkSpec,
    SpecRefusal, open_stack, open_stack_with_threads,
};
pub use has_sinks::SinkPlace;
pub use laws::{layer_follows, outputs_fold, stack_follows, trace_follows, trace_starts};
pub use pending::{PendingLine, PendingLines};
pub use sink::LineSink;
pub use sinks::{
    AnySink, LiveSink, RollingSink, RoutedSinks, UnroutedSinks, drops_are_counted,
    each_sink_has_its_run, kept_lines_go_in_turn, kinds_stay, lines_reach_files,
    lines_stand_in_files, queued_lines_stand_in_files, routed_sinks_take_theirs, runs_are_told,
    runs_compose, sinks_meet_theirs,
};
pub use trace_stack::{TraceStack, UnpairedSinks};
