//! Sinks of a trace's outputs: rolling files that take lines.

mod any_sink;
mod laws;
mod live;
mod routed;
mod sink;

pub use any_sink::AnySink;
pub use laws::{
    drops_are_counted, each_sink_has_its_run, kept_lines_go_in_turn, kinds_stay, lines_reach_files,
    lines_stand_in_files, queued_lines_stand_in_files, routed_sinks_take_theirs, runs_are_told,
    runs_compose, sinks_meet_theirs,
};
pub use live::LiveSink;
pub use routed::{RoutedSinks, UnroutedSinks};
pub use sink::RollingSink;
