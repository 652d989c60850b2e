//! What steps and runs of a trace make of its outputs and files, as laws.
#![tactic(auto)]

mod harmless;
mod isolation;
mod json;
mod json_runs;
mod queue_steps;
mod runs;
mod starved;

pub use harmless::{
    files_stay_harmless, formats_write_harmless_lines, harmless_formats_fill_files,
    harmless_outputs_fill_files, harmless_outputs_run, harmless_runs_fill_files,
    kept_texts_are_harmless, outputs_stay_harmless, timers_are_harmless,
};
pub use isolation::{faults_stay_apart, isolated};
pub use json::{
    files_hold_objects, json_format_writes_objects, json_outputs_offer_objects, lines_give_objects,
};
pub use json_runs::{json_files_hold_objects, json_format_files_hold_objects, json_outputs_run};
pub use queue_steps::{calls_may_change_places, queues_count_exactly, work_may_be_cut};
pub use runs::{
    files_follow, plain_steps_follow, runs_follow, setup_follows, skipping_misses_nothing,
    steps_follow, traces_stay_counted,
};
pub use starved::nothing_is_starved;
