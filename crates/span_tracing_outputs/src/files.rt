//! Outputs of a trace that write log files: how they are told, and how their files are opened.

mod either_folder;
mod lane_thread;
mod line_settings;
mod open_error;
mod opening;
mod output_spec;

pub use either_folder::EitherFolder;
pub use lane_thread::LaneThread;
pub use line_settings::{LineSettings, Lines};
pub use open_error::OpenStackError;
pub use opening::{FileStack, open_stack, open_stack_with_threads};
pub use output_spec::{OutputSpec, SinkSpec, SpecRefusal};
