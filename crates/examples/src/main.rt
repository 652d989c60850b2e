//! Three small programs that log, one after another: requests in spans, an audit trail, and orders under a filter of their own. Each stands
//! in a file of its own name, to be copied.
#![tactic(auto)]

mod audit;
mod orders;
mod requests;
mod shown;

use std::process::ExitCode;

fn main(rt: HostRuntime) -> ExitCode {
    if requests::run(&rt) && audit::run(&rt) && orders::run(&rt) {
        ExitCode::SUCCESS
    } else {
        ExitCode::FAILURE
    }
}
