//! A run of the service: workers that write, threads that serve, and what is left of both.
ghost use Rattle.std.specs.Prelude.{◌≡◌};

use crate::live::{LiveTrace, open, output, start};
use crate::pool::serve_all;
use crate::stop::Stop;
use span_tracing::{
    Clock, Folder, LineSettings, LiveQueue, Moment, NonBlocking, OutputKey, SystemClock,
};
use std::alloc::AllocGlobal;
use std::marker::Brand;
use std::rt;
use std::sync::Wait;
use std::sync::ledger::{Blank, Ledger};
use std::thread::Threads;

/// What the closed trace tells.
#[derive(Clone, Copy, Debug)]
struct Served {
    steps: usize,
    lost: usize,
}

/// What is left of a run: counts, and the folders.
#[derive(Drop)]
pub(crate) struct Report<D> {
    /// How many steps the closed journal has.
    pub(crate) steps: usize,
    /// How many lines are missing in the files.
    pub(crate) lost: usize,
    pub(crate) text: D,
    pub(crate) json: D,
}

/// Serves the jobs, and logs them to the queues. The queues' type is a parameter, since the prover shows of each parameter that it may go to
/// another thread.
fn serve_through<
    L: Ledger + Send + Sync,
    D: Folder + Send + Drop + 'static,
    Q: LiveQueue + Send + 'static,
    R: AllocGlobal + rt::Clock + Threads + Wait + Copy + Drop + Sync,
>(rt: &R, blank: Blank, text: Q, json: Q, jobs: &[u64]) -> Result<Served, Stop>
    requires { (blank.name ≡ L.name) × (blank.parts ≡ L.parts) × (blank.parts ≡ 5) }
{
    let alloc = rt.alloc();
    let text = output::<D, Q>(alloc, OutputKey(1), LineSettings::full(), text)?;
    let json = output(alloc, OutputKey(2), LineSettings::json(), json)?;
    let now = SystemClock::new(*rt, Moment::EPOCH).now();
    let (trace, sites) = open(alloc, now, vec![in alloc; text, json]?)?;
    let closed = serve_all::<L, LiveTrace<D, Q>, R>(rt, blank, trace, sites, jobs)?;
    let lost = (closed.trace.lost(0), closed.trace.lost(1));
    let (Some(text), Some(json)) = lost else {
        return Err(Stop::Missing);
    };
    Ok(Served {
        steps: closed.journal.len(),
        lost: text.saturating_add(json),
    })
}

/// Serves the jobs, and logs them to files in these folders. Each worker that was started is waited for, whatever came of the jobs.
pub(crate) fn run<
    D: Folder + Send + Drop + 'static,
    R: AllocGlobal + rt::Clock + Threads + Wait + Copy + Send + Sync + Drop + 'static,
>(rt: &R, text: D, json: D, jobs: &[u64]) -> Result<Report<D>, Stop> {
    let (text, text_worker) = start(rt, text)?;
    let (json, json_worker) = match start(rt, json) {
        Ok(started) => started,
        Err(stop) => {
            let _writer = text_worker.finish(rt);
            return Err(stop);
        }
    };
    // A part of the journal for each thread, and one for the trace.
    let parts = Blank::new(5);
    let served = serve_through::<Brand, D, NonBlocking<R>, R>(rt, parts, text, json, jobs);
    let text = text_worker.finish(rt).into_appender();
    let json = json_worker.finish(rt).into_appender();
    let missed = text.faults().writes.saturating_add(json.faults().writes);
    let Served { steps, lost } = served?;
    Ok(Report {
        steps,
        lost: lost.saturating_add(missed),
        text: text.into_folder(),
        json: json.into_folder(),
    })
}
