//! A pool of threads that serve jobs, and log through one trace.
ghost use Rattle.std.specs.Prelude.{◌≡◌, ◌+◌, IfOk, OnOk};
ghost use Rattle.span_tracing.specs.Books.{Replays};
ghost use Rattle.span_tracing.specs.Entries.{plain_journal};

use crate::stop::Stop;
use span_tracing::{
    CarriesOut, Clock, Closed, EventCall, FieldValue, Moment, NewSpanCall, OwnedValue, Parent,
    Seat, Shared, Site, SpanCall, Step, SystemClock,
};
use std::alloc::{AllocError, AllocGlobal, Global};
use std::sync::Wait;
use std::sync::atomic::{AtomicUsize, Ordering};
use std::sync::ledger::{Blank, Ledger};
use std::thread::Threads;
use std::{rt, thread};

/// How many threads serve, each on a lane of its own.
pub(crate) const THREADS: usize = 4;

/// The callsites of the service.
#[derive(Clone, Copy, Debug)]
pub(crate) struct Sites {
    /// Spans of requests, with a job.
    pub(crate) request: Site,
    /// Events with a message and a job.
    pub(crate) told: Site,
}

/// A thread of the pool: the seat of its lane, and how its work ended.
#[derive(Drop)]
struct Worker<L: Ledger> {
    seat: Seat<L>,
    ended: Result<(), Stop>,
}

/// A job as the value of a field.
fn job_at(field: usize, job: u64) -> FieldValue {
    FieldValue {
        field,
        value: OwnedValue::U64(job),
    }
}

/// What an event tells of a job.
fn told(alloc: Global, message: &str, job: u64) -> Result<Vec<FieldValue>, AllocError> {
    let message = FieldValue {
        field: 0,
        value: OwnedValue::Text(String::from_str(alloc, message)?),
    };
    let values = vec![in alloc; message, job_at(1, job)]?;
    Ok(values)
}

/// Tells an event of a job on the seat's lane.
fn tell<L: Ledger, T: CarriesOut, R: AllocGlobal + Wait>(
    rt: &R,
    shared: &Shared<L, T>,
    seat: &mut Seat<L>,
    moment: Moment,
    site: Site,
    values: Vec<FieldValue>,
) -> Result<(), Stop>
    ensures lane { seat.new.lane ≡ seat.old.lane }
    ensures counted { OnOk result (seat.new.share.amount ≡ seat.old.share.amount + 1) }
{
    let event = Step::Event(EventCall {
        lane: seat.lane(),
        moment,
        callsite: site.identifier,
        parent: Parent::Contextual,
        values,
    });
    shared.call(rt, seat, &event)?.done()?;
    Ok(())
}

/// Does what a job asks for, and tells of it.
fn answer<L: Ledger, T: CarriesOut, R: AllocGlobal + Wait>(
    rt: &R,
    shared: &Shared<L, T>,
    seat: &mut Seat<L>,
    clock: &mut impl Clock,
    site: Site,
    job: u64,
) -> Result<(), Stop>
    ensures lane { seat.new.lane ≡ seat.old.lane }
    ensures counted { OnOk result (seat.new.share.amount ≡ seat.old.share.amount + 2) }
{
    let taken = told(rt.alloc(), "taken", job)?;
    tell(rt, shared, seat, clock.now(), site, taken)?;
    let served = told(rt.alloc(), "served", job)?;
    tell(rt, shared, seat, clock.now(), site, served)
}

/// Serves a job on the seat's lane, in a span of its own. Once it is entered, it is left and closed whatever comes of the job. A job that
/// is served has made six steps.
fn serve<L: Ledger, T: CarriesOut, R: AllocGlobal + Wait>(
    rt: &R,
    shared: &Shared<L, T>,
    seat: &mut Seat<L>,
    clock: &mut impl Clock,
    sites: Sites,
    job: u64,
) -> Result<(), Stop>
    ensures { OnOk result (seat.new.share.amount ≡ seat.old.share.amount + 6) }
{
    let lane = seat.lane();
    let moment = clock.now();
    let request = Step::NewSpan(NewSpanCall {
        lane,
        moment,
        callsite: sites.request.identifier,
        parent: Parent::Contextual,
        values: vec![in rt.alloc(); job_at(0, job)]?,
    });
    let span = shared.call(rt, seat, &request)?.span()?;
    let call = SpanCall { lane, moment, span };
    shared.call(rt, seat, &Step::Enter(call))?.done()?;
    let answered = answer(rt, shared, seat, clock, sites.told, job);
    let moment = clock.now();
    let call = SpanCall { lane, moment, span };
    shared.call(rt, seat, &Step::Exit(call))?.done()?;
    shared.call(rt, seat, &Step::TryClose(call))?.done()?;
    answered
}

/// Serves jobs until none is left: each time the next that no thread has taken yet.
fn work<L: Ledger, T: CarriesOut, R: AllocGlobal + rt::Clock + Wait + Copy + Drop>(
    rt: &R,
    shared: &Shared<L, T>,
    seat: &mut Seat<L>,
    sites: Sites,
    next: &AtomicUsize,
    jobs: &[u64],
) -> Result<(), Stop> {
    let mut clock = SystemClock::new(*rt, Moment::EPOCH);
    for _ in jobs {
        match jobs.get(next.fetch_add(1, Ordering::SeqCst)) {
            Some(job) => serve(rt, shared, seat, &mut clock, sites, *job)?,
            None => break,
        }
    }
    Ok(())
}

/// A worker for each lane.
fn workers_of<L: Ledger, T: CarriesOut, R: AllocGlobal + Wait>(
    rt: &R,
    shared: &Shared<L, T>,
) -> Result<Vec<Worker<L>>, Stop> {
    let mut workers = Vec::new(rt.alloc());
    for lane in 0..THREADS {
        let seat = shared.seat(rt, lane)?;
        workers.push(Worker {
            seat,
            ended: Ok(()),
        })?;
    }
    Ok(workers)
}

/// The workers' seats, if each worker came to its end.
fn seats_of<L: Ledger>(alloc: Global, workers: Vec<Worker<L>>) -> Result<Vec<Seat<L>>, Stop> {
    let mut seats = Vec::new(alloc);
    for worker in workers {
        worker.ended?;
        seats.push(worker.seat)?;
    }
    Ok(seats)
}

/// Serves all jobs by as many threads as there are lanes. The blank has a part for each lane, and one more. Answers the trace
/// with its journal: one order of all steps, which the machine can follow.
///
/// # Errors
///
/// No memory, no seat, or what a thread came to. The trace is let go then.
pub(crate) fn serve_all<
    L: Ledger + Send + Sync,
    T: CarriesOut<Start: Send> + Send,
    R: AllocGlobal + rt::Clock + Threads + Wait + Copy + Drop + Sync,
>(rt: &R, blank: Blank, trace: T, sites: Sites, jobs: &[u64]) -> Result<Closed<T>, Stop>
    requires name { blank.name ≡ L.name }
    requires parts { (blank.parts ≡ L.parts) × (blank.parts ≡ 5) }
    requires ready { T.ready trace }
    ensures { IfOk result (λ closed. Replays (T.skeleton closed.trace) (T.copied closed.start) (plain_journal closed.journal.items)) }
{
    let Ok(shared) = Shared::<L, T>::new(rt.alloc(), blank, 5, trace) else {
        return Err(Stop::OutOfMemory);
    };
    let mut workers = workers_of(rt, &shared)?;
    let next = AtomicUsize::new(0);
    thread::for_each_mut(
        rt,
        workers.as_mut_slice(),
        THREADS,
        &|_, worker: &mut Worker<L>| {
            worker.ended = work(rt, &shared, &mut worker.seat, sites, &next, jobs);
        },
    );
    let seats = seats_of(rt.alloc(), workers)?;
    match shared.close(seats) {
        Ok(closed) => Ok(closed),
        Err(_) => Err(Stop::Torn),
    }
}
