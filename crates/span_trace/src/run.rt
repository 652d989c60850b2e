//! The steps of a script, run on a trace.

use crate::lines::{CallsiteLine, NamedValue, RecordLine, StepLine, SwapLine};
use crate::stack::LeveledStack;
use span_tracing::{FieldValue, Folder, RecordCall, Refusal, Reply, SpanName, Step, Trace};
use span_tracing_skeleton::{HasOutputs, HasRegistry, HasSinks};
use std::alloc::{AllocError, Global};
use tracing_core::{LevelFilter, Subscriber};

/// The replies so far, and which callsite each span is of.
#[derive(Debug, Drop)]
struct Replies {
    replies: Vec<Reply>,
    /// By stack the callsites of the spans that were made. A stack gives ids in order from 1, so that of its
    /// span N stands at place N - 1.
    sites: Vec<Vec<u64>>,
}

impl Replies {
    /// No reply yet, over so many stacks.
    fn new(alloc: Global, stacks: usize) -> Result<Replies, AllocError> {
        let mut told = Replies {
            replies: Vec::new(alloc),
            sites: Vec::new(alloc),
        };
        for _ in 0..stacks {
            told.sites.push(Vec::new(alloc))?;
        }
        Ok(told)
    }

    /// Runs the steps, which are then done.
    fn run<D: Folder>(
        &mut self,
        trace: &mut Trace<LeveledStack<D>>,
        steps: &mut Vec<Step>,
    ) -> Result<(), AllocError> {
        let replies = trace.run(steps.as_slice())?;
        for (step, reply) in steps.iter().zip(replies.iter()) {
            if let (Step::NewSpan(span), Reply::Span(Some(name))) = (step, reply)
                && let Some(sites) = self.sites.get_mut(name.stack)
            {
                sites.push(span.callsite.0)?;
            }
        }
        self.replies.extend_from_slice(replies.as_slice())?;
        steps.clear();
        Ok(())
    }

    /// The callsite of a span that was made.
    fn site_of(&self, span: Option<SpanName>) -> Option<u64> {
        let name = span?;
        let place = name.id.get().checked_sub(1)? as usize;
        self.sites.get(name.stack)?.get(place).copied()
    }
}

/// Runs the steps in order. Before a record those so far are run, since their replies tell the callsite of its span, and so before a swap,
/// which is no step of a run.
pub(crate) fn run_steps<D: Folder>(
    alloc: Global,
    trace: &mut Trace<LeveledStack<D>>,
    callsites: &[CallsiteLine],
    shelf: &mut [LevelFilter],
    lines: Vec<StepLine>,
) -> Result<Vec<Reply>, AllocError> {
    let mut told = Replies::new(alloc, trace.stack_count())?;
    let mut steps = Vec::new(alloc);
    for line in lines {
        match line {
            StepLine::Whole(step) => steps.push(step)?,
            StepLine::Record(record) => {
                told.run(trace, &mut steps)?;
                let callsite = callsite_of(callsites, told.site_of(record.span));
                steps.push(Step::Record(record_call(alloc, callsite, record)?))?;
            }
            StepLine::Swap(swap) => {
                told.run(trace, &mut steps)?;
                told.replies.push(swapped(trace, shelf, swap))?;
            }
        }
    }
    told.run(trace, &mut steps)?;
    Ok(told.replies)
}

/// Lets the filter of an output and one of the shelf change places.
fn swapped<D: Folder>(
    trace: &mut Trace<LeveledStack<D>>,
    shelf: &mut [LevelFilter],
    swap: SwapLine,
) -> Reply {
    match shelf.get_mut(swap.shelf) {
        Some(filter) => trace.swap_filter(swap.output, filter),
        None => Reply::Refused(swap_refusal(trace, swap.output)),
    }
}

/// Why a filter that the shelf lacks isn't swapped with that of an output.
fn swap_refusal<T: Subscriber + HasRegistry + HasOutputs + HasSinks>(
    trace: &Trace<T>,
    output: usize,
) -> Refusal {
    if trace.is_busy() {
        return Refusal::Busy;
    }
    let refusal = trace.output_refusal(output);
    refusal.unwrap_or(Refusal::UnknownShelf)
}

/// The first callsite of that id.
fn callsite_of(callsites: &[CallsiteLine], id: Option<u64>) -> Option<&CallsiteLine> {
    let id = id?;
    callsites.iter().find(|line| line.id == id)
}

fn record_call(
    alloc: Global,
    callsite: Option<&CallsiteLine>,
    record: RecordLine,
) -> Result<RecordCall, AllocError> {
    let RecordLine {
        lane,
        moment,
        span,
        values,
    } = record;
    Ok(RecordCall {
        lane,
        moment,
        span,
        values: values_at(alloc, callsite, values)?,
    })
}

/// The values of the callsite's fields. One whose field the callsite lacks is passed over, and so are all
/// where there is no callsite: such a record is refused, or is on no span.
fn values_at(
    alloc: Global,
    callsite: Option<&CallsiteLine>,
    values: Vec<NamedValue>,
) -> Result<Vec<FieldValue>, AllocError> {
    let mut placed = Vec::new(alloc);
    let Some(callsite) = callsite else {
        return Ok(placed);
    };
    for named in values {
        let NamedValue { name, value } = named;
        if let Some(field) = callsite.field_index(name.as_str()) {
            placed.push(FieldValue { field, value })?;
        }
    }
    Ok(placed)
}
