//! A lane that reaches a stack of its own for a while.

ghost use Rattle.std.specs.Prelude.{◌≡◌, ℕ, ◌∷◌, [], IfOk};
ghost use Rattle.span_tracing.specs.Ready.{FileRunGives};
ghost use Rattle.span_tracing.specs.StepRuns.{Caching};
ghost use Rattle.span_tracing.specs.StepFollows.{TraceIsReady};
ghost use Rattle.span_tracing.specs.Reply.{Reply};
ghost use Rattle.span_tracing.specs.Reply.TheVariants.{Guard};
ghost use Rattle.uses.specs.Programs.{apart_steps};

use crate::program::{MemoryTrace, message};
use span_registry_layers::Filter;
use span_tracing::{FileStack, Folder, Lines, MemoryFolder, Moment, Parent, Refusal, Reply};
use tracing_core::{Identifier, LevelFilter, Subscriber};

/// Logs a text on a lane that reaches the stack with this handle meanwhile, and then what it reached before. Answers the reply to the
/// event.
///
/// # Errors
///
/// Why the lane didn't get its default. Then nothing was done.
pub fn log_apart(
    trace: &mut MemoryTrace,
    lane: usize,
    handle: usize,
    moment: Moment,
    callsite: Identifier,
    text: &str,
) -> Result<Reply, Refusal>
    ensures run { IfOk result (λ reply. (guard : ℕ) × (back : Reply) ×
        FileRunGives ⟦<MemoryFolder as Folder>⟧.contents ⟦<MemoryFolder as Folder>⟧.failed
        ⟦<FileStack<LevelFilter, MemoryFolder> as Subscriber>⟧ Caching trace.old (apart_steps lane handle guard moment callsite.0 text.now) (Guard guard ∷ reply ∷ back ∷ []) trace.new) }
    ensures ready { TraceIsReady ⟦<LevelFilter as Filter>⟧ ⟦<Lines as span_registry_layers::Layer>⟧ trace.old →
        TraceIsReady ⟦<LevelFilter as Filter>⟧ ⟦<Lines as span_registry_layers::Layer>⟧ trace.new }
{
    let guard = match trace.set_default(lane, Some(handle)) {
        Reply::Guard(guard) => guard,
        Reply::Refused(refusal) => return Err(refusal),
        _ => return Err(Refusal::UnknownStack),
    };
    let reply = trace.event(lane, moment, callsite, Parent::Contextual, &[message(text)]);
    let _back = trace.reset_default(lane, guard);
    Ok(reply)
}
