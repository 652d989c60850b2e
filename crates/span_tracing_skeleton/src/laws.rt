//! Laws of skeletons.
ghost use Rattle.span_tracing_skeleton.specs.Counting.{StaysCounted};

/// Each stack is held by as many as it counts: in a new skeleton, after each callsite, lane and stack that is added, and after each step.
/// So exactly those stacks are held that a handle, a lane's own default, a guard or the global default leads to, and what a lane reaches
/// is never released.
pub fn stays_counted()
    ensures { StaysCounted }
{}
