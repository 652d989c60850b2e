// What a layer reads in its hooks.
use super::recording::{Notification, Observer, Observing};
use super::*;
use crate::{Filtered, Output, OutputKey, Stack};
use tracing_core::LevelFilter;

/// Keeps, at each entry, the spans from the root to the one that is entered, and a 0 behind them.
#[derive(Drop)]
struct Paths {
    alloc: Global,
    ids: Vec<u64>,
}

impl Observer for Paths {
    fn settle(&mut self, _notice: Notification) {}

    fn observe(&mut self, notice: Notification, span: Option<&Id>, context: &mut Context<'_>) {
        if notice != Notification::Entered {
            return;
        }
        let Some(span) = span else {
            return;
        };
        let Some(scope) = context.span_scope(span) else {
            return;
        };
        let Ok(spans) = scope.from_root(self.alloc) else {
            return;
        };
        for span in spans {
            let _room = self.ids.push(span.id().into_u64());
        }
        let _room = self.ids.push(0);
    }
}

type PathOutput = Filtered<Observing<Paths>, LevelFilter>;

/// Two outputs that pass INFO and DEBUG.
fn paths_of(alloc: Global) -> Result<Stack<PathOutput>, Fail> {
    let mut outputs = Vec::new(alloc);
    let mut key = 0;
    for level in [LevelFilter::INFO, LevelFilter::DEBUG] {
        let paths = Paths {
            alloc,
            ids: Vec::new(alloc),
        };
        outputs
            .push(Output {
                key: OutputKey(key),
                output: Filtered::new(Observing { observer: paths }, level),
            })
            .ok()
            .ok_or("room")?;
        key = 1;
    }
    Ok(Stack::new(alloc, outputs).ok().ok_or("a stack")?)
}

/// Makes a span of this level under the current one, and enters it.
fn enter(stack: &mut Stack<PathOutput>, level: Level) -> Result<Id, Fail> {
    let span = make_in(stack, level)?.ok_or("a span")?;
    stack.enter(&span, PLACE)?;
    Ok(span)
}

/// Whether an output's layer kept these.
fn has_kept(stack: &Stack<PathOutput>, output: usize, ids: &[u64]) -> bool {
    match stack.output(output) {
        None => false,
        Some(output) => output.inner().observer.ids.as_slice() == ids,
    }
}

#[test]
fn surface_scopes_in_hooks(rt: HostRuntime) -> Result<(), Fail> {
    let mut stack = paths_of(rt.alloc())?;
    let outer = enter(&mut stack, Level::INFO)?.into_u64();
    let middle = enter(&mut stack, Level::DEBUG)?.into_u64();
    let inner = enter(&mut stack, Level::WARN)?.into_u64();
    assert!(rt; has_kept(&stack, 0, &[outer, 0, outer, inner, 0]));
    assert!(rt;
        has_kept(
            &stack,
            1,
            &[outer, 0, outer, middle, 0, outer, middle, inner, 0]
        )
    );
    Ok(())
}
