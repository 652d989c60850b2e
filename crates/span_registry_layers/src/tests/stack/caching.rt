// A filter that counts how often it is asked: a stack that keeps a refusal asks nobody.
ghost use Rattle.std.specs.Prelude.{◌≡◌, nat_le};
ghost use Rattle.tracing_core.specs.Interests.{PlainInterest};
ghost use Rattle.span_registry_layers.specs.Combined.{level_fair, level_interest, same_word};
ghost use Rattle.span_registry_layers.specs.Firms.{level_firm};

use super::*;
use std::cell::Cell;

/// Passes callsites that are at most as verbose as a level, and all events there or none.
#[derive(Drop)]
struct Counting {
    level: LevelFilter,
    asked: Cell<u64>,
    hears: bool,
}

impl Counting {
    fn new(level: LevelFilter) -> Counting {
        Counting {
            level,
            asked: Cell::new(0),
            hears: true,
        }
    }
}

impl Filter for Counting {
    ghost use Rattle.std.specs.Prelude.{Some};
    ghost use Rattle.std.proofs.Common.{◌∙◌, sym};
    ghost use Rattle.span_registry_layers.specs.Combined.{level_fair, level_interest, same_word};

    ghost answers = { λ f m v b. b ≡ nat_le m.level f.level };

    ghost event_answers = { λ f e v b. b ≡ f.hears };

    ghost says = { λ f m k. k ≡ level_interest f.level m.level };

    ghost hint = { λ f. Some f.level };

    ghost fair = { λ f _. level_fair f.level };

    ghost stays = { λ f h _. (tt, same_word (λ m k. k ≡ level_interest f.level m.level) (Some f.level)) };

    ghost single = { λ f _. record { callsite = λ m v a b x y. x ∙ sym y; event = λ e v a b x y. x ∙ sym y } };

    ghost firm = { λ f _. level_firm f.level };

    fn enabled(&self, metadata: &Metadata<'_>, _context: &Context<'_>) -> bool {
        self.asked.set(self.asked.get().wrapping_add(1));
        self.level.passes(*metadata.level())
    }

    fn callsite_enabled(&self, metadata: &Metadata<'_>) -> Interest {
        if self.level.passes(*metadata.level()) {
            Interest::always()
        } else {
            Interest::never()
        }
    }

    fn event_enabled(&self, _event: &Event<'_, '_>, _context: &Context<'_>) -> bool {
        self.hears
    }

    fn max_level_hint(&self) -> Option<LevelFilter> {
        Some(self.level)
    }

    fn hear(&mut self, _call: &SpanCall<'_, '_, '_, '_>, _context: &Context<'_>) {}
}

/// A stack of one output with a filter that counts.
fn counting_stack(alloc: Global, level: LevelFilter) -> Result<Stack<Journaled<Counting>>, Fail> {
    let mut outputs = Vec::new(alloc);
    push_output(&mut outputs, 1, new_journal(alloc), Counting::new(level))?;
    Ok(Stack::new(alloc, outputs).ok().ok_or("a stack")?)
}

/// How often the filter was asked.
fn asked(stack: &Stack<Journaled<Counting>>) -> u64 {
    match stack.output(0) {
        None => 0,
        Some(output) => output.filter().asked.get(),
    }
}

#[test]
fn a_kept_hint_is_asked_in_the_place_of_filters(rt: HostRuntime) -> Result<(), Fail> {
    let mut stack = counting_stack(rt.alloc(), LevelFilter::INFO)?;
    tell(&mut stack, "app", Level::DEBUG)?;
    assert!(rt; asked(&stack) == 0 && make(&mut stack, "app", Level::TRACE)?.is_none());
    assert!(rt; asked(&stack) == 0);
    tell(&mut stack, "app", Level::INFO)?;
    assert!(rt; asked(&stack) == 1 && was_told(&stack, 0, &[(Notification::Happened, 0)]));
    Ok(())
}

#[test]
fn a_question_asks_each_output_once(rt: HostRuntime) -> Result<(), Fail> {
    let mut outputs = Vec::new(rt.alloc());
    for key in 1..4u32 {
        let filter = Counting::new(LevelFilter::INFO);
        push_output(&mut outputs, key, new_journal(rt.alloc()), filter)?;
    }
    let mut stack = Stack::new(rt.alloc(), outputs).ok().ok_or("a stack")?;
    assert!(rt; stack.enabled(&event_metadata("app", Level::INFO), PLACE));
    for output in 0..3 {
        let asked = stack
            .output(output)
            .ok_or("an output")?
            .filter()
            .asked
            .get();
        assert_eq!(rt; (asked, stack.passed(output)), (1, Some(true)));
    }
    assert!(rt; !stack.enabled(&event_metadata("app", Level::DEBUG), PLACE));
    assert!(rt; asked(&stack) == 1 && stack.passed(2) == Some(false));
    Ok(())
}

#[test]
fn a_kept_refusal_is_asked_in_the_place_of_filters(rt: HostRuntime) -> Result<(), Fail> {
    let mut stack = counting_stack(rt.alloc(), LevelFilter::INFO)?;
    let metadata = event_metadata("app", Level::DEBUG);
    assert!(rt; stack.register_callsite(&metadata).is_never() && asked(&stack) == 0);
    match stack.stack_mut(0) {
        None => {}
        Some(output) => output.filter_mut().level = LevelFilter::INFO,
    }
    // Nothing is kept of an output that was lent.
    tell(&mut stack, "app", Level::DEBUG)?;
    assert!(rt; asked(&stack) == 1);
    assert!(rt; stack.register_callsite(&metadata).is_never() && asked(&stack) == 1);
    tell(&mut stack, "app", Level::DEBUG)?;
    assert!(rt; asked(&stack) == 1);
    tell(&mut stack, "other", Level::DEBUG)?;
    assert!(rt; asked(&stack) == 2 && was_told(&stack, 0, &[]));
    let mut filter = Counting::new(LevelFilter::DEBUG);
    stack.swap_filter(0, &mut filter)?;
    tell(&mut stack, "app", Level::DEBUG)?;
    assert!(rt; asked(&stack) == 1 && was_told(&stack, 0, &[(Notification::Happened, 0)]));
    Ok(())
}

#[test]
fn an_event_that_its_filter_refuses_is_passed_and_not_told(rt: HostRuntime) -> Result<(), Fail> {
    let mut stack = counting_stack(rt.alloc(), LevelFilter::INFO)?;
    tell(&mut stack, "app", Level::INFO)?;
    assert!(rt; stack.passed(0) == Some(true) && stack.told(0) == Some(true));
    match stack.stack_mut(0) {
        None => {}
        Some(output) => output.filter_mut().hears = false,
    }
    tell(&mut stack, "app", Level::INFO)?;
    assert!(rt; stack.passed(0) == Some(true) && stack.told(0) == Some(false));
    assert!(rt; was_told(&stack, 0, &[(Notification::Happened, 0)]));
    assert!(rt; make(&mut stack, "app", Level::INFO)?.is_some() && stack.told(0) == Some(true));
    Ok(())
}

#[test]
fn an_asking_event_is_asked_of_filters_whatever_is_kept(rt: HostRuntime) -> Result<(), Fail> {
    let mut stack = counting_stack(rt.alloc(), LevelFilter::INFO)?;
    let metadata = event_metadata("app", Level::DEBUG);
    let event = Event::new(&metadata, no_values(&metadata));
    stack.event(&event, PLACE)?;
    assert!(rt; asked(&stack) == 0);
    stack.event_asking(&event, PLACE)?;
    assert!(rt; asked(&stack) == 1 && was_told(&stack, 0, &[]));
    let metadata = event_metadata("app", Level::INFO);
    stack.event_asking(&Event::new(&metadata, no_values(&metadata)), PLACE)?;
    assert!(rt; asked(&stack) == 2 && was_told(&stack, 0, &[(Notification::Happened, 0)]));
    Ok(())
}

#[test]
fn an_asking_span_and_probe_are_asked_of_filters(rt: HostRuntime) -> Result<(), Fail> {
    let mut stack = counting_stack(rt.alloc(), LevelFilter::INFO)?;
    let debug = metadata_at(8, "s", "app", Level::DEBUG, Kind::SPAN);
    assert!(rt; !stack.enabled_asking(&debug, PLACE) && asked(&stack) == 1);
    assert!(rt; stack.passed(0) == Some(false) && stack.told(0) == Some(false));
    let dropped = stack.new_span_asking(&Attributes::new(&debug, no_values(&debug)), PLACE)?;
    assert!(rt; dropped.is_none() && asked(&stack) == 2);
    let info = metadata_at(8, "s", "app", Level::INFO, Kind::SPAN);
    let made = stack.new_span_asking(&Attributes::new(&info, no_values(&info)), PLACE)?;
    assert!(rt; made.is_some() && was_told(&stack, 0, &[(Notification::Made, 1)]));
    Ok(())
}
