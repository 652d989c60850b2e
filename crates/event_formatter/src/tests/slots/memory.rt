use super::*;
use crate::tests::memory::Starved;
use event_formatter_lines::timings_at_start;

// Keeps a first list with styles and timings, for which there is no memory.
fn keep_starved(alloc: Global, registry: &mut Registry, span: &Id, starts: bool) -> FirstText {
    let set = FieldSet::new(&NAMES, Identifier(1));
    let values = set.value_set_all(&ONE);
    let timings = Some(timings_at_start(1, 0));
    let mut context = Context::new(registry, at(1, 0), None);
    let formatter = Starved { starts };
    keep_new(
        alloc,
        &mut context,
        span,
        KEY,
        STYLED,
        &formatter,
        &values,
        timings,
    )
}

// Adds a record without styles.
fn add<F: FormatFields>(alloc: Global, registry: &mut Registry, span: &Id, formatter: &F) -> bool {
    let set = FieldSet::new(&NAMES, Identifier(1));
    let values = set.value_set_all(&NO);
    let mut context = Context::new(registry, at(2, 0), None);
    add_record(alloc, &mut context, span, KEY, PLAIN, formatter, &values)
}

// How long the span was idle at its close.
fn idle(registry: &mut Registry, span: &Id) -> Option<u128> {
    let mut context = Context::new(registry, at(3, 0), None);
    match step_timings(&mut context, span, KEY, TimingStep::Close) {
        None => None,
        Some(timings) => Some(timings.idle),
    }
}

#[test]
fn a_first_text_without_memory_is_missed_alone(rt: HostRuntime) -> Result<(), Fail> {
    let (mut registry, span) = one_span(rt.alloc())?;
    let first = keep_starved(rt.alloc(), &mut registry, &span, true);
    assert!(rt; first == FirstText::Started && !first.is_whole());
    assert_eq!(rt; kept_text(&registry.span(&span).ok_or("a span")?, KEY), "");
    assert!(rt; add(rt.alloc(), &mut registry, &span, &DefaultFields));
    assert_eq!(rt;
        kept_text(&registry.span(&span).ok_or("a span")?, KEY),
        "\u{1b}[3md\u{1b}[0m\u{1b}[2m=\u{1b}[0mfalse"
    );
    assert!(rt; idle(&mut registry, &span) == Some(2_000_000_000));
    Ok(())
}

#[test]
fn a_record_begins_the_text_where_nothing_is_kept(rt: HostRuntime) -> Result<(), Fail> {
    let (mut registry, span) = one_span(rt.alloc())?;
    let first = keep_starved(rt.alloc(), &mut registry, &span, false);
    assert!(rt; first == FirstText::Nothing && !first.is_whole());
    let starved = Starved { starts: true };
    assert!(rt; !add(rt.alloc(), &mut registry, &span, &starved));
    assert_eq!(rt; kept_text(&registry.span(&span).ok_or("a span")?, KEY), "");
    assert!(rt; add(rt.alloc(), &mut registry, &span, &JsonFields));
    assert_eq!(rt;
        kept_text(&registry.span(&span).ok_or("a span")?, KEY),
        "{\"d\":false}"
    );
    assert!(rt; idle(&mut registry, &span).is_none());
    Ok(())
}
