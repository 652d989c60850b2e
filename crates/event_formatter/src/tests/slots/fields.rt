use super::*;
use event_formatter_text::Settings;
use std::process::Abort;

// One span, and the registry that its texts are kept in.
#[derive(Drop)]
struct Kept {
    alloc: Global,
    registry: Registry,
    span: Id,
}

impl Kept {
    fn new(alloc: Global) -> Result<Kept, Fail> {
        let (registry, span) = one_span(alloc)?;
        Ok(Kept {
            alloc,
            registry,
            span,
        })
    }

    // Keeps a first list of values under a key, without timings.
    fn keep<F: FormatFields>(
        &mut self,
        key: OutputKey,
        settings: Settings,
        formatter: &F,
        values: &[Option<AnyValue<'_>>],
    ) -> bool {
        let set = FieldSet::new(&NAMES, Identifier(1));
        let mut context = Context::new(&mut self.registry, at(0, 0), None);
        let values = set.value_set_all(values);
        let first = keep_new(
            self.alloc,
            &mut context,
            &self.span,
            key,
            settings,
            formatter,
            &values,
            None,
        );
        first.is_whole()
    }

    // Adds a record to what is kept.
    fn add<F: FormatFields>(
        &mut self,
        key: OutputKey,
        formatter: &F,
        values: &[Option<AnyValue<'_>>],
    ) -> bool {
        let set = FieldSet::new(&NAMES, Identifier(1));
        let mut context = Context::new(&mut self.registry, at(0, 0), None);
        let values = set.value_set_all(values);
        add_record(
            self.alloc,
            &mut context,
            &self.span,
            key,
            PLAIN,
            formatter,
            &values,
        )
    }

    // These texts are kept under the two keys.
    fn has_texts(&self, rt: &impl Abort, text: &str, other: &str) -> Result<(), Fail> {
        let kept = self.registry.span(&self.span).ok_or("a span")?;
        assert_eq!(rt; kept_text(&kept, KEY), text);
        assert_eq!(rt; kept_text(&kept, OTHER), other);
        Ok(())
    }
}

#[test]
fn records_add_to_the_text(rt: HostRuntime) -> Result<(), Fail> {
    let mut kept = Kept::new(rt.alloc())?;
    assert!(rt; kept.keep(KEY, PLAIN, &DefaultFields, &ONE));
    assert!(rt; kept.add(KEY, &DefaultFields, &FAILS));
    assert!(rt; kept.add(KEY, &DefaultFields, &NO));
    kept.has_texts(&rt, "n=1 d=false", "")
}

#[test]
fn words_are_kept_with_the_text(rt: HostRuntime) -> Result<(), Fail> {
    let mut kept = Kept::new(rt.alloc())?;
    assert!(rt; kept.keep(KEY, PLAIN, &DefaultFields, &NO));
    assert!(rt; kept.keep(OTHER, PLAIN, &JsonFields, &ONE));
    assert!(rt; kept.add(OTHER, &JsonFields, &NO));
    assert!(rt; kept.add(OTHER, &JsonFields, &FAILS));
    kept.has_texts(&rt, "d=false", "{\"d\":false,\"n\":1}")
}

#[test]
fn settings_are_kept_with_the_text(rt: HostRuntime) -> Result<(), Fail> {
    let mut kept = Kept::new(rt.alloc())?;
    assert!(rt; kept.keep(KEY, STYLED, &DefaultFields, &ONE));
    assert!(rt; kept.add(KEY, &DefaultFields, &NO));
    let text =
        "\u{1b}[3mn\u{1b}[0m\u{1b}[2m=\u{1b}[0m1 \u{1b}[3md\u{1b}[0m\u{1b}[2m=\u{1b}[0mfalse";
    kept.has_texts(&rt, text, "")
}

#[test]
fn a_failing_first_list_leaves_the_start(rt: HostRuntime) -> Result<(), Fail> {
    let mut kept = Kept::new(rt.alloc())?;
    assert!(rt; kept.keep(KEY, PLAIN, &DefaultFields, &FAILS));
    assert!(rt; kept.keep(OTHER, PLAIN, &JsonFields, &FAILS));
    kept.has_texts(&rt, "", "{}")
}

#[test]
fn a_text_alone_is_added_to(rt: HostRuntime) -> Result<(), Fail> {
    let mut kept = Kept::new(rt.alloc())?;
    let text = Slot::Text("given".to_string(rt.alloc())?);
    let span = kept.span;
    assert!(rt;
        kept.registry
            .insert_slot(&span, KEY, Tag::Text, text)
            .is_ok()
    );
    assert!(rt; kept.add(KEY, &DefaultFields, &ONE));
    assert!(rt; kept.add(OTHER, &DefaultFields, &ONE));
    kept.has_texts(&rt, "given n=1", "n=1")
}

#[test]
fn nothing_is_kept_of_a_span_that_is_not_seen(rt: HostRuntime) -> Result<(), Fail> {
    let (mut registry, span, filter) = refused_span(rt.alloc())?;
    let set = FieldSet::new(&NAMES, Identifier(1));
    let values = set.value_set_all(&ONE);
    let mut context = Context::new(&mut registry, at(0, 0), Some(filter));
    let kept = keep_new(
        rt.alloc(),
        &mut context,
        &span,
        KEY,
        PLAIN,
        &DefaultFields,
        &values,
        None,
    );
    assert!(rt; kept.is_whole());
    assert_eq!(rt; kept_text(&registry.span(&span).ok_or("a span")?, KEY), "");
    Ok(())
}
