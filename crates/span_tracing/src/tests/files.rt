//! Outputs that are refused, in the order in which refusals are told, and outputs whose files are opened.

use crate::tests::common::{MONDAY, TOO_EARLY};
use event_formatter::Fields;
use event_formatter_text::Route;
use span_registry_layers_store::OutputKey;
use span_tracing_outputs::{
    FileStack, LineSettings, OpenStackError, OutputSpec, SinkSpec, open_stack,
};
use span_tracing_skeleton::Refusal;
use std::alloc::Global;
use std::test::Fail;
use tracing_appender_rolling::{Builder, FaultyFolder, MemoryFolder, Rotation};
use tracing_core_fields::LevelFilter;
use tracing_core_moments::Moment;

type Outputs = Vec<OutputSpec<LevelFilter, MemoryFolder>>;

fn sinks_of(alloc: Global, prefixes: &[&str]) -> Result<Vec<SinkSpec<MemoryFolder>>, Fail> {
    let mut sinks = Vec::new(alloc);
    for prefix in prefixes {
        let builder = Builder::new(alloc)
            .rotation(Rotation::DAILY)
            .filename_prefix(prefix);
        let sink = SinkSpec::Direct(builder, MemoryFolder::new(alloc));
        sinks.push(sink).ok().ok_or("room")?;
    }
    Ok(sinks)
}

/// An output with one sink.
fn output_of(
    alloc: Global,
    key: u32,
    prefix: &str,
) -> Result<OutputSpec<LevelFilter, MemoryFolder>, Fail> {
    let sinks = sinks_of(alloc, &[prefix])?;
    let lines = LineSettings::full();
    let made = OutputSpec::new(
        OutputKey(key),
        LevelFilter::INFO,
        lines,
        Route::Sink(0),
        sinks,
    );
    Ok(made.map_err(|refused| refused.error)?)
}

fn outputs_of(alloc: Global, told: &[(u32, &str)]) -> Result<Outputs, Fail> {
    let mut outputs = Vec::new(alloc);
    for (key, prefix) in told {
        let output = output_of(alloc, *key, prefix)?;
        outputs.push(output).ok().ok_or("room")?;
    }
    Ok(outputs)
}

fn refusal_of(alloc: Global, outputs: Outputs, moment: Moment) -> Option<Refusal> {
    let refused = open_stack(alloc, outputs, moment).err();
    refused.map(|refused| refused.refusal)
}

#[test]
fn an_earlier_refusal_is_told_first(rt: HostRuntime) -> Result<(), Fail> {
    let alloc = rt.alloc();
    let none = outputs_of(alloc, &[])?;
    assert_eq!(rt;
        refusal_of(alloc, none, TOO_EARLY),
        Some(Refusal::BadMoment)
    );
    let none = outputs_of(alloc, &[])?;
    assert_eq!(rt; refusal_of(alloc, none, MONDAY), Some(Refusal::NoOutput));
    let equal = outputs_of(alloc, &[(7, "a/b"), (7, "app")])?;
    assert_eq!(rt; refusal_of(alloc, equal, MONDAY), Some(Refusal::EqualKeys));
    let named = outputs_of(alloc, &[(7, "app"), (8, "a/b")])?;
    assert_eq!(rt; refusal_of(alloc, named, MONDAY), Some(Refusal::BadName));
    let mut many = Vec::new(alloc);
    for _ in 0..65 {
        many.push(output_of(alloc, 7, "a/b")?).ok().ok_or("room")?;
    }
    assert_eq!(rt;
        refusal_of(alloc, many, MONDAY),
        Some(Refusal::TooManyFilters)
    );
    Ok(())
}

/// The first sink's folder would refuse to open a file: its opening is call 1, and the second one, after the directories, call 3.
#[test]
fn names_are_looked_at_before_folders(rt: HostRuntime) -> Result<(), Fail> {
    let alloc = rt.alloc();
    let mut sinks: Vec<SinkSpec<FaultyFolder>> = Vec::new(alloc);
    for (prefix, refused) in [("a", [1, 3]), ("a/b", [0, 0])] {
        let builder = Builder::new(alloc).filename_prefix(prefix);
        let refused = Vec::from_slice(alloc, &refused)?;
        let folder = FaultyFolder::new(MemoryFolder::new(alloc), refused);
        sinks
            .push(SinkSpec::Direct(builder, folder))
            .ok()
            .ok_or("room")?;
    }
    let both = Route::Tee(
        Box::new(alloc, Route::Sink(0))?,
        Box::new(alloc, Route::Sink(1))?,
    );
    let lines = LineSettings::full();
    let spec = OutputSpec::new(OutputKey(1), LevelFilter::INFO, lines, both, sinks).map_err(
        |refused| refused.error,
    )?;
    let mut outputs = Vec::new(alloc);
    outputs.push(spec).ok().ok_or("room")?;
    let refused = open_stack(alloc, outputs, MONDAY).err().ok_or("a refusal")?;
    assert_eq!(rt; refused.refusal, Refusal::BadName);
    assert_eq!(rt; refused.output, Some(OutputKey(1)));
    Ok(())
}

#[test]
fn an_output_that_cannot_be_gives_all_back(rt: HostRuntime) -> Result<(), Fail> {
    let alloc = rt.alloc();
    let key = OutputKey(1);
    let text = LineSettings {
        fields: Fields::Default,
        ..LineSettings::json()
    };
    let sinks = sinks_of(alloc, &["a", "b"])?;
    let Err(back) = OutputSpec::new(key, LevelFilter::INFO, text, Route::Sink(2), sinks) else {
        return Err("there is no third sink".into());
    };
    assert_eq!(rt; back.error, Refusal::BadRoute);
    assert_eq!(rt; back.sinks.len(), 2);
    let again = OutputSpec::new(key, back.filter, back.lines, Route::Sink(1), back.sinks);
    let Err(back) = again else {
        return Err("fields are no JSON".into());
    };
    assert_eq!(rt; back.error, Refusal::JsonFieldsNeeded);
    let json = LineSettings::json();
    assert!(rt; OutputSpec::new(key, back.filter, json, back.route, back.sinks).is_ok());
    Ok(())
}

fn has_file(
    stack: &FileStack<LevelFilter, MemoryFolder>,
    output: usize,
    sink: usize,
    name: &str,
) -> Result<bool, Fail> {
    let routed = stack.sinks().get(output).ok_or("an output")?;
    let sink = routed.sinks().get(sink).ok_or("a sink")?;
    let files = sink.appender().ok_or("a folder")?.folder().files()?;
    Ok(files.len() == 1 && files.iter().any(|file| file.name == name))
}

#[test]
fn all_files_are_opened(rt: HostRuntime) -> Result<(), Fail> {
    let alloc = rt.alloc();
    let both = Route::Tee(
        Box::new(alloc, Route::Sink(0))?,
        Box::new(alloc, Route::Sink(1))?,
    );
    let sinks = sinks_of(alloc, &["a", "b"])?;
    let lines = LineSettings::pretty();
    let two = OutputSpec::new(OutputKey(1), LevelFilter::INFO, lines, both, sinks).map_err(
        |refused| refused.error,
    )?;
    let mut outputs = outputs_of(alloc, &[(0, "app")])?;
    outputs.push(two).ok().ok_or("room")?;
    let stack = open_stack(alloc, outputs, MONDAY)?;
    assert_eq!(rt; stack.sinks().len(), 2);
    assert!(rt; has_file(&stack, 0, 0, "app.2025-02-17")?);
    assert!(rt; has_file(&stack, 1, 0, "a.2025-02-17")?);
    assert!(rt; has_file(&stack, 1, 1, "b.2025-02-17")?);
    Ok(())
}

/// A stack of one output, in an empty folder that refuses the calls with these numbers.
fn one_file(
    alloc: Global,
    lines: LineSettings,
    refused: &[u64],
) -> Result<FileStack<LevelFilter, FaultyFolder>, OpenStackError> {
    let files = Builder::new(alloc)
        .rotation(Rotation::DAILY)
        .filename_prefix("app");
    let refused = Vec::from_slice(alloc, refused)?;
    let folder = FaultyFolder::new(MemoryFolder::new(alloc), refused);
    let mut outputs = Vec::new(alloc);
    let (key, level) = (OutputKey(1), LevelFilter::INFO);
    outputs.push(OutputSpec::file(alloc, key, level, lines, files, folder)?)?;
    open_stack(alloc, outputs, MONDAY)
}

#[test]
fn an_output_with_one_file_is_set_up_by_question_marks(rt: HostRuntime) -> Result<(), Fail> {
    let alloc = rt.alloc();
    let stack = one_file(alloc, LineSettings::json(), &[])?;
    let routed = stack.sinks().first().ok_or("an output")?;
    assert_eq!(rt; routed.sinks().len(), 1);
    let sink = routed.sinks().first().ok_or("a sink")?;
    let files = sink.appender().ok_or("a folder")?.folder().inner().files()?;
    assert_eq!(rt; files.first().ok_or("a file")?.name, "app.2025-02-17");
    Ok(())
}

/// The opening is call 1, the directories are call 2, and the second opening is call 3.
#[test]
fn what_is_not_opened_has_a_text(rt: HostRuntime) -> Result<(), Fail> {
    let alloc = rt.alloc();
    let text = LineSettings {
        fields: Fields::Default,
        ..LineSettings::json()
    };
    for (lines, refused, told) in [
        (
            LineSettings::full(),
            [1, 2],
            "output 1: a folder refused to open a file: failed to create log directory: refused",
        ),
        (
            LineSettings::full(),
            [1, 3],
            "output 1: a folder refused to open a file: failed to create log file: refused",
        ),
        (
            text,
            [0, 0],
            "output 1: a line of JSON needs fields in JSON",
        ),
    ] {
        let error = one_file(alloc, lines, &refused).err().ok_or("a refusal")?;
        assert_eq!(rt; format!(in alloc; "{error}")?.as_str(), told);
    }
    let none: Vec<OutputSpec<LevelFilter, MemoryFolder>> = Vec::new(alloc);
    let error = open_stack(alloc, none, MONDAY).err().ok_or("a refusal")?;
    assert_eq!(rt; error.output, None);
    let text = format!(in alloc; "{error}")?;
    assert_eq!(rt; text, format!(in alloc; "{}", error.refusal)?);
    Ok(())
}
