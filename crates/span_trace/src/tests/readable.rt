//! Inputs that are readable, in their less common forms.

use crate::tests::{
    DEFAULT, ENTER, EVENT, HAPPENED, LANE, NEW_SPAN, OUTER, STACK, Want, expect_run, joined,
    script_of,
};
use std::test::Fail;

/// What may replace a part of a setup line.
const STACK_FORMS: [(&str, &str, &str); 15] = [
    (r#""filter":"info""#, r#""filter":"TRACE""#, "hi"),
    (r#""filter":"info""#, r#""filter":"+3""#, "hi"),
    (r#""filter":"info""#, r#""filter":"5""#, "hi"),
    (r#""filter":"info""#, r#""filter":"oFf""#, ""),
    (r#""filter":"info""#, r#""filter":"0""#, ""),
    (r#""filter":"info""#, r#""filter":"""#, ""),
    (r#""filter":"info""#, r#""filter":"warn""#, ""),
    (r#""key":0"#, r#""key":4294967295"#, "hi"),
    (
        r#""rotation":"daily","prefix":"my_prefix""#,
        r#""prefix":"my_prefix","rotation":"daily""#,
        "hi",
    ),
    (
        r#""moment":[1739786460,0]"#,
        r#""moment":[1739786460,999999999]"#,
        "hi",
    ),
    (r#""key":0"#, r#""key":7.5,"key":0"#, "hi"),
    (r#"{"do":"stack","#, "\t {\r\"do\" :\"st\\u0061ck\", ", "hi"),
    (
        r#""format":"full""#,
        r#""format":"json","format":"full""#,
        "hi",
    ),
    (
        r#""show_level":false"#,
        r#""span_events":[],"show_level":false"#,
        "hi",
    ),
    ("}]}]}", "}]}]} \t\r", "hi"),
];

#[test]
fn forms_of_a_stack(rt: HostRuntime) -> Result<(), Fail> {
    let alloc = rt.alloc();
    for (old, new, shown) in &STACK_FORMS {
        let stack = STACK.replace(alloc, *old, new)?;
        assert!(rt; stack.as_str() != STACK, "no change by {new}");
        let input = joined(
            alloc,
            &[
                stack.as_str(),
                LANE,
                OUTER,
                HAPPENED,
                DEFAULT,
                NEW_SPAN,
                ENTER,
                EVENT,
            ],
        )?;
        let (span, enter, text) = if shown.is_empty() {
            ("null", r#"{"refused":4}"#, "")
        } else {
            (
                "[0,1]",
                r#""done""#,
                r"fake time outer{x=42}: app: hi n=3\n",
            )
        };
        let output = format!(in alloc;
            "{{\"reply\":\"done\",\"step\":1}}\n{{\"reply\":{{\"span\":{span}}},\"step\":2}}\n{{\"reply\":{enter},\"step\":3}}\n{{\"reply\":\"done\",\"step\":4}}\n{{\"file\":\"my_prefix.2025-02-17.log\",\"folder\":\"A\",\"text\":\"{text}\"}}\n"
        )?;
        let want = Want {
            status: u8::from(shown.is_empty()),
            output: output.as_str(),
            errors: "",
        };
        expect_run(&rt, input.as_bytes(), want, new)?;
    }
    Ok(())
}

/// What may replace a part of the stack's line, the name of the file, and its text.
const NAMES: [(&str, &str, &str, &str); 5] = [
    (
        r#","prefix":"my_prefix""#,
        "",
        "2025-02-17.log",
        "fake time app: hi n=3",
    ),
    (
        r#","suffix":"log""#,
        "",
        "my_prefix.2025-02-17",
        "fake time app: hi n=3",
    ),
    (
        r#","prefix":"my_prefix","suffix":"log""#,
        "",
        "2025-02-17",
        "fake time app: hi n=3",
    ),
    (
        r#""time":"fake time""#,
        r#""time":null"#,
        "my_prefix.2025-02-17.log",
        "app: hi n=3",
    ),
    (
        r#""time":"fake time""#,
        r#""time":"""#,
        "my_prefix.2025-02-17.log",
        " app: hi n=3",
    ),
];

#[test]
fn names_and_times(rt: HostRuntime) -> Result<(), Fail> {
    let alloc = rt.alloc();
    for (old, new, name, text) in &NAMES {
        let stack = STACK.replace(alloc, *old, new)?;
        let input = joined(alloc, &[stack.as_str(), LANE, HAPPENED, DEFAULT, EVENT])?;
        let output = format!(in alloc;
            "{{\"reply\":\"done\",\"step\":1}}\n{{\"reply\":\"done\",\"step\":2}}\n{{\"file\":\"{name}\",\"folder\":\"A\",\"text\":\"{text}\\n\"}}\n"
        )?;
        let want = Want {
            status: 0,
            output: output.as_str(),
            errors: "",
        };
        expect_run(&rt, input.as_bytes(), want, name)?;
    }
    Ok(())
}

/// Setup lines that are all fine together.
const SETUP: [&str; 9] = [
    OUTER,
    OUTER,
    r#"{"do":"lane","thread":0}"#,
    r#"{"do":"lane","thread":18446744073709551615,"name":"main"}"#,
    r#"{"do":"lane","thread":1.5,"thread":1,"name":""}"#,
    r#"{"do":"callsite","id":0,"kind":"event","name":"","target":"","level":"wArN","fields":[]}"#,
    r#"{"do":"callsite","id":18446744073709551615,"kind":"event","name":"a","target":"b","level":"+2","fields":["x","x"],"file":"src/a.rs","line":4294967295}"#,
    r#"{"do":"callsite","id":5,"kind":"span","name":"c","target":"d","level":"5","fields":["message"],"file":""}"#,
    r#"{"do":"callsite","id":6,"kind":"span","name":"c","target":"d","level":"error","fields":[],"line":0}"#,
];

/// Setup alone, and the same with other ends of lines.
#[test]
fn setup_and_ends_of_lines(rt: HostRuntime) -> Result<(), Fail> {
    let alloc = rt.alloc();
    let none = Want {
        status: 0,
        output: "",
        errors: "",
    };
    expect_run(&rt, b"", none, "nothing")?;
    let input = joined(alloc, &SETUP)?;
    expect_run(&rt, input.as_bytes(), none, "setup")?;
    expect_run(&rt, input.trim_end().as_bytes(), none, "no last newline")?;
    let marked = input.replace(alloc, "\n", "\r\n")?;
    expect_run(&rt, marked.as_bytes(), none, "carriage returns")
}

/// Two days, and a day that comes again.
#[test]
fn files_by_day(rt: HostRuntime) -> Result<(), Fail> {
    let alloc = rt.alloc();
    let late = EVENT.replace(alloc, "1739786460", "1739836799")?;
    let next = EVENT.replace(alloc, "1739786460", "1739836800")?;
    let input = script_of(alloc, &[DEFAULT, late.as_str(), next.as_str(), EVENT])?;
    let want = Want {
        status: 0,
        output: r#"{"reply":"done","step":1}
{"reply":"done","step":2}
{"reply":"done","step":3}
{"reply":"done","step":4}
{"file":"my_prefix.2025-02-17.log","folder":"A","text":"fake time app: hi n=3\n"}
{"file":"my_prefix.2025-02-18.log","folder":"A","text":"fake time app: hi n=3\nfake time app: hi n=3\n"}
"#,
        errors: "",
    };
    expect_run(&rt, input.as_bytes(), want, "two days")
}
