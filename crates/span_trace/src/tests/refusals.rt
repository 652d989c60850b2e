//! Each refusal that an input can reach, and the replies beside it.

use crate::tests::{
    DEFAULT, ENTER, EVENT, HAPPENED, LANE, NEW_SPAN, OUTER, STACK, Want, expect_run, expect_stop,
    joined, script_of,
};
use std::test::Fail;

/// Steps, the replies to them, and the text of the file.
#[derive(Clone, Copy)]
struct Row<'a> {
    steps: &'a [&'a str],
    replies: &'a [&'a str],
    status: u8,
    text: &'a str,
}

const EXIT: &str = r#"{"do":"exit","lane":0,"moment":[1739786460,0],"span":[0,1]}"#;

const CLOSE: &str = r#"{"do":"try_close","lane":0,"moment":[1739786460,0],"span":[0,1]}"#;

const CLONE: &str = r#"{"do":"clone_span","lane":0,"moment":[1739786460,0],"span":[0,1]}"#;

const REPLIES: [Row<'static>; 16] = [
    Row {
        steps: &[DEFAULT, NEW_SPAN, ENTER, EVENT],
        replies: &[r#""done""#, r#"{"span":[0,1]}"#, r#""done""#, r#""done""#],
        status: 0,
        text: r"fake time outer{x=42}: app: hi n=3\n",
    },
    Row {
        steps: &[
            DEFAULT,
            r#"{"do":"new_span","lane":0,"moment":[1739786460,0],"callsite":1,"values":[]}"#,
            ENTER,
            r#"{"do":"record","lane":0,"moment":[1739786460,0],"span":[0,1],"values":[["n",7],["x",1],["message","m"]]}"#,
            r#"{"do":"record","lane":0,"moment":[1739786460,0],"span":[0,1],"values":[["x",null],["x",2]]}"#,
            EVENT,
        ],
        replies: &[
            r#""done""#,
            r#"{"span":[0,1]}"#,
            r#""done""#,
            r#""done""#,
            r#""done""#,
            r#""done""#,
        ],
        status: 0,
        text: r"fake time outer{x=1 x=2}: app: hi n=3\n",
    },
    Row {
        steps: &[
            DEFAULT,
            r#"{"do":"record","lane":0,"moment":[1739786460,0],"span":[0,1],"values":[["x",1]]}"#,
            NEW_SPAN,
            r#"{"do":"record","lane":0,"moment":[1739786460,0],"span":null,"values":[["x",1]]}"#,
            r#"{"do":"record","lane":0,"moment":[1739786460,0],"span":[1,1],"values":[["x",1]]}"#,
            r#"{"do":"record","lane":1,"moment":[1739786460,0],"span":[1,1],"values":[["x",1]]}"#,
            CLOSE,
            r#"{"do":"record","lane":0,"moment":[1739786460,0],"span":[0,1],"values":[["x",1]]}"#,
        ],
        replies: &[
            r#""done""#,
            r#"{"refused":4}"#,
            r#"{"span":[0,1]}"#,
            r#""done""#,
            r#"{"refused":2}"#,
            r#"{"refused":23}"#,
            r#"{"closed":true}"#,
            r#"{"refused":4}"#,
        ],
        status: 1,
        text: "",
    },
    Row {
        steps: &[EVENT, NEW_SPAN, ENTER],
        replies: &[r#""done""#, r#"{"span":null}"#, r#"{"refused":4}"#],
        status: 1,
        text: "",
    },
    Row {
        steps: &[DEFAULT, NEW_SPAN, ENTER, CLOSE, EVENT, EXIT, ENTER, CLOSE],
        replies: &[
            r#""done""#,
            r#"{"span":[0,1]}"#,
            r#""done""#,
            r#"{"closed":false}"#,
            r#""done""#,
            r#""done""#,
            r#"{"refused":4}"#,
            r#"{"refused":4}"#,
        ],
        status: 1,
        text: r"fake time outer{x=42}: app: hi n=3\n",
    },
    Row {
        steps: &[DEFAULT, NEW_SPAN, CLONE, CLOSE, CLOSE, CLONE],
        replies: &[
            r#""done""#,
            r#"{"span":[0,1]}"#,
            r#""done""#,
            r#"{"closed":false}"#,
            r#"{"closed":true}"#,
            r#"{"refused":4}"#,
        ],
        status: 1,
        text: "",
    },
    Row {
        steps: &[
            DEFAULT,
            NEW_SPAN,
            r#"{"do":"record_follows_from","lane":0,"moment":[1739786460,0],"span":[0,1],"follows":[0,1]}"#,
            r#"{"do":"record_follows_from","lane":0,"moment":[1739786460,0],"span":[0,1],"follows":null}"#,
            r#"{"do":"record_follows_from","lane":0,"moment":[1739786460,0],"span":null,"follows":[0,9]}"#,
            r#"{"do":"record_follows_from","lane":0,"moment":[1739786460,0],"span":[0,9],"follows":[1,1]}"#,
            r#"{"do":"record_follows_from","lane":1,"moment":[1739786460,0],"span":[0,9],"follows":[1,1]}"#,
        ],
        replies: &[
            r#""done""#,
            r#"{"span":[0,1]}"#,
            r#""done""#,
            r#""done""#,
            r#"{"refused":4}"#,
            r#"{"refused":2}"#,
            r#"{"refused":23}"#,
        ],
        status: 1,
        text: "",
    },
    Row {
        steps: &[
            r#"{"do":"enabled","lane":0,"moment":[1739786460,0],"callsite":2}"#,
            DEFAULT,
            r#"{"do":"enabled","lane":0,"moment":[1739786460,0],"callsite":2}"#,
            r#"{"do":"enabled","lane":0,"moment":[1739786460,0],"callsite":1}"#,
            r#"{"do":"enabled","lane":0,"moment":[1739786460,0],"callsite":9}"#,
            r#"{"do":"enabled","lane":0,"moment":[253370764800,0],"callsite":9}"#,
            r#"{"do":"enabled","lane":1,"moment":[253370764800,0],"callsite":9}"#,
        ],
        replies: &[
            r#"{"enabled":false}"#,
            r#""done""#,
            r#"{"enabled":true}"#,
            r#"{"enabled":true}"#,
            r#"{"refused":1}"#,
            r#"{"refused":13}"#,
            r#"{"refused":23}"#,
        ],
        status: 1,
        text: "",
    },
    Row {
        steps: &[DEFAULT, NEW_SPAN, CLOSE, CLOSE],
        replies: &[
            r#""done""#,
            r#"{"span":[0,1]}"#,
            r#"{"closed":true}"#,
            r#"{"refused":4}"#,
        ],
        status: 1,
        text: "",
    },
    Row {
        steps: &[
            r#"{"do":"enter","lane":0,"moment":[1739786460,0],"span":null}"#,
            r#"{"do":"exit","lane":0,"moment":[1739786460,0],"span":null}"#,
            r#"{"do":"try_close","lane":0,"moment":[1739786460,0],"span":null}"#,
            r#"{"do":"enter","lane":7,"moment":[1739786460,0],"span":null}"#,
        ],
        replies: &[
            r#""done""#,
            r#""done""#,
            r#"{"closed":false}"#,
            r#"{"refused":23}"#,
        ],
        status: 1,
        text: "",
    },
    Row {
        steps: &[
            r#"{"do":"set_global_default","handle":1}"#,
            DEFAULT,
            DEFAULT,
            r#"{"do":"set_global_default","handle":18446744073709551615}"#,
        ],
        replies: &[
            r#"{"refused":2}"#,
            r#""done""#,
            r#"{"refused":24}"#,
            r#"{"refused":2}"#,
        ],
        status: 1,
        text: "",
    },
    Row {
        steps: &[
            r#"{"do":"event","lane":0,"moment":[-62135596801,0],"callsite":2,"values":[]}"#,
            r#"{"do":"event","lane":0,"moment":[253370764800,0],"callsite":2,"values":[]}"#,
            r#"{"do":"event","lane":0,"moment":[0,1000000000],"callsite":9,"values":[]}"#,
            r#"{"do":"event","lane":0,"moment":[0,999999999],"callsite":9,"values":[]}"#,
            r#"{"do":"event","lane":1,"moment":[-62135596801,0],"callsite":9,"values":[]}"#,
            r#"{"do":"event","lane":0,"moment":[0,0],"callsite":1,"values":[["x",1]]}"#,
            r#"{"do":"new_span","lane":0,"moment":[0,0],"callsite":2,"values":[]}"#,
        ],
        replies: &[
            r#"{"refused":13}"#,
            r#"{"refused":13}"#,
            r#"{"refused":13}"#,
            r#"{"refused":1}"#,
            r#"{"refused":23}"#,
            r#"{"refused":1}"#,
            r#"{"refused":1}"#,
        ],
        status: 1,
        text: "",
    },
    Row {
        steps: &[
            r#"{"do":"event","lane":0,"moment":[0,0],"callsite":2,"parent":[0,1],"values":[]}"#,
            r#"{"do":"event","lane":0,"moment":[0,0],"callsite":2,"parent":[1,1],"values":[]}"#,
            r#"{"do":"enter","lane":0,"moment":[0,0],"span":[1,1]}"#,
            DEFAULT,
            r#"{"do":"event","lane":0,"moment":[1739786460,0],"callsite":2,"parent":[0,1],"values":[]}"#,
            NEW_SPAN,
            r#"{"do":"event","lane":0,"moment":[1739786460,0],"callsite":2,"parent":[0,1],"values":[]}"#,
            ENTER,
            r#"{"do":"event","lane":0,"moment":[1739786460,0],"callsite":2,"parent":"root","values":[["n",-5]]}"#,
        ],
        replies: &[
            r#"{"refused":5}"#,
            r#"{"refused":2}"#,
            r#"{"refused":2}"#,
            r#""done""#,
            r#"{"refused":4}"#,
            r#"{"span":[0,1]}"#,
            r#""done""#,
            r#""done""#,
            r#""done""#,
        ],
        status: 1,
        text: r"fake time outer{x=42}: app: \nfake time app: n=-5\n",
    },
    Row {
        steps: &[
            r#"{"do":"set_default","lane":0,"handle":0}"#,
            EVENT,
            r#"{"do":"release","handle":0}"#,
            EVENT,
            r#"{"do":"set_default","lane":0,"handle":0}"#,
            r#"{"do":"set_default","lane":0,"handle":null}"#,
            EVENT,
            r#"{"do":"reset_default","lane":0,"guard":1}"#,
            NEW_SPAN,
            r#"{"do":"reset_default","lane":0,"guard":0}"#,
            ENTER,
            DEFAULT,
        ],
        replies: &[
            r#"{"guard":0}"#,
            r#""done""#,
            r#""done""#,
            r#""done""#,
            r#"{"refused":3}"#,
            r#"{"guard":1}"#,
            r#""done""#,
            r#""done""#,
            r#"{"span":[0,1]}"#,
            r#""done""#,
            r#"{"refused":3}"#,
            r#"{"refused":3}"#,
        ],
        status: 1,
        text: r"fake time app: hi n=3\nfake time app: hi n=3\n",
    },
    Row {
        steps: &[
            r#"{"do":"clone_handle","handle":0}"#,
            r#"{"do":"clone_handle","handle":1}"#,
            r#"{"do":"release","handle":1}"#,
            r#"{"do":"release","handle":1}"#,
            r#"{"do":"clone_handle","handle":1}"#,
            r#"{"do":"release","handle":3}"#,
            r#"{"do":"clone_handle","handle":18446744073709551615}"#,
            r#"{"do":"reset_default","lane":0,"guard":0}"#,
            r#"{"do":"reset_default","lane":1,"guard":18446744073709551615}"#,
            r#"{"do":"set_default","lane":1,"handle":3}"#,
        ],
        replies: &[
            r#"{"handle":1}"#,
            r#"{"handle":2}"#,
            r#""done""#,
            r#"{"refused":3}"#,
            r#"{"refused":3}"#,
            r#"{"refused":2}"#,
            r#"{"refused":2}"#,
            r#"{"refused":28}"#,
            r#"{"refused":23}"#,
            r#"{"refused":23}"#,
        ],
        status: 1,
        text: "",
    },
    Row {
        steps: &[
            DEFAULT,
            r#"{"do":"event","lane":0,"moment":[1739786460,0],"callsite":2,"values":[["message","\u001b[31mred"]]}"#,
            r#"{"do":"event","lane":0,"moment":[1739786460,0],"callsite":2,"values":[["n","a\"b\u001b"]]}"#,
            r#"{"do":"event","lane":0,"moment":[1739786460,0],"callsite":2,"values":[["message",null],["n",18446744073709551615]]}"#,
        ],
        replies: &[r#""done""#, r#""done""#, r#""done""#, r#""done""#],
        status: 0,
        text: r#"fake time app: \\x1b[31mred\nfake time app: n=\"a\\\"b\\u{1b}\"\nfake time app: n=18446744073709551615\n"#,
    },
];

#[test]
fn replies(rt: HostRuntime) -> Result<(), Fail> {
    let alloc = rt.alloc();
    for row in &REPLIES {
        let input = script_of(alloc, row.steps)?;
        let mut output = String::new(alloc);
        let mut number: u64 = 0;
        for reply in row.replies {
            number = number.saturating_add(1);
            output.push_str(format!(in alloc;
                "{{\"reply\":{reply},\"step\":{number}}}\n"
            )?.as_str())?;
        }
        let text = row.text;
        let file = format!(in alloc;
            "{{\"file\":\"my_prefix.2025-02-17.log\",\"folder\":\"A\",\"text\":\"{text}\"}}\n"
        )?;
        output.push_str(file.as_str())?;
        let want = Want {
            status: row.status,
            output: output.as_str(),
            errors: "",
        };
        expect_run(&rt, input.as_bytes(), want, input.as_str())?;
    }
    Ok(())
}

#[test]
fn without_a_stack(rt: HostRuntime) -> Result<(), Fail> {
    let alloc = rt.alloc();
    let unknown = r#"{"do":"enter","lane":0,"moment":[1739786460,0],"span":[0,9]}"#;
    for (lines, status, output) in [
        (
            [LANE, DEFAULT],
            1,
            "{\"reply\":{\"refused\":2},\"step\":1}\n",
        ),
        (
            [LANE, unknown],
            1,
            "{\"reply\":{\"refused\":2},\"step\":1}\n",
        ),
        (
            [STACK, LANE],
            0,
            "{\"file\":\"my_prefix.2025-02-17.log\",\"folder\":\"A\",\"text\":\"\"}\n",
        ),
        ([LANE, OUTER], 0, ""),
    ] {
        let input = joined(alloc, &lines)?;
        let want = Want {
            status,
            output,
            errors: "",
        };
        expect_run(&rt, input.as_bytes(), want, input.as_str())?;
    }
    Ok(())
}

/// What replaces a part of the stack's line, and the refusal.
const REFUSED_STACKS: [(&str, &str, u64); 9] = [
    (r#""prefix":"my_prefix""#, r#""prefix":"a/b""#, 11),
    (r#""suffix":"log""#, r#""suffix":"l\u0000g""#, 11),
    ("[1739786460,0]", "[-62135596801,0]", 13),
    ("[1739786460,0]", "[1739786460,1000000000]", 13),
    (r#""route":0"#, r#""route":1"#, 21),
    (
        r#"[{"folder":{"memory":"A"},"rotation":"daily","prefix":"my_prefix","suffix":"log"}]"#,
        "[]",
        21,
    ),
    (
        r#""moment":[1739786460,0],"outputs":[{"key":0,"filter":"info","format":"full","route":0,"#,
        r#""moment":[0,1000000000],"outputs":[{"key":0,"filter":"info","format":"full","route":5,"#,
        21,
    ),
    (
        r#""moment":[1739786460,0],"outputs":[{"key":0,"filter":"info","format":"full","route":0,"time":"fake time","show_level":false,"sinks":[{"folder":{"memory":"A"},"rotation":"daily","prefix":"my_prefix","suffix":"log"}]}]"#,
        r#""moment":[0,0],"outputs":[]"#,
        6,
    ),
    (
        r#""moment":[1739786460,0],"outputs":[{"key":0,"filter":"info","format":"full","route":0,"time":"fake time","show_level":false,"sinks":[{"folder":{"memory":"A"},"rotation":"daily","prefix":"my_prefix","suffix":"log"}]}]"#,
        r#""moment":[0,1000000000],"outputs":[]"#,
        13,
    ),
];

#[test]
fn refused_stacks(rt: HostRuntime) -> Result<(), Fail> {
    let alloc = rt.alloc();
    for (old, new, number) in &REFUSED_STACKS {
        let stack = STACK.replace(alloc, *old, new)?;
        let input = joined(alloc, &[LANE, OUTER, stack.as_str(), DEFAULT])?;
        let errors = format!(in alloc; "span-trace: line 3: refused {number}\n")?;
        expect_stop(&rt, input.as_bytes(), errors.as_str(), new)?;
    }
    Ok(())
}

/// What replaces a part of a callsite's line whose identifier is taken already.
const OTHER_METADATA: [(&str, &str); 8] = [
    (r#""target":"app""#, r#""target":"other""#),
    (r#""name":"outer""#, r#""name":"inner""#),
    (r#""level":"INFO""#, r#""level":"WARN""#),
    (r#""kind":"span""#, r#""kind":"event""#),
    (r#"["x"]"#, r#"["y"]"#),
    (r#"["x"]"#, r#"["x","x"]"#),
    (r#""fields""#, r#""file":"a.rs","fields""#),
    (r#""fields""#, r#""line":1,"fields""#),
];

#[test]
fn taken_identifiers(rt: HostRuntime) -> Result<(), Fail> {
    let alloc = rt.alloc();
    for (old, new) in &OTHER_METADATA {
        let other = OUTER.replace(alloc, *old, new)?;
        let input = joined(alloc, &[OUTER, HAPPENED, OUTER, other.as_str()])?;
        let errors = "span-trace: line 4: refused 25\n";
        expect_stop(&rt, input.as_bytes(), errors, new)?;
    }
    Ok(())
}
