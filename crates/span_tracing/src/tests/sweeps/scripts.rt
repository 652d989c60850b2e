// Scripts of calls over sinks whose folders may refuse.

use super::slow_files::SinkPlan;

/// What a script does next.
#[derive(Clone, Copy)]
pub(crate) enum Move {
    /// An event at a second, with this message.
    Tell(i64, &'static str),
    /// A span in another one; the outer one's handle is given up first, so that both close at the last step, which has two lines.
    Close(i64),
    /// A worker's step at a sink: so many lines, at a second.
    Work(usize, usize, i64),
    Admit(usize),
    Shutdown(usize),
}

/// The sinks of each output, which all take each of its lines, and what is done with them.
#[derive(Clone, Copy)]
pub(crate) struct Script {
    pub(crate) opened: i64,
    pub(crate) outputs: &'static [&'static [SinkPlan]],
    pub(crate) moves: &'static [Move],
}

/// 2025-02-17T10:01:00Z, and later seconds.
const MONDAY: i64 = 1_739_786_460;

const MONDAY_LATE: i64 = 1_739_836_799;

const TUESDAY: i64 = 1_739_836_800;

const TUESDAY_NOON: i64 = 1_739_880_000;

const WEDNESDAY: i64 = 1_739_923_200;

const THURSDAY: i64 = 1_740_009_600;

/// 2020-02-01T10:01:00Z, and hours later.
const TEN: i64 = 1_580_551_260;

const ELEVEN: i64 = TEN + 3_600;

const TWELVE: i64 = TEN + 7_200;

const ONE: i64 = TEN + 10_800;

const DIRECT: SinkPlan = SinkPlan {
    by_hour: false,
    limit: 0,
    has_link: false,
    queue: None,
    found: &[],
};

const QUEUED: SinkPlan = SinkPlan {
    queue: Some((128_000, true)),
    ..DIRECT
};

const HOURLY: SinkPlan = SinkPlan {
    by_hour: true,
    ..DIRECT
};

/// A line of the last second of a day, which a worker writes on the next day.
const LATE_LINE: Script = Script {
    opened: MONDAY,
    outputs: &[&[QUEUED]],
    moves: &[Move::Tell(MONDAY_LATE, "late"), Move::Work(0, 9, TUESDAY)],
};

/// A worker's step of an earlier day comes behind one of a later day.
const EARLY_WORKER: Script = Script {
    opened: MONDAY,
    outputs: &[&[QUEUED]],
    moves: &[
        Move::Tell(MONDAY, "a"),
        Move::Tell(MONDAY, "b"),
        Move::Work(0, 1, TUESDAY),
        Move::Work(0, 1, MONDAY_LATE),
    ],
};

/// One file stays.
const NEWEST: Script = Script {
    opened: MONDAY,
    outputs: &[&[SinkPlan { limit: 1, ..QUEUED }]],
    moves: &[
        Move::Tell(MONDAY, "a"),
        Move::Work(0, 1, MONDAY),
        Move::Tell(TUESDAY, "b"),
        Move::Work(0, 1, TUESDAY),
    ],
};

/// Two lines of one day, and one of the next.
const DAYS: Script = Script {
    opened: MONDAY,
    outputs: &[&[DIRECT]],
    moves: &[
        Move::Tell(TUESDAY, "a"),
        Move::Tell(TUESDAY_NOON, "b"),
        Move::Tell(WEDNESDAY, "c"),
        Move::Tell(MONDAY, "late"),
    ],
};

/// Two files of hours stay.
const HOURS: Script = Script {
    opened: TEN,
    outputs: &[&[SinkPlan { limit: 2, ..HOURLY }]],
    moves: &[
        Move::Tell(TEN, "a"),
        Move::Tell(ELEVEN, "b"),
        Move::Tell(TWELVE, "c"),
        Move::Tell(ONE, "d"),
    ],
};

/// A link leads to the file of the hour.
const LINKED_HOURS: Script = Script {
    opened: TEN,
    outputs: &[&[SinkPlan {
        has_link: true,
        ..HOURLY
    }]],
    moves: &[
        Move::Tell(ELEVEN, "a"),
        Move::Tell(ELEVEN, "b"),
        Move::Tell(TWELVE, "c"),
    ],
};

/// Old files, of which the oldest go, under a link, and a name that isn't one of a log file.
const OLD_FILES: Script = Script {
    opened: MONDAY,
    outputs: &[&[SinkPlan {
        limit: 2,
        has_link: true,
        found: &[
            "app.2025-02-12",
            "app.2025-02-10",
            "app.backup",
            "app.2025-02-11",
            "app.2025-02-18",
        ],
        ..DIRECT
    }]],
    moves: &[
        Move::Tell(MONDAY, "a"),
        Move::Close(TUESDAY),
        Move::Tell(WEDNESDAY, "b"),
        Move::Tell(THURSDAY, "c"),
    ],
};

/// Two outputs: one writes each line to two files, and the other has a queue beside another file.
const TWO_OUTPUTS: Script = Script {
    opened: MONDAY,
    outputs: &[
        &[DIRECT, SinkPlan { limit: 1, ..DIRECT }],
        &[
            SinkPlan {
                queue: Some((3, true)),
                limit: 2,
                ..DIRECT
            },
            SinkPlan {
                has_link: true,
                ..DIRECT
            },
        ],
    ],
    moves: &[
        Move::Tell(MONDAY, "a"),
        Move::Work(2, 1, MONDAY),
        Move::Tell(TUESDAY, "b"),
        Move::Close(TUESDAY_NOON),
        Move::Tell(TUESDAY_NOON, "full"),
        Move::Work(2, 2, TUESDAY),
        Move::Tell(WEDNESDAY, "c"),
        Move::Work(2, 9, THURSDAY),
    ],
};

/// A waiting queue, beside a direct sink: lines are held and admitted, and the last one comes behind its mark.
const WAITING: Script = Script {
    opened: MONDAY,
    outputs: &[&[
        SinkPlan {
            queue: Some((2, false)),
            ..DIRECT
        },
        DIRECT,
    ]],
    moves: &[
        Move::Tell(MONDAY, "a"),
        Move::Tell(MONDAY, "b"),
        Move::Tell(TUESDAY, "held"),
        Move::Tell(TUESDAY, "busy"),
        Move::Admit(0),
        Move::Work(0, 2, TUESDAY),
        Move::Admit(0),
        Move::Shutdown(0),
        Move::Tell(WEDNESDAY, "waits"),
        Move::Work(0, 9, WEDNESDAY),
        Move::Admit(0),
        Move::Tell(THURSDAY, "lost"),
        Move::Work(0, 9, THURSDAY),
    ],
};

pub(crate) const SCRIPTS: [Script; 9] = [
    LATE_LINE,
    EARLY_WORKER,
    NEWEST,
    DAYS,
    HOURS,
    LINKED_HOURS,
    OLD_FILES,
    TWO_OUTPUTS,
    WAITING,
];
