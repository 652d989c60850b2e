//! Settings of outputs, which change while a trace runs.

/// Moments of a span at which a line is written for it. It is the formatter's `FmtSpan` as plain data: this crate stands below the formatter.
#[derive(Clone, Copy, Debug, PartialEq, Eq)]
pub struct SpanMoments {
    pub new: bool,
    pub enter: bool,
    pub exit: bool,
    pub close: bool,
}

/// A setting of an output.
#[derive(Clone, Copy, Debug, PartialEq, Eq)]
pub enum Setting {
    /// Whether its lines, and the texts of spans that are made from now on, have styles.
    Ansi(bool),
    /// At which moments of a span a line is written for it.
    SpanEvents(SpanMoments),
}

/// A setting for an output. Outputs are numbered from 0 through all stacks, in the order in which they were added.
#[derive(Clone, Copy, Debug, PartialEq, Eq)]
pub struct SettingCall {
    pub output: usize,
    pub setting: Setting,
}

/// Where an output stands.
#[derive(Clone, Copy, Debug, PartialEq, Eq)]
pub struct OutputPlace {
    /// The number of its stack.
    pub stack: usize,
    /// Its place in that stack, counted from 0.
    pub place: usize,
}
