//! Which parts a line shows.
ghost use Rattle.std.specs.Prelude.{◌≡◌, IsTrue};
ghost use Rattle.event_formatter.specs.formats.Parts.{default_parts};

/// Which parts a line shows beside its fields and spans.
#[derive(Clone, Copy, Debug, Drop, PartialEq, Eq)]
pub struct Parts {
    /// The time.
    pub timestamp: bool,
    /// The level.
    pub level: bool,
    /// The target.
    pub target: bool,
    /// The name of the thread.
    pub thread_names: bool,
    /// The number of the thread.
    pub thread_ids: bool,
    /// The source file.
    pub file: bool,
    /// The line in the source file.
    pub line_number: bool,
}

impl Default for Parts {
    ghost is_default = { λ parts. parts ≡ default_parts };

    /// Time, level and target.
    fn default() -> Parts {
        Parts {
            timestamp: true,
            level: true,
            target: true,
            thread_names: false,
            thread_ids: false,
            file: false,
            line_number: false,
        }
    }
}

impl Parts {
    // Whether time, level and target are shown, and nothing else.
    pub(crate) fn are_default(&self) -> bool
        ensures { IsTrue result → self.now ≡ default_parts }
    {
        let shows_thread = self.thread_names || self.thread_ids;
        let shows_place = self.file || self.line_number;
        self.timestamp && self.level && self.target && !shows_thread && !shows_place
    }
}
