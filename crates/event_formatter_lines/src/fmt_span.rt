//! At which moments of a span an event is written for it.
ghost use Rattle.std.specs.Prelude.{◌≡◌, Some};
ghost use Rattle.std.specs.Fmt.{WritesOnOk};
ghost use Rattle.event_formatter_lines.specs.FmtSpans.{IsByMoment, both, contains, debug_text};
ghost use Rattle.event_formatter_lines.specs.FmtSpans.{either, just_one, name_behind};

use std::fmt;
use std::ops::{BitAnd, BitAndAssign, BitOr, BitOrAssign, BitXor, BitXorAssign};

/// A set of the moments of a span at which an event is written for it.
#[derive(Clone, Copy, PartialEq, Eq)]
pub struct FmtSpan {
    new: bool,
    enter: bool,
    exit: bool,
    close: bool,
}

impl FmtSpan {
    /// When the span is made.
    pub const NEW: FmtSpan = FmtSpan {
        new: true,
        enter: false,
        exit: false,
        close: false,
    };

    /// Each time that the span is entered.
    pub const ENTER: FmtSpan = FmtSpan {
        new: false,
        enter: true,
        exit: false,
        close: false,
    };

    /// Each time that the span is left.
    pub const EXIT: FmtSpan = FmtSpan {
        new: false,
        enter: false,
        exit: true,
        close: false,
    };

    /// When the span is closed.
    pub const CLOSE: FmtSpan = FmtSpan {
        new: false,
        enter: false,
        exit: false,
        close: true,
    };

    /// Never.
    pub const NONE: FmtSpan = FmtSpan {
        new: false,
        enter: false,
        exit: false,
        close: false,
    };

    /// Each time that the span is entered or left.
    pub const ACTIVE: FmtSpan = FmtSpan {
        new: false,
        enter: true,
        exit: true,
        close: false,
    };

    /// At all of these moments.
    pub const FULL: FmtSpan = FmtSpan {
        new: true,
        enter: true,
        exit: true,
        close: true,
    };

    /// Whether all moments of the other set are in this one.
    pub fn contains(self, other: FmtSpan) -> bool
        ensures { result ≡ contains self other }
    {
        (!other.new || self.new)
            && (!other.enter || self.enter)
            && (!other.exit || self.exit)
            && (!other.close || self.close)
    }
}

impl BitOr for FmtSpan {
    type Output = FmtSpan;

    ghost bitor_gives = { λ a b r. IsByMoment either a b r };

    fn bitor(self, rhs: FmtSpan) -> FmtSpan {
        FmtSpan {
            new: self.new || rhs.new,
            enter: self.enter || rhs.enter,
            exit: self.exit || rhs.exit,
            close: self.close || rhs.close,
        }
    }
}

impl BitOrAssign for FmtSpan {
    ghost bitor_assign_gives = { λ a b r. IsByMoment either a b r };

    fn bitor_assign(&mut self, rhs: FmtSpan) {
        *self = *self | rhs;
    }
}

impl BitAnd for FmtSpan {
    type Output = FmtSpan;

    ghost bitand_gives = { λ a b r. IsByMoment both a b r };

    fn bitand(self, rhs: FmtSpan) -> FmtSpan {
        FmtSpan {
            new: self.new && rhs.new,
            enter: self.enter && rhs.enter,
            exit: self.exit && rhs.exit,
            close: self.close && rhs.close,
        }
    }
}

impl BitAndAssign for FmtSpan {
    ghost bitand_assign_gives = { λ a b r. IsByMoment both a b r };

    fn bitand_assign(&mut self, rhs: FmtSpan) {
        *self = *self & rhs;
    }
}

impl BitXor for FmtSpan {
    type Output = FmtSpan;

    ghost bitxor_gives = { λ a b r. IsByMoment just_one a b r };

    fn bitxor(self, rhs: FmtSpan) -> FmtSpan {
        FmtSpan {
            new: self.new != rhs.new,
            enter: self.enter != rhs.enter,
            exit: self.exit != rhs.exit,
            close: self.close != rhs.close,
        }
    }
}

impl BitXorAssign for FmtSpan {
    ghost bitxor_assign_gives = { λ a b r. IsByMoment just_one a b r };

    fn bitxor_assign(&mut self, rhs: FmtSpan) {
        *self = *self ^ rhs;
    }
}

// Writes the name of a moment that is in the set, behind a bar unless it is the first.
fn write_name<W: fmt::Write>(
    f: &mut fmt::Formatter<W>,
    is_first: bool,
    is_in: bool,
    name: &str,
) -> fmt::Result
    ensures { WritesOnOk W.write_str_gives f.old result (name_behind is_first is_in name.now) f.new }
{
    if !is_in {
        return Ok(());
    }
    if !is_first {
        f.write_str(" | ")?;
    }
    f.write_str(name)
}

impl fmt::Debug for FmtSpan {
    ghost debug_output = { λ set. Some (debug_text set) };

    #[tactic(auto, using(crate::proofs::Moments::shown))]
    fn fmt<W: fmt::Write>(&self, f: &mut fmt::Formatter<W>) -> fmt::Result {
        let has_later = self.enter || self.exit || self.close;
        if !self.new && !has_later {
            return f.write_str("FmtSpan::NONE");
        }
        write_name(f, true, self.new, "FmtSpan::NEW")?;
        write_name(f, !self.new, self.enter, "FmtSpan::ENTER")?;
        write_name(f, !self.new && !self.enter, self.exit, "FmtSpan::EXIT")?;
        let is_first = !self.new && !self.enter && !self.exit;
        write_name(f, is_first, self.close, "FmtSpan::CLOSE")
    }
}
