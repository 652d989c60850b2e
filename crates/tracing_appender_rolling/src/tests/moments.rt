//! Moments of the tests.
use tracing_core_moments::Moment;

/// 2025-02-17T00:00:00Z.
pub const MONDAY_MIDNIGHT: Moment = Moment {
    seconds: 1_739_750_400,
    nanoseconds: 0,
};

/// 2025-02-17T10:01:00Z.
pub const MONDAY: Moment = Moment {
    seconds: 1_739_786_460,
    nanoseconds: 0,
};

/// 2025-02-18T00:00:00Z.
pub const TUESDAY_MIDNIGHT: Moment = Moment {
    seconds: 1_739_836_800,
    nanoseconds: 0,
};

/// 2020-02-01T10:01:00Z.
pub const FEBRUARY: Moment = Moment {
    seconds: 1_580_551_260,
    nanoseconds: 0,
};

/// An hour later.
pub const ELEVEN: Moment = Moment {
    seconds: 1_580_554_860,
    nanoseconds: 0,
};

/// Two hours later.
pub const NOON: Moment = Moment {
    seconds: 1_580_558_460,
    nanoseconds: 0,
};

/// 0001-01-01T00:00:00Z.
pub const FIRST: Moment = Moment {
    seconds: -62_135_596_800,
    nanoseconds: 0,
};

/// 9998-12-31T23:59:59Z.
pub const LAST: Moment = Moment {
    seconds: 253_370_764_799,
    nanoseconds: 0,
};
