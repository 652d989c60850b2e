//! Laws over the definitions, and worked dates and names.

ghost use Rattle.tracing_core_moments.specs.Calendar.{DatesCountDays};
ghost use Rattle.tracing_core_moments.specs.Names.{NamesRise, PeriodsDiffer};
ghost use Rattle.tracing_core_moments.specs.WorkedDates.{DayRow, FirstRow, LastRow, MinuteRow, HourRow, WeekRow, NewYearWeekRow};
ghost use Rattle.tracing_core_moments.specs.WorkedDates.{FirstWeekRow, WholeRow, DateAloneRow};

/// The date texts of days are those that counting day by day gives.
pub fn dates_count_days()
    ensures { DatesCountDays }
{}

/// Different periods of one kind have different names.
pub fn periods_differ()
    ensures { PeriodsDiffer }
{}

/// Names of later periods of one kind are greater in byte order.
pub fn names_rise()
    ensures { NamesRise }
{}

/// Worked dates: 2025-02-17, and the first and the last day of moments.
#[tactic(auto, unfolding(crate::specs::Calendar::in_month, crate::specs::Calendar::in_year, crate::specs::Calendar::date_text))]
pub fn worked_dates()
    ensures day { DayRow }
    ensures first { FirstRow }
    ensures last { LastRow }
{}

/// Worked names at 2025-02-17T10:01:00Z, the name of the week of 2025-01-01, and that of the first week of moments.
#[tactic(auto, unfolding(crate::specs::Calendar::in_month, crate::specs::Calendar::in_year, crate::specs::Calendar::date_text))]
pub fn worked_names()
    ensures minute { MinuteRow }
    ensures hour { HourRow }
    ensures week { WeekRow }
    ensures new_year { NewYearWeekRow }
    ensures first_week { FirstWeekRow }
    ensures whole { WholeRow }
    ensures alone { DateAloneRow }
{}
