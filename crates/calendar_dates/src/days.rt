// The date of a day.
ghost use Rattle.std.specs.Prelude.{◌≡◌, ◌≤◌};
ghost use Rattle.calendar_dates.specs.Calendar as spec;

use jiff_core::civil::Date;

/// A date of the calendar. The year before 1 is 0, and the one before that -1.
#[derive(Clone, Copy, PartialEq, Eq, Debug)]
pub struct CalendarDate {
    pub year: i16,
    pub month: u8,
    pub day: u8,
}

/// The date that many days after 1 January of the year -10000: from -10000-12-31 to 10000-01-01, one day more on each
/// side than the calendar of the library has.
pub fn date_after(days: u32) -> CalendarDate
    requires first { 365 ≤ days }
    requires last { days ≤ 7_304_850 }
    ensures date { result ≡ spec.date_after days }
    ensures month { result.month ≤ 12 }
    ensures day { result.day ≤ 31 }
{
    match days {
        365 => CalendarDate {
            year: -10_000,
            month: 12,
            day: 31,
        },
        7_304_850 => CalendarDate {
            year: 10_000,
            month: 1,
            day: 1,
        },
        days => inner_date(Date::from_days_since_min(days - 366)),
    }
}

fn inner_date(date: Date) -> CalendarDate
    ensures year { result.year ≡ date.year }
    ensures month { result.month ≡ date.month }
    ensures day { result.day ≡ date.day }
{
    CalendarDate {
        year: date.year,
        month: date.month,
        day: date.day,
    }
}
