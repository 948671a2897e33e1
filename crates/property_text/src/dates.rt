// [MS-DTYP] FILETIME: tenths of microseconds since the beginning of 1601.
ghost use Rattle.std.specs.Prelude.{◌<◌, ◌≤◌};

const TICKS_A_SECOND: u64 = 10_000_000;

const SECONDS_A_DAY: u64 = 86_400;

/// The days of 400 years, and of a year and of a leap year.
const DAYS_A_CYCLE: u64 = 146_097;

const DAYS_A_YEAR: u64 = 365;

/// Below so many seconds a FILETIME is a span, and no date.
const SPAN_SECONDS: u64 = DAYS_A_YEAR * SECONDS_A_DAY;

/// The days of the months of a year that is no leap year.
const DAYS_A_MONTH: [u64; 12] = [31, 28, 31, 30, 31, 30, 31, 31, 30, 31, 30, 31];

/// A date, and the seconds of its day.
#[derive(Clone, Copy)]
pub(crate) struct Date {
    pub(crate) year: u64,
    pub(crate) month: u64,
    pub(crate) day: u64,
    pub(crate) second: u64,
}

/// The whole seconds of a FILETIME.
pub(crate) fn seconds_of(ticks: u64) -> u64 {
    ticks / TICKS_A_SECOND
}

/// Whether so many seconds are a span of time.
pub(crate) fn is_span(seconds: u64) -> bool {
    seconds < SPAN_SECONDS
}

/// The date of so many ticks since the beginning of 1601.
pub(crate) fn date_of(ticks: u64) -> Date {
    let seconds = seconds_of(ticks);
    let days = seconds / SECONDS_A_DAY;
    let (year, rest) = year_of(days % DAYS_A_CYCLE);
    let (month, day) = month_of(is_leap(year), rest);
    Date {
        year: 1601 + 400 * (days / DAYS_A_CYCLE) + year,
        month,
        day,
        second: seconds % SECONDS_A_DAY,
    }
}

/// Whether a year behind 1601 is a leap year.
fn is_leap(year: u64) -> bool {
    let next = year % 400 + 1;
    next % 4 == 0 && (next % 100 != 0 || next == 400)
}

/// The year of a cycle that a day of it is in, and the day of the year, both counted from 0.
fn year_of(days: u64) -> (u64, u64)
    ensures { result.0 < 400 }
{
    let mut rest = days;
    for year in 0..400 {
        let len = if is_leap(year) {
            DAYS_A_YEAR + 1
        } else {
            DAYS_A_YEAR
        };
        if rest < len {
            return (year, rest);
        }
        rest -= len;
    }
    (399, 0)
}

/// The month that a day of a year is in, and the day of the month, both counted from 1.
fn month_of(leap: bool, days: u64) -> (u64, u64) {
    let mut rest = days;
    for month in 0..12 {
        let len = month_len(leap, month);
        if rest < len {
            return (month as u64 + 1, rest + 1);
        }
        rest -= len;
    }
    (12, 31)
}

/// The days of a month, counted from 0.
fn month_len(leap: bool, month: usize) -> u64
    requires { month < 12 }
    ensures { result ≤ 31 }
{
    if leap && month == 1 {
        29
    } else {
        DAYS_A_MONTH[month]
    }
}
