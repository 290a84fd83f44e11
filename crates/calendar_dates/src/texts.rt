// The texts of dates and times.
ghost use Rattle.std.specs.Prelude.{◌≡◌, ◌++◌, ◌<◌, ◌≤◌, true, pos, neg_ℤ, ◌+ℤ◌, ◌≤ℤ◌, ◌<ℤ◌, unsigned_abs, OnOk};
ghost use Rattle.calendar_dates.specs.Texts as spec;

use crate::days::{CalendarDate, date_after};
use itoa::Buffer;
use std::alloc::AllocError;

// Nanoseconds.
const DAY: u128 = 86_400_000_000_000;

// From the first instant of the year -10000 to 1970-01-01T00:00:00, in nanoseconds.
const EPOCH: i128 = 377_736_739_200_000_000_000;

fn append_two(n: u8, line: &mut Vec<u8>) -> Result<(), AllocError>
    requires { n < 100 }
    ensures { OnOk result (line.new.items ≡ line.old.items ++ spec.two_digits n) }
{
    line.push(b'0' + n / 10)?;
    line.push(b'0' + n % 10)?;
    Ok(())
}

// At least four digits.
fn append_year_number(n: u16, line: &mut Vec<u8>) -> Result<(), AllocError>
    ensures { OnOk result (line.new.items ≡ line.old.items ++ spec.number_text n) }
{
    if n >= 10_000 {
        return line.extend_from_slice(Buffer::new().format(n).as_bytes());
    }
    append_two((n / 100) as u8, line)?;
    append_two((n % 100) as u8, line)
}

fn append_year(year: i16, line: &mut Vec<u8>) -> Result<(), AllocError>
    ensures { OnOk result (line.new.items ≡ line.old.items ++ spec.year_text year) }
{
    if year < 0 {
        line.push(b'-')?;
    }
    append_year_number(year.unsigned_abs(), line)
}

fn append_date(date: CalendarDate, line: &mut Vec<u8>) -> Result<(), AllocError>
    requires month { date.month < 100 }
    requires day { date.day < 100 }
    ensures { OnOk result (line.new.items ≡ line.old.items ++ spec.date_text date) }
{
    append_year(date.year, line)?;
    line.push(b'-')?;
    append_two(date.month, line)?;
    line.push(b'-')?;
    append_two(date.day, line)
}

// The first decimal places of n billionths, up to the last that is not 0.
fn append_places(count: u32, n: u32, line: &mut Vec<u8>) -> Result<(), AllocError>
    requires { n < 1_000_000_000 }
    ensures { OnOk result (line.new.items ≡ line.old.items ++ spec.places count n) }
{
    if count == 0 || n == 0 {
        return Ok(());
    }
    line.push(b'0' + (n / 100_000_000) as u8)?;
    append_places(count - 1, n % 100_000_000 * 10, line)
}

fn append_fraction(n: u32, line: &mut Vec<u8>) -> Result<(), AllocError>
    requires { n < 1_000_000_000 }
    ensures { OnOk result (line.new.items ≡ line.old.items ++ spec.fraction_text n) }
{
    if n == 0 {
        return Ok(());
    }
    line.push(b'.')?;
    append_places(9, n, line)
}

// Hours, minutes and whole seconds.
fn append_clock(seconds: u32, line: &mut Vec<u8>) -> Result<(), AllocError>
    requires { seconds < 86_400 }
    ensures { OnOk result (line.new.items ≡ line.old.items ++ spec.clock_text seconds) }
{
    append_two((seconds / 3600) as u8, line)?;
    line.push(b':')?;
    append_two((seconds / 60 % 60) as u8, line)?;
    line.push(b':')?;
    append_two((seconds % 60) as u8, line)
}

// Nothing at midnight.
fn append_time(nanoseconds: u64, line: &mut Vec<u8>) -> Result<(), AllocError>
    requires { nanoseconds < 86_400_000_000_000 }
    ensures { OnOk result (line.new.items ≡ line.old.items ++ spec.time_text nanoseconds) }
{
    if nanoseconds == 0 {
        return Ok(());
    }
    line.push(b'T')?;
    append_clock((nanoseconds / 1_000_000_000) as u32, line)?;
    append_fraction((nanoseconds % 1_000_000_000) as u32, line)?;
    line.push(b'Z')?;
    Ok(())
}

// Of nanoseconds since the first instant of the year -10000.
fn append_moment(since: u128, line: &mut Vec<u8>) -> Result<(), AllocError>
    requires first { 31_536_000_000_000_000 ≤ since }
    requires last { since < 631_139_126_400_000_000_000 }
    ensures { OnOk result (line.new.items ≡ line.old.items ++ spec.moment_text since) }
{
    append_date(date_after((since / DAY) as u32), line)?;
    append_time((since % DAY) as u64, line)
}

// Whether dates that are read may have the instant.
fn is_in_reach(instant: i128) -> bool
    ensures reach { result ≡ spec.is_in_reach instant }
    ensures first { (result ≡ true) → (neg_ℤ (pos 377_705_203_200_000_000_000) ≤ℤ instant) }
    ensures last { (result ≡ true) → (instant <ℤ pos 253_402_387_200_000_000_000) }
{
    instant >= -377_705_203_200_000_000_000 && instant < 253_402_387_200_000_000_000
}

// Nanoseconds since the first instant of the year -10000.
fn since_start(instant: i128) -> u128
    requires first { neg_ℤ (pos 377_705_203_200_000_000_000) ≤ℤ instant }
    requires last { instant <ℤ pos 253_402_387_200_000_000_000 }
    ensures value { result ≡ unsigned_abs (instant +ℤ pos 377_736_739_200_000_000_000) }
    ensures first { 31_536_000_000_000_000 ≤ result }
    ensures last { result < 631_139_126_400_000_000_000 }
{
    (instant + EPOCH) as u128
}

/// Appends an instant, given in nanoseconds from 1970-01-01T00:00:00 in UTC, as `YEAR-MM-DD`, with `Thh:mm:ss`, the places
/// of a fraction up to the last that is not 0, and `Z` where it is no midnight. A year has at least four digits, and `-`
/// below 0. An instant before -10000-12-31 or behind 10000-01-01, which no date that is read has, is appended as its
/// number of nanoseconds.
pub fn append_instant(instant: i128, line: &mut Vec<u8>) -> Result<(), AllocError>
    ensures { OnOk result (line.new.items ≡ line.old.items ++ spec.instant_text instant) }
{
    if !is_in_reach(instant) {
        return line.extend_from_slice(Buffer::new().format(instant).as_bytes());
    }
    append_moment(since_start(instant), line)
}
