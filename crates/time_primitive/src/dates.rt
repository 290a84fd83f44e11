// The parts of a date: the first that doesn't exist, and the instant of a whole one.
ghost use Rattle.std.specs.Prelude.{◌≡◌, ◌<◌, ◌≤◌, ◌+◌, ◌&&◌, ◌||◌, ◌==◌, not, nat_le, pos, neg_ℤ, ◌≤ℤ◌, ◌<ℤ◌, ◌+ℤ◌, ◌-ℤ◌, ◌*ℤ◌, ◌^◌, IfSome, IfOk, length};
ghost use Rattle.jiff_core.specs.Date.{epoch_day};
ghost use Rattle.jiff_core.specs.Calendar.{IsYear, IsDate, days_in_month, days_from_civil};
ghost use Rattle.time_primitive.specs.Parts.{IsPlaced};
ghost use Rattle.time_primitive.specs.Dates.{fits_hour, has_date, nonzero_place, missing_part, is_offset, day_of, time_of_day, offset_nanoseconds, instant_of};

use crate::Side;
use crate::form::Form;
use crate::parts::{Offset, Parts};
use jiff::civil::{Date, date};

// Whether the month of the year has this day.
fn is_day(year: i16, parts: Parts) -> bool
    requires year { IsYear year }
    requires month { (1 ≤ parts.month) × (parts.month ≤ 12) }
    ensures { result ≡ has_date year parts }
{
    if parts.day > 31 {
        return false;
    }
    match Date::new(year, parts.month as i8, parts.day as i8) {
        Ok(_) => true,
        Err(_) => false,
    }
}

// Whether a minute or a second exists; at hour 24 only zero does.
fn is_in_hour(parts: Parts, number: u16) -> bool
    ensures { result ≡ fits_hour parts number }
{
    number <= 59 && (parts.hour != 24 || number == 0)
}

/// The place of the first part that doesn't exist.
pub fn find_missing(year: i16, parts: Parts) -> Option<usize>
    requires year { IsYear year }
    requires end { parts.year_end ≤ 5 }
    requires nonzero { IfSome parts.first_nonzero (λ i. i < 2 ^ 32) }
    ensures { result ≡ missing_part year parts }
{
    let at = parts.year_end;
    if parts.month < 1 || parts.month > 12 {
        return Some(at + 1);
    }
    if !is_day(year, parts) {
        return Some(at + 4);
    }
    if parts.hour > 24 {
        return Some(at + 7);
    }
    if !is_in_hour(parts, parts.minute) {
        return Some(at + 10);
    }
    if !is_in_hour(parts, parts.second) {
        return Some(at + 13);
    }
    match parts.first_nonzero {
        Some(i) if parts.hour == 24 => Some(at + 16 + i),
        _ => None,
    }
}

/// Whether the offset has at most fourteen hours.
pub fn is_whole_offset(offset: Offset) -> bool
    ensures { result ≡ is_offset offset }
{
    offset.minutes <= 59 && (offset.hours <= 13 || (offset.hours == 14 && offset.minutes == 0))
}

fn number_of(day: Date) -> i64
    ensures value { result ≡ epoch_day day }
    ensures in_range { (neg_ℤ (pos 4_371_587) ≤ℤ result) × (result ≤ℤ pos 2_932_896) }
{
    day.to_plain().to_unix_epoch_day() as i64
}

// The day number of the side.
fn day_number(year: i16, parts: Parts, side: Side) -> i64
    requires { IsDate year (pos parts.month) (pos parts.day) }
    ensures value { result ≡ day_of parts.form year parts side }
    ensures in_range { (neg_ℤ (pos 4_371_587) ≤ℤ result) × (result ≤ℤ pos 2_932_897) }
{
    let first = date(year, parts.month as i8, parts.day as i8);
    match (parts.form, side) {
        (Form::DateTime, _) | (_, Side::Lower) => number_of(first),
        (Form::GYear, Side::Upper) => number_of(first.last_of_year()) + 1,
        (Form::GYearMonth, Side::Upper) => number_of(first.last_of_month()) + 1,
        (Form::Date, Side::Upper) => number_of(first) + 1,
    }
}

// In nanoseconds.
fn clock(parts: Parts) -> i128
    ensures value { result ≡ pos (time_of_day parts) }
    ensures in_range { (pos 0 ≤ℤ result) × (result <ℤ pos (2 ^ 80)) }
{
    let minutes = parts.hour as i128 * 60 + parts.minute as i128;
    (minutes * 60 + parts.second as i128) * 1_000_000_000 + parts.nanosecond as i128
}

// In nanoseconds.
fn shift(offset: Option<Offset>) -> i128
    ensures value { result ≡ offset_nanoseconds offset }
    ensures in_range { (neg_ℤ (pos (2 ^ 80)) <ℤ result) × (result <ℤ pos (2 ^ 80)) }
{
    match offset {
        None => 0,
        Some(offset) => {
            let size = (offset.hours as i128 * 60 + offset.minutes as i128) * 60_000_000_000;
            if offset.negative { -size } else { size }
        }
    }
}

fn total(day: i64, clock: i128, shift: i128) -> i128
    requires day { (neg_ℤ (pos 4_371_587) ≤ℤ day) × (day ≤ℤ pos 2_932_897) }
    requires clock { (pos 0 ≤ℤ clock) × (clock <ℤ pos (2 ^ 80)) }
    requires shift { (neg_ℤ (pos (2 ^ 80)) <ℤ shift) × (shift <ℤ pos (2 ^ 80)) }
    ensures value { result ≡ (day *ℤ pos 86_400_000_000_000 +ℤ clock) -ℤ shift }
    ensures in_range { (neg_ℤ (pos (2 ^ 100)) <ℤ result) × (result <ℤ pos (2 ^ 100)) }
{
    day as i128 * 86_400_000_000_000 + clock - shift
}

/// The instant of the side, in nanoseconds from 1970-01-01T00:00:00 in UTC.
pub fn instant(year: i16, parts: Parts, side: Side) -> i128
    requires { IsDate year (pos parts.month) (pos parts.day) }
    ensures value { result ≡ instant_of year parts side }
    ensures in_range { (neg_ℤ (pos (2 ^ 100)) <ℤ result) × (result <ℤ pos (2 ^ 100)) }
{
    total(
        day_number(year, parts, side),
        clock(parts),
        shift(parts.offset),
    )
}
