// The parts of a text that has a form.
ghost use Rattle.std.specs.Prelude.{◌≡◌, ◌<◌, ◌≤◌, ◌+◌, ◌^◌, length, drop, pos, neg_ℤ, min, position, slice_index, ◌==◌, not, cond, IfSome, ◌≤ℤ◌, ◌-◌};
ghost use Rattle.time_primitive.specs.Parts.{digit_at, pair_at, places, is_digit_byte, digits_of, is_negative, sign_length, year_digits, year_end, year_number, year_of, has_month, has_day, has_time, fraction_of, zone_place, offset_at, parts_of, AreDigits, IsPlaced};

use crate::form::Form;

/// An offset from UTC, with the place of its sign.
#[derive(Clone, Copy, PartialEq, Eq, Debug)]
pub struct Offset {
    pub at: usize,
    pub negative: bool,
    pub hours: u16,
    pub minutes: u16,
}

/// The parts of a date as they are written; those that its form lacks are the first ones.
#[derive(Clone, Copy, PartialEq, Eq, Debug)]
pub struct Parts {
    pub form: Form,
    /// None where it is below -9999 or above 9999.
    pub year: Option<i16>,
    /// The length of the year with its sign, from which the places of all other parts are counted.
    pub year_end: usize,
    pub month: u16,
    pub day: u16,
    pub hour: u16,
    pub minute: u16,
    pub second: u16,
    /// The first nine decimal places of the second.
    pub nanosecond: u64,
    pub decimals: usize,
    /// The first decimal place that isn't zero.
    pub first_nonzero: Option<usize>,
    pub offset: Option<Offset>,
}

fn byte_at(text: &[u8], i: usize) -> u8
    ensures { result ≡ slice_index text.now i }
{
    match text.get(i) {
        Some(byte) => *byte,
        None => 0,
    }
}

fn digit(text: &[u8], i: usize) -> u16
    ensures value { result ≡ digit_at text.now i }
    ensures in_range { result < 208 }
{
    byte_at(text, i).saturating_sub(48) as u16
}

fn pair(text: &[u8], i: usize) -> u16
    requires { i < 2 ^ 63 }
    ensures { result ≡ pair_at text.now i }
{
    digit(text, i) * 10 + digit(text, i + 1)
}

fn is_digit(byte: u8) -> bool
    ensures { result ≡ is_digit_byte byte }
{
    48 <= byte && byte <= 57
}

// The digits at the front.
fn digits(text: &[u8]) -> &[u8]
    ensures { result.now ≡ digits_of text.now }
{
    for (i, byte) in text.iter().enumerate() {
        if !is_digit(*byte) {
            return &text[..i];
        }
    }
    text
}

// What stands from the place on.
fn behind(text: &[u8], place: usize) -> &[u8]
    ensures { result.now ≡ drop place text.now }
{
    if place <= text.len() {
        &text[place..]
    } else {
        &[]
    }
}

// The number of at most four digits.
fn number(digits: &[u8]) -> u16
    requires few { length digits.now ≤ 4 }
    requires digits { AreDigits digits.now }
    ensures value { result ≡ places digits.now (length digits.now) }
    ensures in_range { result ≤ 9999 }
{
    let mut value = 0;
    for i in 0..digits.len() {
        value = value * 10 + digit(digits, i);
    }
    value
}

fn sign_len(text: &[u8]) -> usize
    ensures value { result ≡ sign_length text.now }
    ensures in_range { result ≤ 1 }
{
    if byte_at(text, 0) == b'-' { 1 } else { 0 }
}

fn year_digits_of(text: &[u8]) -> &[u8]
    ensures { result.now ≡ year_digits text.now }
{
    digits(behind(text, sign_len(text)))
}

fn year(text: &[u8]) -> Option<i16>
    ensures value { result ≡ year_of text.now }
    ensures in_range { IfSome result (λ y. (length (year_digits text.now) ≤ 4) × (neg_ℤ (pos 9999) ≤ℤ y) × (y ≤ℤ pos 9999)) }
{
    let digits = year_digits_of(text);
    if digits.len() > 4 {
        return None;
    }
    let number = number(digits) as i16;
    if byte_at(text, 0) == b'-' {
        Some(-number)
    } else {
        Some(number)
    }
}

// The first nine decimal places.
fn nanoseconds(fraction: &[u8]) -> u64
    ensures { result ≡ places fraction.now 9 }
{
    let place = |i: usize| -> u64 { digit(fraction, i) as u64 };
    place(0) * 100_000_000
        + place(1) * 10_000_000
        + place(2) * 1_000_000
        + place(3) * 100_000
        + place(4) * 10_000
        + place(5) * 1_000
        + place(6) * 100
        + place(7) * 10
        + place(8)
}

fn offset_from(text: &[u8], place: usize) -> Option<Offset>
    requires { place < 2 ^ 62 }
    ensures value { result ≡ offset_at text.now place }
    ensures there { IfSome result (λ o. o.at ≡ place) }
{
    let sign = byte_at(text, place);
    if sign != b'+' && sign != b'-' {
        return None;
    }
    Some(Offset {
        at: place,
        negative: sign == b'-',
        hours: pair(text, place + 1),
        minutes: pair(text, place + 4),
    })
}

fn fraction_digits(text: &[u8], form: Form, at: usize) -> &[u8]
    requires end { at ≡ year_end text.now }
    requires room { at < 2 ^ 62 }
    ensures { result.now ≡ fraction_of form text.now }
{
    if form == Form::DateTime && byte_at(text, at + 15) == b'.' {
        digits(behind(text, at + 16))
    } else {
        &[]
    }
}

fn zone_start(text: &[u8], form: Form, at: usize, decimals: usize) -> usize
    requires end { at ≡ year_end text.now }
    requires room { at < 2 ^ 62 }
    requires fraction { decimals ≡ length (fraction_of form text.now) }
    requires more { decimals < 2 ^ 62 }
    ensures value { result ≡ zone_place form text.now }
    ensures near { result ≤ at + 16 + decimals }
{
    match form {
        Form::GYear => at,
        Form::GYearMonth => at + 3,
        Form::Date => at + 6,
        Form::DateTime if byte_at(text, at + 15) == b'.' => at + 16 + decimals,
        Form::DateTime => at + 15,
    }
}

fn is_dated(form: Form) -> bool
    ensures { result ≡ has_day form }
{
    matches!(form, Form::Date | Form::DateTime)
}

// The number of two digits, or another where the form lacks the part.
fn pair_or(text: &[u8], place: usize, is_there: bool, other: u16) -> u16
    requires { place < 2 ^ 63 }
    ensures { result ≡ cond is_there (pair_at text.now place) other }
{
    if is_there { pair(text, place) } else { other }
}

fn first_nonzero(digits: &[u8]) -> Option<usize>
    ensures value { result ≡ position (λ b. not (b == 48)) digits.now }
    ensures in_range { IfSome result (λ i. i < length digits.now) }
{
    digits.iter().position(|digit| *digit != b'0')
}

// The parts by the end of the year and the digits of the fraction.
fn assembled(form: Form, text: &[u8], at: usize, fraction: &[u8]) -> Parts
    requires end { at ≡ year_end text.now }
    requires fraction { fraction.now ≡ fraction_of form text.now }
    requires room { at < 2 ^ 33 }
    requires more { length fraction.now < 2 ^ 33 }
    ensures value { result ≡ parts_of form text.now }
    ensures first { IfSome result.first_nonzero (λ i. i < result.decimals) }
    ensures zone { IfSome result.offset (λ o. o.at ≤ result.year_end + 16 + result.decimals) }
{
    let is_timed = form == Form::DateTime;
    Parts {
        form,
        year: year(text),
        year_end: at,
        month: pair_or(text, at + 1, form != Form::GYear, 1),
        day: pair_or(text, at + 4, is_dated(form), 1),
        hour: pair_or(text, at + 7, is_timed, 0),
        minute: pair_or(text, at + 10, is_timed, 0),
        second: pair_or(text, at + 13, is_timed, 0),
        nanosecond: nanoseconds(fraction),
        decimals: fraction.len(),
        first_nonzero: first_nonzero(fraction),
        offset: offset_from(text, zone_start(text, form, at, fraction.len())),
    }
}

/// The parts of a text that has the form.
pub fn parts_in(form: Form, text: &[u8]) -> Parts
    requires { length text.now < 2 ^ 32 }
    ensures value { result ≡ parts_of form text.now }
    ensures placed { IsPlaced (length text.now) result }
{
    let at = sign_len(text) + year_digits_of(text).len();
    let fraction = fraction_digits(text, form, at);
    assembled(form, text, at, fraction)
}
