//! Dates of XML Schema as instants.
#![tactic(auto)]

ghost use Rattle.std.specs.Prelude.{◌≡◌, ◌<◌, ◌^◌, pos, neg_ℤ, ◌<ℤ◌, IfOk, IfNone, length};
ghost use Rattle.time_primitive.specs.Parts.{IsPlaced};
ghost use Rattle.time_primitive.specs.Dates.{date_of, by_parts, fault_in};
ghost use Rattle.time_primitive.specs.Dates as spec;
ghost use Rattle.jiff_core.specs.Calendar.{IsDate};

mod dates;
mod form;
pub mod laws;
mod machine;
mod parts;

use crate::dates::{find_missing, instant, is_whole_offset};
use crate::form::datatype_of;
use crate::machine::read_form;
use crate::parts::{Parts, parts_in};

/// The bound of a time that a date stands for.
#[derive(Clone, Copy, PartialEq, Eq, Debug)]
pub enum Side {
    Lower,
    Upper,
}

/// Why a text is no date.
#[derive(Clone, Copy, PartialEq, Eq, Debug)]
pub enum DateKind {
    Datatype,
    Form,
    Year,
    Day,
    Fraction,
    Offset,
}

/// Why a text is no date, with the place of the fault as a count of bytes.
#[derive(Clone, Copy, PartialEq, Eq, Debug)]
pub struct DateFault {
    pub kind: DateKind,
    pub at: u32,
}

fn fault(kind: DateKind, at: usize) -> DateFault
    requires { at < 2 ^ 32 }
    ensures { result ≡ spec.fault kind at }
{
    DateFault {
        kind,
        at: at as u32,
    }
}

// The fault of the parts behind the year.
fn find_fault(year: i16, parts: Parts, size: usize) -> Option<DateFault>
    requires size { size < 2 ^ 32 }
    requires placed { IsPlaced size parts }
    requires year { parts.year ≡ Some year }
    ensures value { result ≡ fault_in year parts }
    ensures whole { IfNone result (IsDate year (pos parts.month) (pos parts.day)) }
{
    if let Some(place) = find_missing(year, parts) {
        return Some(fault(DateKind::Day, place));
    }
    if parts.decimals > 9 {
        return Some(fault(DateKind::Fraction, parts.year_end + 25));
    }
    match parts.offset {
        Some(offset) if !is_whole_offset(offset) => Some(fault(DateKind::Offset, offset.at)),
        _ => None,
    }
}

fn judge(parts: Parts, side: Side, size: usize) -> Result<i128, DateFault>
    requires size { size < 2 ^ 32 }
    requires placed { IsPlaced size parts }
    ensures value { result ≡ by_parts parts side }
    ensures range { IfOk result (λ t. (neg_ℤ (pos (2 ^ 100)) <ℤ t) × (t <ℤ pos (2 ^ 100))) }
{
    let Some(year) = parts.year else {
        return Err(fault(DateKind::Year, 0));
    };
    match find_fault(year, parts, size) {
        Some(fault) => Err(fault),
        None => Ok(instant(year, parts, side)),
    }
}

/// The instant of a date in nanoseconds from 1970-01-01T00:00:00 in UTC.
///
/// The datatype is the IRI of `xsd:gYear`, `xsd:gYearMonth`, `xsd:date` or `xsd:dateTime`, or of `xsd:string`, which may have
/// the form of any of them. Of a year, a month or a day the lower side is its first instant, and the upper side the first
/// instant after it. A date without an offset is in UTC.
///
/// A text that is no date makes a fault, the first of: another datatype, a text without the form, a year below -9999 or
/// above 9999, a month, day, hour, minute or second that doesn't exist, more than nine decimal places, an offset of more
/// than fourteen hours.
pub fn read_date(lexical: &str, datatype: &str, side: Side) -> Result<i128, DateFault>
    requires { length lexical.now < 2 ^ 32 }
    ensures value { result ≡ date_of lexical.now datatype.now side }
    ensures range { IfOk result (λ t. (neg_ℤ (pos (2 ^ 100)) <ℤ t) × (t <ℤ pos (2 ^ 100))) }
{
    let Some(datatype) = datatype_of(datatype) else {
        return Err(fault(DateKind::Datatype, 0));
    };
    let text = lexical.as_bytes();
    match read_form(datatype, text) {
        Ok(form) => judge(parts_in(form, text), side, text.len()),
        Err(at) => Err(fault(DateKind::Form, at)),
    }
}
