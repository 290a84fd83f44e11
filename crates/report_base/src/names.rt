// The kinds of faults of dates as they are printed.
ghost use Rattle.std.specs.Prelude.{◌≡◌};
ghost use Rattle.report_base.specs.Names as spec;

use time_primitive::DateKind;

/// The name of a fault of a date.
pub(crate) fn date_kind_name(kind: DateKind) -> &'static str
    ensures { result.now ≡ spec.date_kind_name kind }
{
    match kind {
        DateKind::Datatype => "Datatype",
        DateKind::Form => "Form",
        DateKind::Year => "Year",
        DateKind::Day => "Day",
        DateKind::Fraction => "Fraction",
        DateKind::Offset => "Offset",
    }
}
