// The forms of dates, and the datatypes that ask for them.
ghost use Rattle.std.specs.Prelude.{◌≡◌, ◌<◌, length};
ghost use Rattle.time_primitive.specs.Forms.{datatype_in};

use rdf_vocabulary::{xsd_date, xsd_date_time, xsd_g_year, xsd_g_year_month, xsd_string};

/// A form of a date.
#[derive(Clone, Copy, PartialEq, Eq, Debug)]
pub enum Form {
    GYear,
    GYearMonth,
    Date,
    DateTime,
}

/// What a datatype asks of a text: one form, or any.
#[derive(Clone, Copy, PartialEq, Eq, Debug)]
pub enum Datatype {
    Typed(Form),
    Text,
}

/// The datatype of dates with this IRI.
pub fn datatype_of(iri: &str) -> Option<Datatype>
    ensures { result ≡ datatype_in iri.now }
{
    if xsd_g_year() == iri {
        Some(Datatype::Typed(Form::GYear))
    } else if xsd_g_year_month() == iri {
        Some(Datatype::Typed(Form::GYearMonth))
    } else if xsd_date() == iri {
        Some(Datatype::Typed(Form::Date))
    } else if xsd_date_time() == iri {
        Some(Datatype::Typed(Form::DateTime))
    } else if xsd_string() == iri {
        Some(Datatype::Text)
    } else {
        None
    }
}
