//! The IRIs of RDF 1.1 and of the datatypes of XML Schema that the readers, the writer and the profile name.
#![tactic(auto)]

ghost use Rattle.std.specs.Prelude.{◌≡◌};
ghost use Rattle.rdf_vocabulary.specs.Iris as spec;

/// `rdf:type`.
#[tactic(auto, unfolding(crate::specs::Iris::rdf_type))]
pub fn rdf_type() -> &'static str
    ensures { result.now ≡ spec.rdf_type }
{
    "http://www.w3.org/1999/02/22-rdf-syntax-ns#type"
}

/// `rdf:first`.
#[tactic(auto, unfolding(crate::specs::Iris::rdf_first))]
pub fn rdf_first() -> &'static str
    ensures { result.now ≡ spec.rdf_first }
{
    "http://www.w3.org/1999/02/22-rdf-syntax-ns#first"
}

/// `rdf:rest`.
#[tactic(auto, unfolding(crate::specs::Iris::rdf_rest))]
pub fn rdf_rest() -> &'static str
    ensures { result.now ≡ spec.rdf_rest }
{
    "http://www.w3.org/1999/02/22-rdf-syntax-ns#rest"
}

/// `rdf:nil`.
#[tactic(auto, unfolding(crate::specs::Iris::rdf_nil))]
pub fn rdf_nil() -> &'static str
    ensures { result.now ≡ spec.rdf_nil }
{
    "http://www.w3.org/1999/02/22-rdf-syntax-ns#nil"
}

/// `rdf:langString`.
#[tactic(auto, unfolding(crate::specs::Iris::rdf_lang_string))]
pub fn rdf_lang_string() -> &'static str
    ensures { result.now ≡ spec.rdf_lang_string }
{
    "http://www.w3.org/1999/02/22-rdf-syntax-ns#langString"
}

/// `xsd:string`.
#[tactic(auto, unfolding(crate::specs::Iris::xsd_string))]
pub fn xsd_string() -> &'static str
    ensures { result.now ≡ spec.xsd_string }
{
    "http://www.w3.org/2001/XMLSchema#string"
}

/// `xsd:boolean`.
#[tactic(auto, unfolding(crate::specs::Iris::xsd_boolean))]
pub fn xsd_boolean() -> &'static str
    ensures { result.now ≡ spec.xsd_boolean }
{
    "http://www.w3.org/2001/XMLSchema#boolean"
}

/// `xsd:integer`.
#[tactic(auto, unfolding(crate::specs::Iris::xsd_integer))]
pub fn xsd_integer() -> &'static str
    ensures { result.now ≡ spec.xsd_integer }
{
    "http://www.w3.org/2001/XMLSchema#integer"
}

/// `xsd:decimal`.
#[tactic(auto, unfolding(crate::specs::Iris::xsd_decimal))]
pub fn xsd_decimal() -> &'static str
    ensures { result.now ≡ spec.xsd_decimal }
{
    "http://www.w3.org/2001/XMLSchema#decimal"
}

/// `xsd:double`.
#[tactic(auto, unfolding(crate::specs::Iris::xsd_double))]
pub fn xsd_double() -> &'static str
    ensures { result.now ≡ spec.xsd_double }
{
    "http://www.w3.org/2001/XMLSchema#double"
}

/// `xsd:gYear`.
#[tactic(auto, unfolding(crate::specs::Iris::xsd_g_year))]
pub fn xsd_g_year() -> &'static str
    ensures { result.now ≡ spec.xsd_g_year }
{
    "http://www.w3.org/2001/XMLSchema#gYear"
}

/// `xsd:gYearMonth`.
#[tactic(auto, unfolding(crate::specs::Iris::xsd_g_year_month))]
pub fn xsd_g_year_month() -> &'static str
    ensures { result.now ≡ spec.xsd_g_year_month }
{
    "http://www.w3.org/2001/XMLSchema#gYearMonth"
}

/// `xsd:date`.
#[tactic(auto, unfolding(crate::specs::Iris::xsd_date))]
pub fn xsd_date() -> &'static str
    ensures { result.now ≡ spec.xsd_date }
{
    "http://www.w3.org/2001/XMLSchema#date"
}

/// `xsd:dateTime`.
#[tactic(auto, unfolding(crate::specs::Iris::xsd_date_time))]
pub fn xsd_date_time() -> &'static str
    ensures { result.now ≡ spec.xsd_date_time }
{
    "http://www.w3.org/2001/XMLSchema#dateTime"
}
