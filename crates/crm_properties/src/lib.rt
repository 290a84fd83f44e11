//! The properties of the profile, and what the IRIs of CIDOC CRM and CRMarchaeo name.
//!
//! A name is recognised by its code: behind the longest namespace that fits, the rest up to its first `_`.
#![tactic(auto)]

ghost use Rattle.std.specs.Prelude.{◌≡◌, ◌<◌, ◌&&◌, ◌==◌, bytes_eq, option_map};
ghost use Rattle.crm_properties.specs.Names.{row_at, name_of, same_space, is_text, prop_of_text, class_in, class_of_iri_text, relation_iri};
ghost use Rattle.rdf_vocabulary.specs.Iris.{rdf_type};
ghost use Rattle.crm_properties.specs.PropertyNumbers.{is_typed_relation};

mod index;
mod names;
mod table;

use crate::names::name_of_iri;
use crm_classes::{ClassId, class_of_bytes};
use rdf_vocabulary::rdf_type;
use std::marker::Model;

/// How many properties the profile has.
const COUNT: u8 = 44;

/// Where the code of a name is looked for: in the namespace of the CRM, in those of CRMarchaeo, or the whole IRI.
#[derive(Clone, Copy, PartialEq, Eq, Debug)]
pub enum Space {
    Crm,
    Archaeo,
    Whole,
}

/// A property by its number, its place in the profile's table from 0 on.
#[derive(Clone, Copy, PartialEq, Eq, Debug)]
pub struct PropCode {
    number: u8,
}

impl Model for PropCode {
    ghost use Rattle.std.specs.Prelude.{ℕ, ◌<◌};

    ghost Value = { ℕ };

    ghost view = { λ c. c.number };

    ghost invariant = { λ c. c.number < 44 };

    ghost inverse = { λ n. record { number = n } };
}

impl PropCode {
    /// The place of the property in the profile's table, from 0.
    pub fn number(self) -> u8
        ensures value { result ≡ self }
        ensures in_range { result < 44 }
    {
        self.number
    }

    /// Whether it is one of the three typed relations AP13-before, AP13-after and AP13-same.
    pub fn is_typed_relation(self) -> bool
        ensures { result ≡ is_typed_relation self }
    {
        matches!(self.number, 17..=19)
    }
}

/// A property, or its inverse.
#[derive(Clone, Copy, PartialEq, Eq, Debug)]
pub struct Prop {
    pub code: PropCode,
    pub inverse: bool,
}

/// What a property's values are: instances of a class, texts or dates.
#[derive(Clone, Copy, PartialEq, Eq, Debug)]
pub enum RangeKind {
    Class(ClassId),
    Text,
    Date,
}

fn is_of(space: Space, text: &[u8], number: u8) -> bool
    requires { number < 44 }
    ensures { result ≡ (same_space (row_at number).space space && bytes_eq (row_at number).text text.now) }
{
    table::space(number) == space && table::text(number).as_bytes() == text
}

fn is_inverse_of(space: Space, text: &[u8], number: u8) -> bool
    requires { number < 44 }
    ensures { result ≡ (same_space (row_at number).space space && is_text (row_at number).inverse text.now) }
{
    table::space(number) == space && is_code(table::inverse(number), text)
}

fn is_code(code: Option<&str>, text: &[u8]) -> bool
    ensures { result ≡ is_text (option_map (λ x. x.now) code.entry) text.now }
{
    match code {
        Some(code) => code.as_bytes() == text,
        None => false,
    }
}

/// The property that the IRI names; None where it names none of the profile.
pub fn prop_of(iri: &str) -> Option<Prop>
    ensures { result ≡ prop_of_text iri.now }
{
    let name = name_of_iri(iri.as_bytes());
    let number = index::candidate(name.space, name.text);
    if number >= COUNT {
        return None;
    }
    let code = PropCode { number };
    if is_of(name.space, name.text, number) {
        return Some(Prop {
            code,
            inverse: false,
        });
    }
    if is_inverse_of(name.space, name.text, number) {
        return Some(Prop {
            code,
            inverse: true,
        });
    }
    None
}

fn class_in_space(space: Space, text: &[u8]) -> Option<ClassId>
    ensures { result ≡ class_in space text.now }
{
    match (space, text) {
        (Space::Crm, [b'E', ..]) | (Space::Archaeo, [b'A', ..]) => class_of_bytes(text),
        _ => None,
    }
}

/// The class of the profile that the IRI names; None where it names none.
pub fn class_of_iri(iri: &str) -> Option<ClassId>
    ensures { result ≡ class_of_iri_text iri.now }
{
    let name = name_of_iri(iri.as_bytes());
    class_in_space(name.space, name.text)
}

/// Whether the IRI is `rdf:type`.
pub fn is_type(iri: &str) -> bool
    ensures { result ≡ bytes_eq rdf_type iri.now }
{
    rdf_type() == iri
}

/// Whether the IRI is the class of relations that are nodes, `urn:crmtime:Relation`.
#[tactic(auto, unfolding(crate::specs::Names::relation_iri))]
pub fn is_relation(iri: &str) -> bool
    ensures { result ≡ bytes_eq relation_iri iri.now }
{
    "urn:crmtime:Relation" == iri
}

/// The domain of a property. That of AP7 is E1.
pub fn domain(p: PropCode) -> ClassId
    ensures { result ≡ (row_at p).domain }
{
    ClassId::from_number(table::domain(p.number))
}

/// The range of a property. That of AP7 is E1.
pub fn range(p: PropCode) -> RangeKind
    ensures { result ≡ (row_at p).range }
{
    table::range(p.number)
}
