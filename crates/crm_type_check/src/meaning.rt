// What the terms of a triple name.
ghost use Rattle.std.specs.Prelude.{◌≡◌};
ghost use Rattle.crm_type_check.specs.Meaning.{property_of, class_of, is_type, makes_relation};

use crm_classes::ClassId;
use crm_properties::{Prop, class_of_iri, is_relation, prop_of};
use rdf_terms::{Names, Term, Triple};

/// The property that the term names.
pub fn property_named(names: &Names, term: Term) -> Option<Prop>
    ensures { result ≡ property_of names.now term }
{
    let Term::Iri(number) = term else {
        return None;
    };
    match names.get_iri(number) {
        Some(iri) => prop_of(iri),
        None => None,
    }
}

/// The class that the term names.
pub fn class_named(names: &Names, term: Term) -> Option<ClassId>
    ensures { result ≡ class_of names.now term }
{
    let Term::Iri(number) = term else {
        return None;
    };
    match names.get_iri(number) {
        Some(iri) => class_of_iri(iri),
        None => None,
    }
}

/// Whether the triple gives its subject a type.
pub fn gives_type(names: &Names, triple: Triple) -> bool
    ensures { result ≡ is_type names.now triple }
{
    let Term::Iri(number) = triple.p else {
        return false;
    };
    match names.get_iri(number) {
        Some(iri) => crm_properties::is_type(iri),
        None => false,
    }
}

/// Whether the triple makes its subject a relation.
pub fn gives_relation(names: &Names, triple: Triple) -> bool
    ensures { result ≡ makes_relation names.now triple }
{
    if !gives_type(names, triple) {
        return false;
    }
    let Term::Iri(number) = triple.o else {
        return false;
    };
    match names.get_iri(number) {
        Some(iri) => is_relation(iri),
        None => false,
    }
}
