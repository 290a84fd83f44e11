// Names and triples, as many as may be held.
ghost use Rattle.std.specs.Prelude.{◌≡◌, IfOk, OnOk};
ghost use Rattle.rdf_reading.specs.Room as spec;

use rdf_terms::{Literal, NameFault, Names, Term, Triple, TripleFault, Triples};
use std::alloc::AllocError;

/// The term of an IRI, which is named if there is room.
pub fn iri_term(names: &mut Names, text: &str) -> Result<Option<Term>, AllocError>
    ensures term { IfOk result (λ t. t ≡ spec.iri_term names.old text.now) }
    ensures names { OnOk result (names.new ≡ spec.iri_names names.old text.now) }
{
    match names.iri(text) {
        Ok(term) => Ok(Some(term)),
        Err(NameFault::TooMany) => Ok(None),
        Err(NameFault::Memory) => Err(AllocError),
    }
}

/// The term of a literal, which is named if there is room.
pub fn literal_term(names: &mut Names, value: Literal) -> Result<Option<Term>, AllocError>
    ensures term { IfOk result (λ t. t ≡ spec.literal_term names.old value) }
    ensures names { OnOk result (names.new ≡ spec.literal_names names.old value) }
{
    if value.lexical.as_str().len() > 0xFFFF_FFFF {
        return Err(AllocError);
    }
    match names.literal(value) {
        Ok(term) => Ok(Some(term)),
        Err(NameFault::TooMany) => Ok(None),
        Err(NameFault::Memory) => Err(AllocError),
    }
}

/// Adds a triple if there is room, and says whether there is.
pub fn add_triple(triples: &mut Triples, triple: Triple) -> Result<bool, AllocError>
    ensures room { IfOk result (λ room. room ≡ spec.has_room triples.old triple) }
    ensures triples { OnOk result (triples.new ≡ spec.with_triple_in_room triples.old triple) }
{
    match triples.add(triple) {
        Ok(_) => Ok(true),
        Err(TripleFault::TooMany) => Ok(false),
        Err(TripleFault::Memory) => Err(AllocError),
    }
}
