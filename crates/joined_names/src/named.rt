// What the terms of a file stand for.
ghost use Rattle.std.specs.Prelude.{◌≡◌, IfSome};
ghost use Rattle.std.specs.Option.{option_map};
ghost use Rattle.joined_names.specs.Values.{value, value_triple};
ghost use Rattle.joined_names.specs.Named.{value_of, values_of, IsNamed, AreNamed};

use rdf_terms::{Literal, Names, Term, Triple};

/// What a term stands for, with its number.
#[derive(Clone, Copy)]
pub enum Named<'a> {
    Iri(u32, &'a str),
    Blank(u32),
    Lit(u32, &'a Literal),
}

/// What the terms of a triple stand for.
#[derive(Clone, Copy)]
pub struct NamedTriple<'a> {
    pub s: Named<'a>,
    pub p: Named<'a>,
    pub o: Named<'a>,
}

// What a term stands for, or None where its name is not among these.
fn named_term<'a>(names: &'a Names, term: Term) -> Option<Named<'a>>
    ensures value { option_map value_of result ≡ value names.now term }
    ensures named { IfSome result (λ x. IsNamed names.now x) }
{
    match term {
        Term::Iri(n) => match names.get_iri(n) {
            Some(text) => Some(Named::Iri(n, text)),
            None => None,
        },
        Term::Blank(n) => Some(Named::Blank(n)),
        Term::Lit(n) => match names.get_literal(n) {
            Some(literal) => Some(Named::Lit(n, literal)),
            None => None,
        },
    }
}

/// What the terms of a triple stand for, or None where a name is not among these.
pub fn named_triple<'a>(names: &'a Names, triple: Triple) -> Option<NamedTriple<'a>>
    ensures values { option_map (values_of triple.at) result ≡ value_triple names.now triple }
    ensures named { IfSome result (λ x. AreNamed names.now x) }
{
    let Some(s) = named_term(names, triple.s) else {
        return None;
    };
    let Some(p) = named_term(names, triple.p) else {
        return None;
    };
    let Some(o) = named_term(names, triple.o) else {
        return None;
    };
    Some(NamedTriple { s, p, o })
}
