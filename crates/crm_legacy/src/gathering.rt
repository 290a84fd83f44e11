// Statements added to records.
ghost use Rattle.std.specs.Prelude.{◌≡◌, ◌<◌, ◌≤◌, ◌^◌, length, IfOk, OnOk, IfErr, IsErrOf, Ok};
ghost use Rattle.rdf_terms.specs.declared.names.NameFault.{NameFault};
ghost use Rattle.rdf_terms.specs.Naming.{iri_number, name_count, with_iri};
ghost use Rattle.crm_legacy.specs.Modern as spec;
ghost use Rattle.crm_legacy.specs.Causes as causes;
ghost use Rattle.crm_legacy.specs.Causes.{IsCause};

use crm_outside::Text;
use rdf_terms::{Code, Literal, NameFault, Names, Records, Refusal, Term, Triple, TripleFault};
use std::alloc::{AllocError, Global};

/// Why records have no form in today's properties.
#[derive(Clone, Copy, Debug, PartialEq, Eq)]
pub enum ModernFault {
    /// They would have too many distinct IRIs and literals (L5) or triples (L4); the place is that of the triple that
    /// passes the limit.
    Refused(Refusal),
    /// Memory was wanting.
    Memory,
}

impl From<AllocError> for ModernFault {
    ghost use Rattle.std.specs.Prelude.{◌≡◌};
    ghost use Rattle.crm_legacy.specs.declared.gathering.ModernFault.TheVariants.{Memory};

    ghost from_gives = { λ _ f. f ≡ Memory };

    fn from(_: AllocError) -> ModernFault {
        ModernFault::Memory
    }
}

fn iri_at(names: &Names, n: u32) -> &str
    ensures { result.now ≡ spec.iri_text names.now (Term.Iri n) }
{
    match names.get_iri(n) {
        Some(iri) => iri,
        None => "",
    }
}

/// The IRI of a predicate; one without a name stands for the empty one.
pub fn predicate_iri(names: &Names, predicate: Term) -> &str
    ensures { result.now ≡ spec.iri_text names.now predicate }
{
    match predicate {
        Term::Iri(n) => iri_at(names, n),
        Term::Blank(_) | Term::Lit(_) => "",
    }
}

fn copied(alloc: Global, literal: &Literal) -> Result<Literal, AllocError>
    ensures { IfOk result (λ l. l ≡ literal.now) }
{
    Ok(Literal {
        lexical: Text::from_str(alloc, literal.lexical.as_str())?,
        datatype: Text::from_str(alloc, literal.datatype.as_str())?,
        tag: Text::from_str(alloc, literal.tag.as_str())?,
    })
}

fn no_literal(alloc: Global) -> Result<Literal, AllocError>
    ensures { IfOk result (λ l. l ≡ spec.no_literal) }
{
    Ok(Literal {
        lexical: Text::from_str(alloc, "")?,
        datatype: Text::from_str(alloc, "")?,
        tag: Text::from_str(alloc, "")?,
    })
}

fn literal_at(alloc: Global, names: &Names, n: u32) -> Result<Literal, AllocError>
    ensures literal { IfOk result (λ l. l ≡ spec.literal_at names.now n) }
    ensures short { IfOk result (λ l. length l.lexical < 2 ^ 32) }
{
    match names.get_literal(n) {
        Some(literal) => copied(alloc, literal),
        None => no_literal(alloc),
    }
}

fn add_literal(alloc: Global, old: &Names, names: &mut Names, n: u32) -> Result<Term, NameFault>
    ensures number { IfOk result (λ t. t ≡ spec.renamed old.now names.old (Term.Lit n)) }
    ensures named { OnOk result (names.new ≡ spec.with_name old.now names.old (Term.Lit n)) }
    ensures within { OnOk result (name_count names.new ≤ 262144) }
    ensures too_many { IsErrOf result NameFault.TooMany → 262144 < name_count (spec.with_name old.now names.old (Term.Lit n)) }
{
    let Ok(literal) = literal_at(alloc, old, n) else {
        return Err(NameFault::Memory);
    };
    names.literal(literal)
}

fn add_iri(names: &mut Names, iri: &str) -> Result<Term, NameFault>
    ensures number { IfOk result (λ t. t ≡ Term.Iri (iri_number names.old iri.now)) }
    ensures named { OnOk result (names.new ≡ with_iri names.old iri.now) }
    ensures within { OnOk result (name_count names.new ≤ 262144) }
    ensures too_many { IsErrOf result NameFault.TooMany → 262144 < name_count (with_iri names.old iri.now) }
{
    names.iri(iri)
}

// The name of a term is added to other names; the answer is the term by these.
fn add_term(alloc: Global, old: &Names, names: &mut Names, term: Term) -> Result<Term, NameFault>
    requires { name_count names.old ≤ 262144 }
    ensures number { IfOk result (λ t. t ≡ spec.renamed old.now names.old term) }
    ensures named { OnOk result (names.new ≡ spec.with_name old.now names.old term) }
    ensures within { OnOk result (name_count names.new ≤ 262144) }
    ensures too_many { IsErrOf result NameFault.TooMany → 262144 < name_count (spec.with_name old.now names.old term) }
{
    match term {
        Term::Iri(n) => add_iri(names, iri_at(old, n)),
        Term::Blank(n) => Ok(Term::Blank(n)),
        Term::Lit(n) => add_literal(alloc, old, names, n),
    }
}

// The names of a statement are added to other names; the answer is its triple by these.
fn add_names(
    alloc: Global,
    old: &Names,
    names: &mut Names,
    triple: Triple,
    predicate: &str,
) -> Result<Triple, NameFault>
    ensures triple { IfOk result (λ t. t ≡ spec.as_triple old.now names.old (spec.with_predicate triple predicate.now)) }
    ensures named { OnOk result (names.new ≡ spec.with_names old.now names.old (spec.with_predicate triple predicate.now)) }
    ensures within { OnOk result (name_count names.new ≤ 262144) }
    ensures too_many { IsErrOf result NameFault.TooMany → 262144 < name_count (spec.with_names old.now names.old (spec.with_predicate triple predicate.now)) }
{
    let _within = names.len();
    let s = add_term(alloc, old, names, triple.s)?;
    let p = add_iri(names, predicate)?;
    let o = add_term(alloc, old, names, triple.o)?;
    Ok(Triple {
        s,
        p,
        o,
        at: triple.at,
    })
}

fn name_fault(fault: NameFault, at: u64) -> ModernFault
    ensures { result ≡ causes.name_fault fault at }
{
    match fault {
        NameFault::TooMany => ModernFault::Refused(Refusal { code: Code::L5, at }),
        NameFault::Memory => ModernFault::Memory,
    }
}

fn triple_fault(fault: TripleFault, at: u64) -> ModernFault
    ensures { result ≡ causes.triple_fault fault at }
{
    match fault {
        TripleFault::TooMany => ModernFault::Refused(Refusal { code: Code::L4, at }),
        TripleFault::Memory => ModernFault::Memory,
    }
}

/// Adds what a triple says with a predicate, unless a triple says it.
pub fn add_statement(
    alloc: Global,
    old: &Names,
    modern: &mut Records,
    triple: Triple,
    predicate: &str,
) -> Result<(), ModernFault>
    ensures ok { OnOk result (spec.with_statement old.now modern.old (spec.with_predicate triple predicate.now) ≡ Ok modern.new) }
    ensures err { IfErr result (IsCause (spec.with_statement old.now modern.old (spec.with_predicate triple predicate.now))) }
{
    let renamed = match add_names(alloc, old, &mut modern.names, triple, predicate) {
        Ok(renamed) => renamed,
        Err(fault) => return Err(name_fault(fault, triple.at)),
    };
    match modern.triples.add(renamed) {
        Ok(_) => Ok(()),
        Err(fault) => Err(triple_fault(fault, triple.at)),
    }
}
