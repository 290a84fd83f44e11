// The terms that the names of a file have among the joined ones.
ghost use Rattle.std.specs.Prelude.{◌≡◌, ◌+◌, ◌<◌, ◌≤◌, ◌^◌, ℕ, length, IfOk, OnOk, OnErr, IsErrOf, slice_get, Some, None, true, replicate};
ghost use Rattle.rdf_terms.specs.Naming.{NameLists, has_iri, has_literal, with_iri, iri_number, with_literal, literal_number, name_count};
ghost use Rattle.joined_names.specs.Values.{names_with, names_with_three, term_of, terms_of, moved_value, moved};
ghost use Rattle.joined_names.specs.Named.{value_of, values_of, IsNamed, AreNamed, IsTable};

use crate::named::{Named, NamedTriple};
use crm_outside::Text;
use rdf_terms::{Literal, NameFault, Names, Term};
use std::alloc::{AllocError, Global};

/// By the number of an IRI or a literal of a file, its term among the joined names, once it came.
#[derive(Drop)]
pub struct NameTable {
    pub iris: Vec<Option<Term>>,
    pub literals: Vec<Option<Term>>,
}

fn copy_literal(alloc: Global, literal: &Literal) -> Result<Literal, AllocError>
    ensures { IfOk result (λ l. l ≡ literal.now) }
{
    Ok(Literal {
        lexical: Text::from_str(alloc, literal.lexical.as_str())?,
        datatype: Text::from_str(alloc, literal.datatype.as_str())?,
        tag: Text::from_str(alloc, literal.tag.as_str())?,
    })
}

// So many names of which none came.
fn no_terms(alloc: Global, count: usize) -> Result<Vec<Option<Term>>, AllocError>
    ensures { IfOk result (λ v. v.items ≡ replicate count None) }
{
    vec![in alloc; None; count]
}

impl NameTable {
    /// Of the names of a file, none of which came.
    pub fn new(alloc: Global, file: &Names) -> Result<NameTable, AllocError>
        ensures { IfOk result (λ n. (joined : NameLists) → IsTable file.now joined n) }
    {
        let count = file.len() as usize;
        Ok(NameTable {
            iris: no_terms(alloc, count)?,
            literals: no_terms(alloc, count)?,
        })
    }

    // The term of an IRI of the file.
    fn iri(&mut self, n: u32, text: &str, joined: &mut Names) -> Result<Term, NameFault>
        requires { (file : NameLists) × IsTable file joined.old self.old × (slice_get file.iris n ≡ Some text.now) }
        ensures term { IfOk result (λ t. t ≡ Term.Iri (iri_number joined.old text.now)) }
        ensures names { OnOk result (joined.new ≡ with_iri joined.old text.now) }
        ensures table { OnOk result ((file : NameLists) → slice_get file.iris n ≡ Some text.now → IsTable file joined.old self.old → IsTable file joined.new self.new) }
        ensures too_many { IsErrOf result NameFault.TooMany → 262144 < name_count (with_iri joined.old text.now) }
        ensures within { name_count joined.old ≤ 262144 → name_count joined.new ≤ 262144 }
    {
        if let Some(term) = self.iris[n as usize] {
            return Ok(term);
        }
        let term = match joined.iri(text) {
            Ok(term) => term,
            Err(fault) => return Err(fault),
        };
        self.iris[n as usize] = Some(term);
        Ok(term)
    }

    // The term of a literal of the file.
    fn literal(
        &mut self,
        alloc: Global,
        n: u32,
        literal: &Literal,
        joined: &mut Names,
    ) -> Result<Term, NameFault>
        requires table { (file : NameLists) × IsTable file joined.old self.old × (slice_get file.literals n ≡ Some literal.now) }
        requires short { length literal.now.lexical < 2 ^ 32 }
        ensures term { IfOk result (λ t. t ≡ Term.Lit (literal_number joined.old literal.now)) }
        ensures names { OnOk result (joined.new ≡ with_literal joined.old literal.now) }
        ensures table { OnOk result ((file : NameLists) → slice_get file.literals n ≡ Some literal.now → IsTable file joined.old self.old → IsTable file joined.new self.new) }
        ensures too_many { IsErrOf result NameFault.TooMany → 262144 < name_count (with_literal joined.old literal.now) }
        ensures within { name_count joined.old ≤ 262144 → name_count joined.new ≤ 262144 }
    {
        if let Some(term) = self.literals[n as usize] {
            return Ok(term);
        }
        let Ok(copy) = copy_literal(alloc, literal) else {
            return Err(NameFault::Memory);
        };
        let term = match joined.literal(copy) {
            Ok(term) => term,
            Err(fault) => return Err(fault),
        };
        self.literals[n as usize] = Some(term);
        Ok(term)
    }

    // The term of a value of the file; its blank nodes stand behind so many.
    fn term(
        &mut self,
        alloc: Global,
        named: Named,
        blanks: u32,
        joined: &mut Names,
    ) -> Result<Term, NameFault>
        requires { (file : NameLists) × IsTable file joined.old self.old × IsNamed file named }
        ensures term { IfOk result (λ t. t ≡ term_of joined.old (moved_value blanks (value_of named.entry))) }
        ensures names { OnOk result (joined.new ≡ names_with joined.old (moved_value blanks (value_of named.entry))) }
        ensures table { OnOk result ((file : NameLists) → IsNamed file named.entry → IsTable file joined.old self.old → IsTable file joined.new self.new) }
        ensures too_many { IsErrOf result NameFault.TooMany → 262144 < name_count (names_with joined.old (moved_value blanks (value_of named.entry))) }
        ensures within { name_count joined.old ≤ 262144 → name_count joined.new ≤ 262144 }
    {
        match named {
            Named::Iri(n, text) => self.iri(n, text, joined),
            Named::Blank(n) => match n.checked_add(blanks) {
                Some(n) => Ok(Term::Blank(n)),
                None => Err(NameFault::Memory),
            },
            Named::Lit(n, literal) => self.literal(alloc, n, literal, joined),
        }
    }

    /// The terms of a triple of the file; its blank nodes stand behind so many.
    pub fn terms(
        &mut self,
        alloc: Global,
        named: NamedTriple,
        blanks: u32,
        joined: &mut Names,
    ) -> Result<(Term, Term, Term), NameFault>
        requires { (file : NameLists) × IsTable file joined.old self.old × AreNamed file named }
        ensures terms { IfOk result (λ ts. ts ≡ terms_of joined.old (moved blanks 0 (values_of 0 named.entry))) }
        ensures names { OnOk result (joined.new ≡ names_with_three joined.old (moved blanks 0 (values_of 0 named.entry))) }
        ensures table { OnOk result ((file : NameLists) → AreNamed file named.entry → IsTable file joined.old self.old → IsTable file joined.new self.new) }
        ensures too_many { IsErrOf result NameFault.TooMany → 262144 < name_count (names_with_three joined.old (moved blanks 0 (values_of 0 named.entry))) }
        ensures within { name_count joined.old ≤ 262144 → name_count joined.new ≤ 262144 }
    {
        let s = match self.term(alloc, named.s, blanks, joined) {
            Ok(term) => term,
            Err(fault) => return Err(fault),
        };
        let p = match self.term(alloc, named.p, blanks, joined) {
            Ok(term) => term,
            Err(fault) => return Err(fault),
        };
        let o = match self.term(alloc, named.o, blanks, joined) {
            Ok(term) => term,
            Err(fault) => return Err(fault),
        };
        Ok((s, p, o))
    }
}
