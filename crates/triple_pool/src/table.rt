// The tables of the first and the last number of each term, and of the number of each triple.
ghost use Rattle.std.specs.Prelude.{◌≡◌, ◌<◌, cond, IsSome};
ghost use Rattle.indexmap.specs.IndexMap.{spare, ContainsKey};
ghost use Rattle.rdf_terms.specs.declared.terms.Term.{Term};
ghost use Rattle.rdf_terms.specs.Terms.{same_term};
ghost use Rattle.rdf_terms.specs.contracts.terms.TermPartialEq.TheImpl.{ghosts};
ghost use Rattle.std.specs.Prelude.{Some};
ghost use Rattle.triple_pool.specs.Tables.{ends_in, number_in, key_of, same_key};

use crate::Ends;
use indexmap::IndexMap;
use rdf_terms::{Term, Triple};

// The entry of a term, or one with no numbers.
pub fn ends_of(table: &IndexMap<Term, Ends>, term: Term) -> Ends
    ensures { result ≡ ends_in table.now term }
{
    match table.get(&term) {
        Some(ends) => *ends,
        None => Ends {
            first: None,
            last: None,
        },
    }
}

// Writes the entry of a term, for which there is room.
pub fn put(table: &mut IndexMap<Term, Ends>, term: Term, ends: Ends)
    requires { 0 < spare table.old }
    ensures { (t : Term) → ends_in table.new t ≡ cond (same_term term t) ends (ends_in table.old t) }
{
    table.insert(term, ends).unwrap();
}

// Writes the entry of a term that has one.
pub fn replace(table: &mut IndexMap<Term, Ends>, term: Term, ends: Ends)
    requires { ContainsKey ghosts.eq table.old term }
    ensures { (t : Term) → ends_in table.new t ≡ cond (same_term term t) ends (ends_in table.old t) }
{
    table.insert(term, ends).unwrap();
}

// The number under which the three terms were added last.
pub fn number_of(numbers: &IndexMap<(Term, Term, Term), u32>, triple: Triple) -> Option<u32>
    ensures { result ≡ number_in numbers.now (key_of triple) }
{
    numbers.get(&(triple.s, triple.p, triple.o)).copied()
}

// Writes the number of the three terms, for which there is room.
pub fn put_number(numbers: &mut IndexMap<(Term, Term, Term), u32>, triple: Triple, number: u32)
    requires { 0 < spare numbers.old }
    ensures { (key : Term × Term × Term) → number_in numbers.new key ≡ cond (same_key (key_of triple) key) (Some number) (number_in numbers.old key) }
{
    numbers
        .insert((triple.s, triple.p, triple.o), number)
        .unwrap();
}
