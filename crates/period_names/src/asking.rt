// The periods that words name.
ghost use Rattle.std.specs.Prelude.{◌≡◌, ◌<◌, length, IfSome, option_map};
ghost use Rattle.period_names.specs.Naming as spec;

use boundary_orders::{Dossier, ExtentRow};
use itoa::Buffer;
use rdf_terms::{Names, Term};

/// A period: the number of its extent, and its node.
#[derive(Clone, Copy, PartialEq, Eq, Debug)]
pub struct Period {
    pub number: u32,
    pub node: Term,
}

fn blank_number(word: &str) -> Option<u32>
    ensures { result ≡ spec.blank_named word.now }
{
    let Some(digits) = word.strip_prefix("_:b") else {
        return None;
    };
    let Ok(n) = digits.parse::<u32>() else {
        return None;
    };
    if Buffer::new().format(n) == digits {
        return Some(n);
    }
    None
}

/// Whether a word is `_:b` and a decimal number below 2^32 without leading zero.
pub fn is_blank_name(word: &str) -> bool
    ensures { result ≡ spec.is_blank_name word.now }
{
    blank_number(word).is_some()
}

fn find_node(names: &Names, word: &str) -> Option<Term>
    ensures { result ≡ spec.node_named names.now word.now }
{
    match blank_number(word) {
        Some(n) => Some(Term::Blank(n)),
        None => names.find_iri(word),
    }
}

fn period_where(number: u32, node: Term, row: Option<ExtentRow>) -> Option<Period>
    ensures { result ≡ spec.period_where number node (option_map (λ r. (r.node, r.period)) row) }
{
    match row {
        Some(row) => {
            if row.period {
                Some(Period { number, node })
            } else {
                None
            }
        }
        None => None,
    }
}

fn period_at(dossier: &Dossier, node: Term, number: Option<u32>) -> Option<Period>
    ensures { result ≡ spec.period_at dossier.now.extents node number }
{
    match number {
        Some(k) => period_where(k, node, dossier.extent(k)),
        None => None,
    }
}

fn period_of(dossier: &Dossier, node: Option<Term>) -> Option<Period>
    ensures { result ≡ spec.period_of dossier.now.extents node }
{
    match node {
        Some(node) => period_at(dossier, node, dossier.find(node)),
        None => None,
    }
}

/// The period that a word names.
pub fn find_period(names: &Names, dossier: &Dossier, word: &str) -> Option<Period>
    ensures period { result ≡ spec.period_named names.now dossier.now.extents word.now }
    ensures within { IfSome result (λ p. p.number < length dossier.now.extents) }
{
    period_of(dossier, find_node(names, word))
}
