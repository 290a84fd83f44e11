//! Distinct triples with numbers, linked by number through three chains: same subject, same predicate, same object.
#![tactic(auto)]

ghost use Rattle.std.specs.Prelude.{◌≡◌, ◌<◌, length, IfSome};
ghost use Rattle.triple_pool.specs.Chains.{links_at, with_links, next_set, before_set};

mod pairs;
mod pool;
mod store;
mod table;
mod walk;

pub use pairs::Pairs;
pub use pool::TriplePool;
use rdf_terms::Triple;
pub use walk::Walk;

/// A place of a triple, where a term stands.
#[derive(Clone, Copy, PartialEq, Eq, Debug)]
pub enum Place {
    /// The subject.
    Subject,
    /// The predicate.
    Predicate,
    /// The object.
    Object,
}

/// The numbers of the nearest held records with the same term.
#[derive(Clone, Copy, PartialEq, Eq, Debug)]
pub struct Links {
    /// The greatest one below this record's number.
    pub before: Option<u32>,
    /// The least one above this record's number.
    pub next: Option<u32>,
}

/// A record: a triple with its links in three chains.
#[derive(Clone, Copy, PartialEq, Eq, Debug)]
pub struct Slot {
    /// The triple.
    pub triple: Triple,
    /// Whether the triple is held; a triple that was removed is not.
    pub held: bool,
    /// The neighbours with the same subject.
    pub subject: Links,
    /// The neighbours with the same predicate.
    pub predicate: Links,
    /// The neighbours with the same object.
    pub object: Links,
}

// The numbers of the first and the last held record with a term.
#[derive(Clone, Copy, PartialEq, Eq, Debug)]
struct Ends {
    first: Option<u32>,
    last: Option<u32>,
}

/// Why a triple was not added.
#[derive(Clone, Copy, PartialEq, Eq, Debug)]
pub enum PoolFault {
    /// It is new, and as many numbers are used as may be.
    Full,
    /// Memory was wanting.
    Memory,
}

// The links of a record at a place.
fn links_of(slot: &Slot, place: Place) -> Links
    ensures { result ≡ links_at place slot.now }
{
    match place {
        Place::Subject => slot.subject,
        Place::Predicate => slot.predicate,
        Place::Object => slot.object,
    }
}

// Writes the links of a record at a place.
fn set_links(slot: &mut Slot, place: Place, links: Links)
    ensures { slot.new ≡ with_links place slot.old links }
{
    match place {
        Place::Subject => slot.subject = links,
        Place::Predicate => slot.predicate = links,
        Place::Object => slot.object = links,
    }
}

// Writes the next number of a record, where there is such a record.
fn set_next(slots: &mut [Slot], place: Place, at: Option<u32>, next: Option<u32>)
    requires { IfSome at (λ i. i < length slots.old) }
    ensures { slots.new ≡ next_set place slots.old at next }
{
    if let Some(i) = at {
        let slot = &mut slots[i as usize];
        let links = links_of(slot, place);
        set_links(
            slot,
            place,
            Links {
                before: links.before,
                next,
            },
        );
    }
}

// Writes the number before a record, where there is such a record.
fn set_before(slots: &mut [Slot], place: Place, at: Option<u32>, before: Option<u32>)
    requires { IfSome at (λ i. i < length slots.old) }
    ensures { slots.new ≡ before_set place slots.old at before }
{
    if let Some(i) = at {
        let slot = &mut slots[i as usize];
        let links = links_of(slot, place);
        set_links(
            slot,
            place,
            Links {
                before,
                next: links.next,
            },
        );
    }
}
