// Records that are added and let go, in all three chains.
ghost use Rattle.std.specs.Prelude.{◌≡◌, ◌+◌, ◌<◌, ◌^◌, ◌++◌, [], ◌∷◌, ℕ, length, true, false, Option, IfSome, OnOk, vec_len, vec_capacity};
ghost use Rattle.indexmap.specs.IndexMap.{spare, ContainsKey};
ghost use Rattle.triple_pool.specs.Pool.{is_held, without};
ghost use Rattle.triple_pool.specs.Chains.{is_at, slot_at, pairs_from, IsChained, grown, bridged, shrunk, ends_closed, ends_added, ends_removed};
ghost use Rattle.rdf_terms.specs.declared.terms.Term.{Term};
ghost use Rattle.rdf_terms.specs.contracts.terms.TermPartialEq.TheImpl.{ghosts};
ghost use Rattle.triple_pool.specs.Tables.{ends_in, number_in, IsStored, IsTabled, HasNeighboursWithin};

use crate::table::{ends_of, number_of, put, put_number, replace};
use crate::{Ends, Links, Place, Slot, set_before, set_next};
use indexmap::IndexMap;
use rdf_terms::{Term, Triple};
use std::alloc::AllocError;

// Whether a record with the three terms is held.
pub fn contains(slots: &[Slot], numbers: &IndexMap<(Term, Term, Term), u32>, triple: Triple) -> bool
    requires { IsTabled slots.now (number_in numbers.now) }
    ensures { result ≡ is_held triple (pairs_from 0 slots.now) }
{
    match number_of(numbers, triple) {
        Some(number) => is_held_at(slots, number),
        None => false,
    }
}

// Adds a record at the end, for which there is room, and links it behind the last ones of its terms.
fn add_record(
    slots: &mut Vec<Slot>,
    triple: Triple,
    subject: Option<u32>,
    predicate: Option<u32>,
    object: Option<u32>,
)
    requires room { vec_len slots.old < vec_capacity slots.old }
    requires few { length slots.old.items < 2 ^ 31 }
    requires in_subject { IfSome subject (λ i. i < length slots.old.items) }
    requires in_predicate { IfSome predicate (λ i. i < length slots.old.items) }
    requires in_object { IfSome object (λ i. i < length slots.old.items) }
    ensures { slots.new.items ≡ grown slots.old.items triple subject predicate object }
{
    let number = slots.len() as u32;
    let records = slots.as_mut_slice();
    set_next(records, Place::Subject, subject, Some(number));
    set_next(records, Place::Predicate, predicate, Some(number));
    set_next(records, Place::Object, object, Some(number));
    let slot = Slot {
        triple,
        held: true,
        subject: Links {
            before: subject,
            next: None,
        },
        predicate: Links {
            before: predicate,
            next: None,
        },
        object: Links {
            before: object,
            next: None,
        },
    };
    slots.push(slot).unwrap();
}

// Makes a number the last one of a term; `ends` is the term's entry.
fn put_last(table: &mut IndexMap<Term, Ends>, term: Term, ends: Ends, number: u32)
    requires room { 0 < spare table.old }
    requires entry { ends ≡ ends_in table.old term }
    ensures { (t : Term) → ends_in table.new t ≡ ends_added (ends_in table.old) term number t }
{
    let first = match ends.first {
        Some(first) => Some(first),
        None => Some(number),
    };
    put(
        table,
        term,
        Ends {
            first,
            last: Some(number),
        },
    );
}

// Adds a triple to all three chains, with room for it everywhere.
pub fn store(
    slots: &mut Vec<Slot>,
    subjects: &mut IndexMap<Term, Ends>,
    predicates: &mut IndexMap<Term, Ends>,
    objects: &mut IndexMap<Term, Ends>,
    numbers: &mut IndexMap<(Term, Term, Term), u32>,
    triple: Triple,
)
    requires stored { IsStored slots.old.items (ends_in subjects.old) (ends_in predicates.old) (ends_in objects.old) }
    requires tabled { IsTabled slots.old.items (number_in numbers.old) }
    requires new { is_held triple (pairs_from 0 slots.old.items) ≡ false }
    requires room { vec_len slots.old < vec_capacity slots.old }
    requires few { length slots.old.items < 2 ^ 31 }
    requires room_subject { 0 < spare subjects.old }
    requires room_predicate { 0 < spare predicates.old }
    requires room_object { 0 < spare objects.old }
    requires room_number { 0 < spare numbers.old }
    ensures stored { IsStored slots.new.items (ends_in subjects.new) (ends_in predicates.new) (ends_in objects.new) }
    ensures tabled { IsTabled slots.new.items (number_in numbers.new) }
    ensures pairs { pairs_from 0 slots.new.items ≡ pairs_from 0 slots.old.items ++ (length slots.old.items, triple) ∷ [] }
    ensures size { length slots.new.items ≡ length slots.old.items + 1 }
{
    let number = slots.len() as u32;
    let subject = ends_of(subjects, triple.s);
    let predicate = ends_of(predicates, triple.p);
    let object = ends_of(objects, triple.o);
    add_record(slots, triple, subject.last, predicate.last, object.last);
    put_last(subjects, triple.s, subject, number);
    put_last(predicates, triple.p, predicate, number);
    put_last(objects, triple.o, object, number);
    put_number(numbers, triple, number);
}

// Links the neighbours of a record with each other.
fn bridge(records: &mut [Slot], place: Place, links: Links)
    requires in_before { IfSome links.before (λ i. i < length records.old) }
    requires in_next { IfSome links.next (λ i. i < length records.old) }
    ensures { records.new ≡ bridged place records.old links }
{
    set_next(records, place, links.before, links.next);
    set_before(records, place, links.next, links.before);
}

// Lets a record go and links its neighbours in all three chains.
fn let_record_go(records: &mut [Slot], number: u32)
    requires within { number < length records.old }
    requires in_chains { HasNeighboursWithin (slot_at records.old number) (length records.old) }
    ensures { records.new ≡ shrunk records.old number }
{
    let slot = records[number as usize];
    records[number as usize].held = false;
    bridge(records, Place::Subject, slot.subject);
    bridge(records, Place::Predicate, slot.predicate);
    bridge(records, Place::Object, slot.object);
}

// The entry of a term after one of its records is let go.
fn close(ends: Ends, links: Links) -> Ends
    ensures { result ≡ ends_closed ends links }
{
    let first = match links.before {
        None => links.next,
        Some(_) => ends.first,
    };
    let last = match links.next {
        None => links.before,
        Some(_) => ends.last,
    };
    Ends { first, last }
}

// Closes the entry of a term, one of whose records is let go.
fn close_entry(table: &mut IndexMap<Term, Ends>, term: Term, links: Links)
    requires { ContainsKey ghosts.eq table.old term }
    ensures { (t : Term) → ends_in table.new t ≡ ends_removed (ends_in table.old) term links t }
{
    let ends = close(ends_of(table, term), links);
    replace(table, term, ends);
}

// Lets a triple go, in all three chains.
pub fn release(
    slots: &mut [Slot],
    subjects: &mut IndexMap<Term, Ends>,
    predicates: &mut IndexMap<Term, Ends>,
    objects: &mut IndexMap<Term, Ends>,
    number: u32,
) -> Triple
    requires stored { IsStored slots.old (ends_in subjects.old) (ends_in predicates.old) (ends_in objects.old) }
    requires held { (slot_at slots.old number).held ≡ true }
    ensures stored { IsStored slots.new (ends_in subjects.new) (ends_in predicates.new) (ends_in objects.new) }
    ensures tabled { (numbers : Term × Term × Term → Option ℕ) → IsTabled slots.old numbers → IsTabled slots.new numbers }
    ensures pairs { pairs_from 0 slots.new ≡ without number (pairs_from 0 slots.old) }
    ensures size { length slots.new ≡ length slots.old }
    ensures triple { result ≡ (slot_at slots.old number).triple }
{
    let slot = slots[number as usize];
    let_record_go(slots, number);
    close_entry(subjects, slot.triple.s, slot.subject);
    close_entry(predicates, slot.triple.p, slot.predicate);
    close_entry(objects, slot.triple.o, slot.object);
    slot.triple
}

// Makes room for one more record everywhere.
pub fn make_room(
    slots: &mut Vec<Slot>,
    subjects: &mut IndexMap<Term, Ends>,
    predicates: &mut IndexMap<Term, Ends>,
    objects: &mut IndexMap<Term, Ends>,
    numbers: &mut IndexMap<(Term, Term, Term), u32>,
) -> Result<(), AllocError>
    ensures slots { slots.new.items ≡ slots.old.items }
    ensures subjects { subjects.new.entries ≡ subjects.old.entries }
    ensures predicates { predicates.new.entries ≡ predicates.old.entries }
    ensures objects { objects.new.entries ≡ objects.old.entries }
    ensures numbers { numbers.new.entries ≡ numbers.old.entries }
    ensures room { OnOk result (vec_len slots.new < vec_capacity slots.new) }
    ensures room_subject { OnOk result (0 < spare subjects.new) }
    ensures room_predicate { OnOk result (0 < spare predicates.new) }
    ensures room_object { OnOk result (0 < spare objects.new) }
    ensures room_number { OnOk result (0 < spare numbers.new) }
{
    slots.reserve(1)?;
    subjects.reserve(1)?;
    predicates.reserve(1)?;
    objects.reserve(1)?;
    numbers.reserve(1)?;
    Ok(())
}

// Whether the number is that of a held record.
pub fn is_held_at(slots: &[Slot], number: u32) -> bool
    ensures held { result ≡ (slot_at slots.now number).held }
    ensures within { result ≡ true → number < length slots.now }
{
    (number as usize) < slots.len() && slots[number as usize].held
}
