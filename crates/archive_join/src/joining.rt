// The records of a file, added behind others.
ghost use Rattle.std.specs.Prelude.{◌≡◌, IfOk, IfErr, IfSome, OnOk, max};
ghost use Rattle.std.specs.Option.{option_map};
ghost use Rattle.rdf_terms.specs.declared.terms.Refusal.{Refusal};
ghost use Rattle.joined_names.specs.Values.{value_triple, with_all, moved};
ghost use Rattle.archive_join.specs.Limits.{AreFew, IsFirstPast, IsPastWith, with_option};
ghost use Rattle.archive_join.specs.Joining as spec;
ghost use Rattle.archive_join.specs.Joining.{blank_count, triples_behind};
ghost use Rattle.archive_join.specs.Limits as limits;
ghost use Rattle.joined_names.specs.Named.{IsTable};

use crate::JoinFault;
use joined_names::{NameTable, named_triple};
use rdf_terms::{Code, NameFault, Names, Records, Refusal, Term, Triple, TripleFault};
use std::alloc::Global;

/// How far the blank nodes and the places of a file are moved: as many as stand before it.
#[derive(Clone, Copy)]
pub(crate) struct Shift {
    pub blanks: u32,
    pub bytes: u64,
}

fn name_fault(fault: NameFault, at: u64) -> JoinFault
    ensures { result ≡ limits.name_fault fault at }
{
    match fault {
        NameFault::TooMany => JoinFault::Refused(Refusal { code: Code::L5, at }),
        NameFault::Memory => JoinFault::Memory,
    }
}

fn triple_fault(fault: TripleFault, at: u64) -> JoinFault
    ensures { result ≡ limits.triple_fault fault at }
{
    match fault {
        TripleFault::TooMany => JoinFault::Refused(Refusal { code: Code::L4, at }),
        TripleFault::Memory => JoinFault::Memory,
    }
}

// The first number above that of a blank node, or None where it is too large.
fn behind_term(term: Term) -> Option<u32>
    ensures { IfSome result (λ n. n ≡ spec.behind_term term) }
{
    match term {
        Term::Iri(_) => Some(0),
        Term::Blank(n) => n.checked_add(1),
        Term::Lit(_) => Some(0),
    }
}

// The count of blank nodes with those of a triple, or None where it is too large.
fn count_blanks(count: u32, triple: Triple) -> Option<u32>
    ensures { IfSome result (λ n. n ≡ max count (spec.behind_triple triple)) }
{
    let s = behind_term(triple.s)?;
    let p = behind_term(triple.p)?;
    let o = behind_term(triple.o)?;
    Some(count.max(s.max(p).max(o)))
}

// Adds what a triple of the file says.
fn add_triple(
    alloc: Global,
    shift: Shift,
    file: &Names,
    triple: Triple,
    table: &mut NameTable,
    records: &mut Records,
) -> Result<(), JoinFault>
    requires table { IsTable file.now records.old.names table.old }
    requires few { AreFew records.old }
    ensures added { OnOk result (records.new ≡ with_option records.old (option_map (moved shift.blanks shift.bytes) (value_triple file.now triple))) }
    ensures table { OnOk result (IsTable file.now records.new.names table.new) }
    ensures few { OnOk result (AreFew records.new) }
    ensures refused { IfErr result (λ f. IsPastWith records.old (option_map (moved shift.blanks shift.bytes) (value_triple file.now triple)) f) }
{
    let Some(named) = named_triple(file, triple) else {
        return Ok(());
    };
    let Some(at) = triple.at.checked_add(shift.bytes) else {
        return Err(JoinFault::Memory);
    };
    let (s, p, o) = match table.terms(alloc, named, shift.blanks, &mut records.names) {
        Ok(terms) => terms,
        Err(fault) => return Err(name_fault(fault, at)),
    };
    match records.triples.add(Triple { s, p, o, at }) {
        Ok(_) => Ok(()),
        Err(fault) => Err(triple_fault(fault, at)),
    }
}

/// Adds what a file says behind the records so far, and answers how many blank nodes it has.
pub(crate) fn add_records(
    alloc: Global,
    shift: Shift,
    file: &Records,
    records: &mut Records,
) -> Result<u32, JoinFault>
    requires { AreFew records.old }
    ensures added { OnOk result (records.new ≡ with_all records.old (triples_behind shift.blanks shift.bytes file.now)) }
    ensures few { OnOk result (AreFew records.new) }
    ensures blanks { IfOk result (λ n. n ≡ blank_count file.now.triples) }
    ensures refused { (f : Refusal) → result ≡ Err (JoinFault.Refused f) → IsFirstPast records.old (triples_behind shift.blanks shift.bytes file.now) f }
{
    let mut table = NameTable::new(alloc, &file.names)?;
    let mut blanks = 0;
    for k in 0..file.triples.len() {
        let Some(triple) = file.triples.get(k) else {
            unreachable!()
        };
        add_triple(alloc, shift, &file.names, triple, &mut table, records)?;
        let Some(count) = count_blanks(blanks, triple) else {
            return Err(JoinFault::Memory);
        };
        blanks = count;
    }
    Ok(blanks)
}
