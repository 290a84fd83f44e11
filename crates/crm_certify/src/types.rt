// The types that the triples of a document give.
ghost use Rattle.std.specs.Prelude.{◌≡◌, ◌++◌, ◌∷◌, [], IfOk, OnOk};
ghost use Rattle.std.specs.List.{cons_option};
ghost use Rattle.crm_certify.specs.Types.{is_c2, due_of, types_in};
ghost use Rattle.crm_certify.specs.Types as spec;

use certificate_checker::{TypeRow, TypeRows};
use crm_classes::ClassId;
use crm_outside::Numbers;
use crm_type_check::{Fault, FaultKind, Faults, class_named, gives_type};
use rdf_terms::{Names, Records, Triple};
use std::alloc::{AllocError, Global};

// The class of the profile that a triple gives its subject.
fn class_given(names: &Names, triple: Triple) -> Option<ClassId>
    ensures { result ≡ spec.class_given names.now triple }
{
    if gives_type(names, triple) {
        class_named(names, triple.o)
    } else {
        None
    }
}

fn type_row(names: &Names, number: u32, triple: Triple) -> Option<TypeRow>
    ensures { result ≡ spec.type_row names.now (number, triple) }
{
    match class_given(names, triple) {
        Some(class) => Some(TypeRow {
            triple: number,
            subject: triple.s,
            class,
        }),
        None => None,
    }
}

fn push_row(rows: &mut TypeRows, row: Option<TypeRow>) -> Result<(), AllocError>
    ensures { OnOk result (rows.new ≡ rows.old ++ cons_option row []) }
{
    match row {
        Some(row) => rows.push(row),
        None => Ok(()),
    }
}

/// The triples that give a class of the profile, by number.
pub(crate) fn type_rows(alloc: Global, records: &Records) -> Result<TypeRows, AllocError>
    ensures { IfOk result (λ rows. rows ≡ types_in records.now) }
{
    let mut rows = TypeRows::new(alloc);
    for number in 0..records.triples.len() {
        let Some(triple) = records.triples.get(number) else {
            unreachable!()
        };
        push_row(&mut rows, type_row(&records.names, number, triple))?;
    }
    Ok(rows)
}

// Whether a node has incompatible classes.
fn is_due(kind: FaultKind) -> bool
    ensures { result ≡ is_c2 kind }
{
    matches!(kind, FaultKind::C2)
}

fn push_due(due: &mut Numbers, fault: &Fault) -> Result<(), AllocError>
    ensures { OnOk result (due.new ≡ due.old ++ due_of (fault.now ∷ [])) }
{
    if is_due(fault.kind) {
        due.push(fault.triple)
    } else {
        Ok(())
    }
}

/// The triples whose class is incompatible with another of their subject, by number.
pub(crate) fn due_numbers(alloc: Global, faults: &Faults) -> Result<Numbers, AllocError>
    ensures { IfOk result (λ due. due ≡ due_of faults.now) }
{
    let mut due = Numbers::new(alloc);
    for fault in faults.as_slice() {
        push_due(&mut due, fault)?;
    }
    Ok(due)
}
