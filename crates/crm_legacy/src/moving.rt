// Records with their legacy triples replaced.
ghost use Rattle.std.specs.Prelude.{◌≡◌, IfOk, OnOk, IfErr, Ok, map};
ghost use Rattle.crm_legacy.specs.Causes.{IsCause};
ghost use Rattle.crm_legacy.specs.Legacies.{direction_iri};
ghost use Rattle.crm_legacy.specs.Modern as spec;

pub use crate::gathering::ModernFault;
use crate::gathering::{add_statement, predicate_iri};
use crate::legacy::{Direction, Legacy, replacements};
use crate::names::{direction_iri, legacy_of};
use rdf_terms::{Names, Records, Triple, Triples};
use std::alloc::Global;

// What a legacy triple says, by one primitive after the other.
fn add_directions(
    alloc: Global,
    old: &Names,
    modern: &mut Records,
    triple: Triple,
    turned: bool,
    directions: &[Direction],
) -> Result<(), ModernFault>
    ensures ok { OnOk result (spec.with_statements old.now (map (λ d. spec.with_predicate triple (direction_iri turned d)) directions.now) modern.old ≡ Ok modern.new) }
    ensures err { IfErr result (IsCause (spec.with_statements old.now (map (λ d. spec.with_predicate triple (direction_iri turned d)) directions.now) modern.old)) }
{
    for direction in directions {
        let iri = direction_iri(alloc, *direction, turned)?;
        add_statement(alloc, old, modern, triple, iri.as_str())?;
    }
    Ok(())
}

// What a triple says in today's properties.
fn add_said(
    alloc: Global,
    old: &Names,
    modern: &mut Records,
    triple: Triple,
) -> Result<(), ModernFault>
    ensures ok { OnOk result (spec.with_statements old.now (spec.said old.now triple) modern.old ≡ Ok modern.new) }
    ensures err { IfErr result (IsCause (spec.with_statements old.now (spec.said old.now triple) modern.old)) }
{
    let predicate = predicate_iri(old, triple.p);
    match legacy_of(predicate) {
        Some(legacy) => add_legacy(alloc, old, modern, triple, legacy),
        None => add_statement(alloc, old, modern, triple, predicate),
    }
}

fn add_legacy(
    alloc: Global,
    old: &Names,
    modern: &mut Records,
    triple: Triple,
    legacy: Legacy,
) -> Result<(), ModernFault>
    ensures ok { OnOk result (spec.with_statements old.now (spec.said_legacy triple legacy) modern.old ≡ Ok modern.new) }
    ensures err { IfErr result (IsCause (spec.with_statements old.now (spec.said_legacy triple legacy) modern.old)) }
{
    let directions = replacements(alloc, legacy.property)?;
    add_directions(
        alloc,
        old,
        modern,
        triple,
        legacy.inverse,
        directions.as_slice(),
    )
}

/// The records in today's properties: each triple of P114 to P120 is replaced where it stands by triples with the same
/// ends and place, which say the same by primitives, and a repeated triple is dropped.
pub fn modern(alloc: Global, records: &Records) -> Result<Records, ModernFault>
    ensures ok { IfOk result (λ m. spec.modern_of records.now ≡ Ok m) }
    ensures err { IfErr result (IsCause (spec.modern_of records.now)) }
{
    let mut modern = Records {
        names: Names::new(alloc),
        triples: Triples::new(alloc),
    };
    for k in 0..records.triples.len() {
        let Some(triple) = records.triples.get(k) else {
            unreachable!()
        };
        add_said(alloc, &records.names, &mut modern, triple)?;
    }
    Ok(modern)
}
