// Single lines of the report of a matrix.
ghost use Rattle.std.specs.Prelude.{◌≡◌, ◌++◌, Some, OnOk, slice_get};
ghost use Rattle.std.specs.List.{flat_map};
ghost use Rattle.std.specs.Fmt.{decimal};
ghost use Rattle.rdf_terms.specs.Fitting.{is_literal};
ghost use Rattle.crm_type_check.specs.Faults.{domain_end, range_end};
ghost use Rattle.reason_report.specs.Reason.{period_text};
ghost use Rattle.crm_matrix.specs.MatrixTexts as spec;

use boundary_orders::Dossier;
use crm_properties::Prop;
use crm_type_check::property_named;
use harris_matrix::{Cell, CellPair};
use itoa::Buffer;
use ntriples_writer::append_term;
use rdf_terms::{Names, Term, Triple};
use std::alloc::AllocError;

// The place of AP7 in the profile's table.
const PRODUCED: u8 = 40;

/// Appends a number in decimal.
pub(crate) fn append_number(n: u64, line: &mut Vec<u8>) -> Result<(), AllocError>
    ensures { OnOk result (line.new.items ≡ line.old.items ++ decimal n) }
{
    line.extend_from_slice(Buffer::new().format(n).as_bytes())
}

fn append_period(k: u32, line: &mut Vec<u8>) -> Result<(), AllocError>
    ensures { OnOk result (line.new.items ≡ line.old.items ++ period_text k) }
{
    line.extend_from_slice(b" x")?;
    append_number(k as u64, line)
}

fn append_periods(periods: &[u32], line: &mut Vec<u8>) -> Result<(), AllocError>
    ensures { OnOk result (line.new.items ≡ line.old.items ++ flat_map period_text periods.now) }
{
    for k in periods {
        append_period(*k, line)?;
    }
    Ok(())
}

/// Appends the line of a cell with its number.
#[tactic(auto, unfolding(crate::specs::MatrixTexts::cell_line))]
pub(crate) fn append_cell(c: usize, cell: &Cell, line: &mut Vec<u8>) -> Result<(), AllocError>
    ensures { OnOk result (line.new.items ≡ line.old.items ++ spec.cell_line c cell.now) }
{
    line.push(b'c')?;
    append_number(c as u64, line)?;
    line.extend_from_slice(b" level ")?;
    append_number(cell.level as u64, line)?;
    append_periods(cell.extents.as_slice(), line)?;
    line.push(b'\n')?;
    Ok(())
}

/// Appends the line of a cover.
#[tactic(auto, unfolding(crate::specs::MatrixTexts::cover_line))]
pub(crate) fn append_cover(pair: &CellPair, line: &mut Vec<u8>) -> Result<(), AllocError>
    ensures { OnOk result (line.new.items ≡ line.old.items ++ spec.cover_line pair.now) }
{
    line.push(b'c')?;
    append_number(pair.first as u64, line)?;
    line.extend_from_slice(b" c")?;
    append_number(pair.second as u64, line)?;
    line.push(b'\n')?;
    Ok(())
}

fn is_literal(term: Term) -> bool
    ensures { result ≡ is_literal term }
{
    match term {
        Term::Lit(_) => true,
        Term::Iri(_) | Term::Blank(_) => false,
    }
}

// The node at the domain of the property, and the term at its range.
fn ends_of(triple: Triple, prop: &Prop) -> (Term, Term)
    ensures { result ≡ (domain_end prop.now triple, range_end prop.now triple) }
{
    if prop.inverse {
        (triple.o, triple.s)
    } else {
        (triple.s, triple.o)
    }
}

fn production_by(triple: Triple, prop: &Prop) -> Option<(Term, Term)>
    ensures { result ≡ spec.production_by triple (Some prop.now) }
{
    let (event, unit) = ends_of(triple, prop);
    if prop.code.number() == PRODUCED && !is_literal(unit) {
        Some((event, unit))
    } else {
        None
    }
}

// The event and the unit of a triple that says that the one produced the other.
fn production_of(names: &Names, triple: Triple) -> Option<(Term, Term)>
    ensures { result ≡ spec.production_of names.now triple }
{
    match property_named(names, triple.p) {
        Some(prop) => production_by(triple, &prop),
        None => None,
    }
}

fn number_at(dossier: &Dossier, k: u32) -> Option<u32>
    ensures { result ≡ spec.number_by k (slice_get dossier.now.extents k) }
{
    match dossier.extent(k) {
        Some(row) if row.period => Some(k),
        _ => None,
    }
}

// The number of the period that the node is.
fn period_number(dossier: &Dossier, node: Term) -> Option<u32>
    ensures { result ≡ spec.period_number dossier.now.extents node }
{
    match dossier.find(node) {
        Some(k) => number_at(dossier, k),
        None => None,
    }
}

#[tactic(auto, unfolding(crate::specs::MatrixTexts::unit_line))]
fn append_unit_line(names: &Names, unit: Term, k: u32, line: &mut Vec<u8>) -> Result<(), AllocError>
    ensures { OnOk result (line.new.items ≡ line.old.items ++ spec.unit_line names.now unit k) }
{
    line.push(b'x')?;
    append_number(k as u64, line)?;
    line.extend_from_slice(b" unit ")?;
    append_term(names, unit, line)?;
    line.push(b'\n')?;
    Ok(())
}

/// Appends the line of the unit that a triple labels a period with; of any other triple nothing.
pub(crate) fn append_unit(
    names: &Names,
    dossier: &Dossier,
    triple: Triple,
    line: &mut Vec<u8>,
) -> Result<(), AllocError>
    ensures { OnOk result (line.new.items ≡ line.old.items ++ spec.unit_text names.now dossier.now.extents triple) }
{
    let Some((event, unit)) = production_of(names, triple) else {
        return Ok(());
    };
    match period_number(dossier, event) {
        Some(k) => append_unit_line(names, unit, k, line),
        None => Ok(()),
    }
}
