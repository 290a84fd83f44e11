// Single lines of a report.
ghost use Rattle.std.specs.Prelude.{◌≡◌, ◌++◌, ◌^◌, OnOk, IfOk, string_bytes};
ghost use Rattle.std.specs.Fmt.{decimal};
ghost use Rattle.report_base.specs.Texts as spec;

use crate::names::date_kind_name;
use boundary_orders::ExtentRow;
use crm_type_check::{Fault, FaultKind};
use itoa::Buffer;
use ntriples_writer::append_term;
use rdf_terms::Names;
use std::alloc::{AllocError, Global};
use time_primitive::DateFault;

fn append_number(n: u64, line: &mut Vec<u8>) -> Result<(), AllocError>
    ensures { OnOk result (line.new.items ≡ line.old.items ++ decimal n) }
{
    line.extend_from_slice(Buffer::new().format(n).as_bytes())
}

fn append_date_fault(fault: DateFault, line: &mut Vec<u8>) -> Result<(), AllocError>
    ensures { OnOk result (line.new.items ≡ line.old.items ++ spec.kind_text (FaultKind.R4 fault)) }
{
    line.extend_from_slice(b"R4 ")?;
    line.extend_from_slice(date_kind_name(fault.kind).as_bytes())?;
    line.push(b' ')?;
    append_number(fault.at as u64, line)
}

fn append_kind(kind: FaultKind, line: &mut Vec<u8>) -> Result<(), AllocError>
    ensures { OnOk result (line.new.items ≡ line.old.items ++ spec.kind_text kind) }
{
    match kind {
        FaultKind::C1 => line.extend_from_slice(b"C1"),
        FaultKind::C2 => line.extend_from_slice(b"C2"),
        FaultKind::C3 => line.extend_from_slice(b"C3"),
        FaultKind::D1 => line.extend_from_slice(b"D1"),
        FaultKind::R1 => line.extend_from_slice(b"R1"),
        FaultKind::R2 => line.extend_from_slice(b"R2"),
        FaultKind::R3 => line.extend_from_slice(b"R3"),
        FaultKind::R4(fault) => append_date_fault(fault, line),
        FaultKind::A1 => line.extend_from_slice(b"A1"),
    }
}

/// Appends the line of a fault.
#[tactic(auto, unfolding(crate::specs::Texts::fault_line))]
pub(crate) fn append_fault(fault: &Fault, line: &mut Vec<u8>) -> Result<(), AllocError>
    ensures { OnOk result (line.new.items ≡ line.old.items ++ spec.fault_line fault.now) }
{
    line.extend_from_slice(b"fault t")?;
    append_number(fault.triple as u64, line)?;
    line.extend_from_slice(b" at ")?;
    append_number(fault.at, line)?;
    line.push(b' ')?;
    append_kind(fault.kind, line)?;
    line.push(b'\n')?;
    Ok(())
}

fn append_sort(period: bool, line: &mut Vec<u8>) -> Result<(), AllocError>
    ensures { OnOk result (line.new.items ≡ line.old.items ++ spec.sort_text period) }
{
    if period {
        line.extend_from_slice(b" period ")
    } else {
        line.extend_from_slice(b" span ")
    }
}

/// Appends the line of an extent with its number.
#[tactic(auto, unfolding(crate::specs::Texts::extent_line))]
pub fn append_extent(
    names: &Names,
    k: u32,
    row: ExtentRow,
    line: &mut Vec<u8>,
) -> Result<(), AllocError>
    ensures { OnOk result (line.new.items ≡ line.old.items ++ spec.extent_line names.now k (row.node, row.period)) }
{
    line.push(b'x')?;
    append_number(k as u64, line)?;
    append_sort(row.period, line)?;
    append_term(names, row.node, line)?;
    line.push(b'\n')?;
    Ok(())
}

/// The line of a refusal by a count.
pub(crate) fn count_refusal_line(alloc: Global, code: &str, n: u64) -> Result<String, AllocError>
    ensures { IfOk result (λ s. string_bytes s ≡ spec.count_refusal_text code.now n) }
{
    format!(in alloc; "refused {code} count {n}\n")
}
