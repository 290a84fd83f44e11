// The faults of one triple, one after another.
ghost use Rattle.std.specs.Prelude.{◌≡◌, ◌++◌, map, OnOk};
ghost use Rattle.crm_type_check.specs.declared.FaultKind.TheVariants.{C1, C2, C3, D1, R1, R2, R3, A1};
ghost use Rattle.crm_type_check.specs.Relations.{kinds, fault_at, when, when_some};

use crate::own::OwnFaults;
use crate::{Fault, FaultKind, Faults};
use rdf_terms::Triple;
use std::alloc::AllocError;
use time_primitive::DateFault;

fn push_when(
    faults: &mut Faults,
    number: u32,
    triple: Triple,
    holds: bool,
    kind: FaultKind,
) -> Result<(), AllocError>
    ensures { OnOk result (faults.new ≡ faults.old ++ map (fault_at number triple) (when holds kind)) }
{
    if !holds {
        return Ok(());
    }
    faults.push(Fault {
        triple: number,
        at: triple.at,
        kind,
    })
}

fn push_date_fault(
    faults: &mut Faults,
    number: u32,
    triple: Triple,
    fault: Option<DateFault>,
) -> Result<(), AllocError>
    ensures { OnOk result (faults.new ≡ faults.old ++ map (fault_at number triple) (when_some fault)) }
{
    let Some(fault) = fault else {
        return Ok(());
    };
    faults.push(Fault {
        triple: number,
        at: triple.at,
        kind: FaultKind::R4(fault),
    })
}

#[tactic(auto, using(crate::proofs::Listing::add_map))]
fn push_type_faults(
    faults: &mut Faults,
    number: u32,
    triple: Triple,
    own: OwnFaults,
) -> Result<(), AllocError>
    ensures { OnOk result (faults.new ≡ faults.old ++ map (fault_at number triple) (when own.c1 C1 ++ when own.c2 C2 ++ when own.c3 C3)) }
{
    push_when(faults, number, triple, own.c1, FaultKind::C1)?;
    push_when(faults, number, triple, own.c2, FaultKind::C2)?;
    push_when(faults, number, triple, own.c3, FaultKind::C3)
}

#[tactic(auto, using(crate::proofs::Listing::add_map))]
fn push_end_faults(
    faults: &mut Faults,
    number: u32,
    triple: Triple,
    own: OwnFaults,
) -> Result<(), AllocError>
    ensures { OnOk result (faults.new ≡ faults.old ++ map (fault_at number triple) (when own.d1 D1 ++ when own.r1 R1 ++ when own.r2 R2 ++ when own.r3 R3)) }
{
    push_when(faults, number, triple, own.d1, FaultKind::D1)?;
    push_when(faults, number, triple, own.r1, FaultKind::R1)?;
    push_when(faults, number, triple, own.r2, FaultKind::R2)?;
    push_when(faults, number, triple, own.r3, FaultKind::R3)
}

/// Appends the faults of a triple in the order of their kinds.
#[tactic(auto, using(crate::proofs::Listing::add_map))]
pub fn push_faults(
    faults: &mut Faults,
    number: u32,
    triple: Triple,
    own: OwnFaults,
    is_partial: bool,
) -> Result<(), AllocError>
    ensures { OnOk result (faults.new ≡ faults.old ++ map (fault_at number triple) (kinds own is_partial)) }
{
    push_type_faults(faults, number, triple, own)?;
    push_end_faults(faults, number, triple, own)?;
    push_date_fault(faults, number, triple, own.r4)?;
    push_when(faults, number, triple, is_partial, FaultKind::A1)
}
