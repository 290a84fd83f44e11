// The analysis of a dossier.
ghost use Rattle.std.specs.Prelude.{◌≡◌, ◌≤◌, length, IfOk};

use boundary_orders::Dossier;
use order_analysis::Analysis;
use std::alloc::{AllocError, Global};

/// Analyses the orders of a dossier over its periods.
pub fn analyse<'a>(alloc: Global, dossier: &'a Dossier) -> Result<Analysis<'a>, AllocError>
    ensures subject { IfOk result (λ a. a ≡ record { set = dossier.now.orders; periods = dossier.now.periods }) }
    ensures few { length dossier.now.periods ≤ 2048 }
{
    dossier.conditions();
    Analysis::build(alloc, dossier.orders(), dossier.periods())
}
