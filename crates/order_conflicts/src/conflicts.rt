// All that contradicts itself in a set of orders.
ghost use Rattle.std.specs.Prelude.{◌≡◌, IfOk};
ghost use Rattle.order_conflicts.specs.Conflicts.{conflicts_in};
ghost use Rattle.order_conflicts.specs.Rings.{IsCycle};
ghost use Rattle.order_conflicts.specs.Tangles.{tangles_in};

use crate::suspects::{Suspect, find_suspects};
use crate::tangles::{Tangle, find_tangles};
use chain_certificate::Chain;
use crm_outside::Items;
use order_analysis::Analysis;
use order_laws::laws::computed_cycle_is_first;
use std::alloc::AllocError;

/// The tangles of a set of orders, in the order of their least points, and the suspects, by triple.
#[derive(Drop)]
pub struct Conflicts {
    pub tangles: Items<Tangle>,
    pub suspects: Items<Suspect>,
}

// A cycle whose triples are tried: that of the first tangle, which is mostly shorter than the one of the first point.
fn short_cycle<'a>(analysis: &Analysis, tangles: &'a Items<Tangle>, other: &'a Chain) -> &'a Chain
    requires tangles { tangles.now ≡ tangles_in analysis.now.set }
    requires other { IsCycle analysis.now.set.list other.now }
    ensures { IsCycle analysis.now.set.list result.now }
{
    analysis.set().conditions();
    match tangles.get(0) {
        Some(tangle) => &tangle.cycle,
        None => other,
    }
}

/// Finds the tangles and the suspects of a set of orders; None where the orders are consistent.
pub fn find_conflicts(analysis: &Analysis) -> Result<Option<Conflicts>, AllocError>
    ensures { IfOk result (λ o. o ≡ conflicts_in analysis.now.set) }
{
    computed_cycle_is_first();
    analysis.set().conditions();
    match analysis.cycle() {
        Some(cycle) => {
            let tangles = find_tangles(analysis)?;
            let tried = short_cycle(analysis, &tangles, cycle);
            let suspects = find_suspects(analysis, tried)?;
            Ok(Some(Conflicts { tangles, suspects }))
        }
        None => Ok(None),
    }
}
