// The first cycle of all from some points.
ghost use Rattle.std.specs.Prelude.{◌≡◌, ◌<◌, ℕ, length, slice_index_or, true, IfOk, Some, option_map};
ghost use Rattle.std.specs.List.{All};
ghost use Rattle.order_laws.specs.ChainSearch.{first_chain};
ghost use Rattle.order_laws.specs.Tables.{IsPoint};
ghost use Rattle.order_conflicts.specs.Cycles.{earlier, earliest};
ghost use Rattle.order_conflicts.specs.Cycles as spec;

use chain_certificate::Chain;
use order_analysis::Analysis;
use order_laws::Point;
use std::alloc::AllocError;

// The first order of a chain; 0 of none.
fn head(chain: &[u32]) -> u32
    ensures { result ≡ slice_index_or chain.now 0 0 }
{
    match chain.first() {
        Some(n) => *n,
        None => 0,
    }
}

// Whether a chain comes before another that begins with another order.
fn is_before(one: &[u32], other: &[u32]) -> bool
    ensures { result ≡ spec.is_before one.now other.now }
{
    one.len() < other.len() || one.len() == other.len() && head(one) < head(other)
}

// The first cycle of a point.
fn cycle_at(analysis: &Analysis, point: Point) -> Result<Option<Chain>, AllocError>
    requires { IsPoint analysis.now.set.extents (length analysis.now.set.dates) point }
    ensures { IfOk result (λ o. o ≡ first_chain analysis.now.set.list point point true) }
{
    analysis.routes(point)?.chain(analysis.alloc(), point, true)
}

// The one that comes before the other.
fn earlier(one: Option<Chain>, other: Option<Chain>) -> Option<Chain>
    ensures { result ≡ spec.earlier one other }
{
    match (one, other) {
        (Some(one), Some(other)) => {
            if is_before(other.as_slice(), one.as_slice()) {
                Some(other)
            } else {
                Some(one)
            }
        }
        (None, other) => other,
        (one, None) => one,
    }
}

/// The first cycle of all from the points; None where none of them has one.
pub fn first_cycle(analysis: &Analysis, points: &[Point]) -> Result<Option<Chain>, AllocError>
    requires { All (IsPoint analysis.now.set.extents (length analysis.now.set.dates)) points.now }
    ensures { IfOk result (λ o. o ≡ earliest analysis.now.set.list None points.now) }
{
    let mut first = None;
    for point in points {
        first = earlier(first, cycle_at(analysis, *point)?);
    }
    Ok(first)
}
