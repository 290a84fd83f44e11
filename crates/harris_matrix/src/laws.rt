// Laws over the definitions: each is the contract of a function with nothing to do.
ghost use Rattle.std.specs.Prelude.{◌≡◌, ◌<◌, ◌↔◌, ℕ, ℤ, List, true, false, length, slice_index_or};
ghost use Rattle.order_laws.specs.declared.Order.{Order};
ghost use Rattle.order_laws.specs.declared.Point.TheVariants.{Start, End};
ghost use Rattle.order_laws.specs.Chains.{HasCycle};
ghost use Rattle.order_laws.specs.Closure.{reach_between};
ghost use Rattle.order_laws.specs.Placings.{AlwaysStand};
ghost use Rattle.order_laws.specs.Tables.{IsOrderSet};
ghost use Rattle.order_core.specs.Sets.{AreExtents};
ghost use Rattle.harris_matrix.specs.Cells.{shares_cell};
ghost use Rattle.harris_matrix.specs.Covers.{all_covers};
ghost use Rattle.harris_matrix.specs.Matrices.{least_of, is_before};
ghost use Rattle.harris_matrix.specs.Rows.{IsStrictOrder};
ghost use Rattle.harris_matrix.specs.Walks.{IsWalk};

use order_laws::laws::{always_is_follows, base_is_orderly, closure_is_what_follows};

/// For orders without a cycle what is before what joins, and no cell is before itself.
pub fn cells_are_strictly_ordered()
    ensures { (orders : List Order) (extents : ℕ) (dates : List ℤ) (periods : List ℕ) →
        IsOrderSet orders extents dates → ¬ HasCycle orders → AreExtents extents periods →
        IsStrictOrder (is_before orders periods) (length (least_of orders periods)) }
{
    closure_is_what_follows();
    base_is_orderly();
}

/// For orders without a cycle a cell is before another exactly where a walk of at least one cover leads to it.
pub fn walks_lead_to_what_is_before()
    ensures { (orders : List Order) (extents : ℕ) (dates : List ℤ) (periods : List ℕ) (i j : ℕ) →
        IsOrderSet orders extents dates → ¬ HasCycle orders → AreExtents extents periods →
        i < length (least_of orders periods) → j < length (least_of orders periods) →
        (is_before orders periods i j ≡ true)
        ↔ ((cs : List ℕ) × ((0 < length cs) × IsWalk (all_covers (is_before orders periods) (length (least_of orders periods))) i j cs)) }
{
    cells_are_strictly_ordered();
}

/// For orders without a cycle a cell is before another exactly where every placing that satisfies the orders
/// has the representative of the first end before or at the start of that of the second.
pub fn before_is_what_always_holds()
    ensures { (orders : List Order) (extents : ℕ) (dates : List ℤ) (periods : List ℕ) (i j : ℕ) →
        IsOrderSet orders extents dates → ¬ HasCycle orders → AreExtents extents periods →
        i < length (least_of orders periods) → j < length (least_of orders periods) →
        (is_before orders periods i j ≡ true)
        ↔ AlwaysStand orders dates extents (End (slice_index_or (least_of orders periods) i 0)) (Start (slice_index_or (least_of orders periods) j 0)) false }
{
    closure_is_what_follows();
    always_is_follows();
}

/// For orders without a cycle two extents share a cell exactly where every placing that satisfies the orders
/// has them start together and end together.
pub fn cells_are_what_always_holds()
    ensures { (orders : List Order) (extents : ℕ) (dates : List ℤ) (a b : ℕ) →
        IsOrderSet orders extents dates → ¬ HasCycle orders → a < extents → b < extents →
        (shares_cell (reach_between orders) a b ≡ true)
        ↔ ((AlwaysStand orders dates extents (Start a) (Start b) false) × (AlwaysStand orders dates extents (Start b) (Start a) false)
        × (AlwaysStand orders dates extents (End a) (End b) false) × (AlwaysStand orders dates extents (End b) (End a) false)) }
{
    closure_is_what_follows();
    always_is_follows();
}
