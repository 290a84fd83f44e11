// A law over the printed matrix: the contract of a function with nothing to do.
ghost use Rattle.std.specs.Prelude.{ℕ, ℤ, List};
ghost use Rattle.order_laws.specs.declared.Order.{Order};
ghost use Rattle.order_laws.specs.Chains.{HasCycle};
ghost use Rattle.order_laws.specs.Tables.{IsOrderSet};
ghost use Rattle.order_core.specs.Sets.{AreExtents};
ghost use Rattle.harris_matrix.specs.Matrices.{IsMatrixOf};
ghost use Rattle.crm_matrix.specs.MatrixTexts.{matrix_of};

use harris_matrix::laws::cells_are_strictly_ordered;

/// For orders without a cycle the matrix that is printed is the Harris matrix of the periods: each cell with its
/// periods and its level, and exactly the covers.
pub fn printed_matrix_is_the_harris_matrix()
    ensures { (orders : List Order) (extents : ℕ) (dates : List ℤ) (periods : List ℕ) →
        IsOrderSet orders extents dates → ¬ HasCycle orders → AreExtents extents periods →
        IsMatrixOf orders periods (matrix_of orders periods) }
{
    cells_are_strictly_ordered();
}
