// How many levels cells have.
ghost use Rattle.std.specs.Prelude.{◌≡◌};
ghost use Rattle.crm_matrix.specs.Samples.{count_levels as levels_of};

use harris_matrix::CellList;

/// One more than the greatest level of the cells.
pub(crate) fn count_levels(cells: &CellList) -> u64
    ensures { result ≡ levels_of cells.now }
{
    let mut count = 0;
    for cell in cells.as_slice() {
        count = count.max(cell.level as u64 + 1);
    }
    count
}
