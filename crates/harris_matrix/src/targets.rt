// The walks to one cell.
ghost use Rattle.std.specs.Prelude.{◌≡◌, IfOk};
ghost use Rattle.harris_matrix.specs.Walks.{IsWalkBetween};

use crate::Matrix;
use crm_outside::Numbers;
use std::alloc::{AllocError, Global};
use std::marker::Model;

/// The walks to one cell of a matrix: how many covers the shortest from each cell has is measured once for all.
///
/// Contracts see the covers and the cell.
#[derive(Drop)]
pub struct WalksTo<'a> {
    pub(crate) matrix: &'a Matrix,
    pub(crate) target: u32,
    pub(crate) lengths: Vec<Option<usize>>,
}

impl<'a> Model for WalksTo<'a> {
    ghost use Rattle.std.specs.Prelude.{length};
    ghost use Rattle.harris_matrix.specs.Matrices.{Target};
    ghost use Rattle.harris_matrix.specs.Walks.{AreDistances};

    ghost Value = { Target };

    ghost view = { λ w. record { covers = w.matrix.now.covers; target = w.target } };

    ghost invariant = { λ w. AreDistances (length w.matrix.now.cells) w.matrix.now.covers w.target w.lengths.items };
}

impl<'a> WalksTo<'a> {
    /// The walk from cell i, as `Matrix::walk` answers it. It takes as many steps as the walk has covers, and at each
    /// cell on it as many as the cell has covers.
    pub fn from(&self, alloc: Global, i: u32) -> Result<Option<Numbers>, AllocError>
        ensures { IfOk result (IsWalkBetween self.now.covers i self.now.target) }
    {
        self.matrix.walk_by(alloc, &self.lengths, i, self.target)
    }
}
