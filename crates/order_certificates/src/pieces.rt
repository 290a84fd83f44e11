// A text that is made piece by piece, counted and then printed.
ghost use Rattle.std.specs.Prelude.{◌≡◌, ◌++◌, ℕ, List, [], false, length, OnOk, IfOk};
ghost use Rattle.crm_outside.specs.Printing.{Prints};

use crm_outside::{PrintFault, Sink, print_text};
use std::alloc::{AllocError, Global};

/// A text that is made piece by piece.
pub trait Pieces {
    /// What is still to come.
    ghost rest: { Self → List ℕ };

    /// What a value keeps from which pieces can be made.
    ghost IsSound: { Self → Type 0 };

    /// Appends the next piece, and answers whether more may come.
    fn append_next(&mut self, line: &mut Vec<u8>) -> Result<bool, AllocError>
        requires { IsSound self.old }
        ensures sound { OnOk result (IsSound self.new) }
        ensures text { OnOk result (line.new.items ++ rest self.new ≡ line.old.items ++ rest self.old) }
        ensures over { IfOk result (λ more. more ≡ false → rest self.new ≡ []) };
}

#[tactic(auto, using(crate::proofs::Making::counted_on, crate::proofs::Making::counted_all))]
/// The length of the text. It is no longer than can be counted.
pub fn count_pieces<P: Pieces>(alloc: Global, pieces: &mut P) -> Result<u64, AllocError>
    requires { P.IsSound pieces.old }
    ensures { IfOk result (λ n. n ≡ length (P.rest pieces.old)) }
{
    let mut line = Vec::new(alloc);
    let mut count: u64 = 0;
    for _turn in 0..u64::MAX {
        line.clear();
        let more = pieces.append_next(&mut line)?;
        let Some(sum) = count.checked_add(line.len() as u64) else {
            return Err(AllocError);
        };
        count = sum;
        if !more {
            return Ok(count);
        }
    }
    Err(AllocError)
}

#[tactic(auto, using(crate::proofs::Making::next_printed, crate::proofs::Making::last_printed, crate::proofs::Making::broke_printed, crate::proofs::Making::starved_printed))]
/// Prints the text, each piece as it is made.
pub fn print_pieces<P: Pieces, W: Sink>(
    alloc: Global,
    pieces: &mut P,
    out: &mut W,
) -> Result<(), PrintFault>
    requires { P.IsSound pieces.old }
    ensures { Prints W.written W.faults W.sure out.old out.new (P.rest pieces.old) result }
{
    let mut line = Vec::new(alloc);
    for _turn in 0..u64::MAX {
        line.clear();
        let Ok(more) = pieces.append_next(&mut line) else {
            return Err(PrintFault::Memory);
        };
        print_text(out, line.as_slice())?;
        if !more {
            return Ok(());
        }
    }
    Err(PrintFault::Memory)
}
