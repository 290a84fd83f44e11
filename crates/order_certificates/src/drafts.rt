// A text that is made piece by piece, of which no contract says more than that it is printed.
ghost use Rattle.std.specs.Prelude.{OnOk, List, ℕ};
ghost use Rattle.crm_outside.specs.Printing.{Prints};

use crm_outside::{PrintFault, Sink, print_text};
use std::alloc::{AllocError, Global};

/// A text that is made piece by piece.
pub trait Drafts {
    /// What a value keeps from which pieces can be made.
    ghost IsReady: { Self → Type 0 };

    /// Appends the next piece, and answers whether more may come.
    fn append_draft(&mut self, line: &mut Vec<u8>) -> Result<bool, AllocError>
        requires { IsReady self.old }
        ensures ready { OnOk result (IsReady self.new) };
}

/// The length of the text. It is no longer than can be counted.
pub fn count_drafts<P: Drafts>(alloc: Global, drafts: &mut P) -> Result<u64, AllocError>
    requires { P.IsReady drafts.old }
{
    let mut line = Vec::new(alloc);
    let mut count: u64 = 0;
    for _turn in 0..u64::MAX {
        line.clear();
        let more = drafts.append_draft(&mut line)?;
        let Some(sum) = count.checked_add(line.len() as u64) else {
            return Err(AllocError);
        };
        count = sum;
        if !more {
            return Ok(count);
        }
    }
    Err(AllocError)
}

/// Prints the text, each piece as it is made.
pub fn print_drafts<P: Drafts, W: Sink>(
    alloc: Global,
    drafts: &mut P,
    out: &mut W,
) -> Result<(), PrintFault>
    requires { P.IsReady drafts.old }
    ensures { (text : List ℕ) × Prints W.written W.faults W.sure out.old out.new text result }
{
    let mut line = Vec::new(alloc);
    for _turn in 0..u64::MAX {
        line.clear();
        let Ok(more) = drafts.append_draft(&mut line) else {
            return Err(PrintFault::Memory);
        };
        print_text(out, line.as_slice())?;
        if !more {
            return Ok(());
        }
    }
    Err(PrintFault::Memory)
}
