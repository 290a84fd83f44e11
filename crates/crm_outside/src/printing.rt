// Printing texts to a sink.
ghost use Rattle.std.specs.Prelude.{◌≡◌, IfErr};
ghost use Rattle.crm_outside.specs.Printing.{Prints};

use crate::{Sink, write_all};

/// Why a text was not printed whole. A front of it may have been written.
#[derive(Clone, Copy, Debug, PartialEq, Eq)]
pub enum PrintFault {
    /// A call on the sink failed.
    Failed,
    /// There was no memory for a piece of the text.
    Memory,
}

/// Prints a text. The only fault is `PrintFault::Failed`.
pub fn print_text<W: Sink>(out: &mut W, text: &[u8]) -> Result<(), PrintFault>
    ensures prints { Prints W.written W.faults W.sure out.old out.new text.now result }
    ensures fault { IfErr result (λ f. f ≡ PrintFault.Failed) }
{
    match write_all(out, text) {
        Ok(()) => Ok(()),
        Err(_) => Err(PrintFault::Failed),
    }
}
