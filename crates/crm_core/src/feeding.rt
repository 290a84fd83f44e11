// A file fed to a reader in windows.
ghost use Rattle.std.specs.Prelude.{◌≡◌, ℕ, ◌+◌, ◌^◌, ◌<◌, ◌≤◌, List, ◌++◌, true, length, OnOk, IfOk, IfErr, IsErrOf, is_some};
ghost use Rattle.crm_outside.specs.Causes.{Rose};
ghost use Rattle.rdf_reading.specs.Answers.{Answer};
ghost use Rattle.ntriples_reader.specs.Feeding as ntriples;
ghost use Rattle.turtle_reader.specs.Reading as turtle;
ghost use Rattle.crm_core.specs.Files.{IsFedWhole, IsTakenLong};

use crate::ArchiveFault;
use crm_outside::{FILE_LIMIT, Shelf};
use ntriples_reader::NtReader;
use rdf_terms::{Code, Refusal};
use std::alloc::AllocError;
use turtle_reader::TurtleReader;

/// A reader of bytes that come in pieces, fewer than 2^32 in all.
pub(crate) trait Feeds {
    /// How many bytes were fed.
    ghost count: { Self → ℕ };

    /// The answer where these bytes are still fed.
    ghost promised: { Self → List ℕ → Answer };

    /// Takes the next piece.
    fn feed_piece(&mut self, piece: &[u8]) -> Result<(), AllocError>
        requires { count self.old + length piece.now < 2 ^ 32 }
        ensures count { OnOk result (count self.new ≡ count self.old + length piece.now) }
        ensures answer { OnOk result ((more : List ℕ) → promised self.new more ≡ promised self.old (piece.now ++ more)) };
}

impl Feeds for NtReader {
    ghost count = { λ r. r.fed.count };

    ghost promised = { λ r more. ntriples.promised r more };

    fn feed_piece(&mut self, piece: &[u8]) -> Result<(), AllocError> {
        self.feed(piece)
    }
}

impl Feeds for TurtleReader {
    ghost count = { λ r. r.fed.count };

    ghost promised = { λ r more. turtle.promised r more };

    fn feed_piece(&mut self, piece: &[u8]) -> Result<(), AllocError> {
        self.feed(piece)
    }
}

/// A reader to which a whole file was fed, and how many bytes the file has.
#[derive(Drop)]
pub(crate) struct FedFile<R> {
    pub reader: R,
    pub length: u64,
}

/// Feeds the open file to its end in windows of 4,096 bytes. A file that is too long is refused, one byte past the limit.
pub(crate) fn feed_file<S: Shelf, R: Feeds + Drop>(
    shelf: &mut S,
    mut reader: R,
) -> Result<FedFile<R>, ArchiveFault>
    requires { R.count reader ≡ 0 }
    ensures whole { IfOk result (λ f. IsFedWhole (S.left shelf.old) (S.left shelf.new) (R.promised reader) (R.promised f.reader) f.length) }
    ensures long { IfErr result (λ e. IsTakenLong (S.left shelf.old) (S.left shelf.new) e) }
    ensures failed { IsErrOf result ArchiveFault.Failed → Rose (S.faults shelf.old) (S.faults shelf.new) }
    ensures open { S.honest shelf.old ≡ true → is_some (S.left shelf.old) ≡ true → IsErrOf result ArchiveFault.Failed → ⊥ }
    ensures later { S.faults shelf.old ≤ S.faults shelf.new }
    ensures files { S.files shelf.new ≡ S.files shelf.old }
    ensures honest { S.honest shelf.new ≡ S.honest shelf.old }
{
    let mut window = [0u8; 4096];
    let mut taken = 0;
    'take: while taken <= FILE_LIMIT {
        let room = window.len().min(FILE_LIMIT + 1 - taken);
        let Ok(count) = shelf.read(&mut window[..room]) else {
            return Err(ArchiveFault::Failed);
        };
        if count == 0 {
            return Ok(FedFile {
                reader,
                length: taken as u64,
            });
        }
        let Ok(()) = reader.feed_piece(&window[..count]) else {
            return Err(ArchiveFault::Memory);
        };
        taken += count;
    }
    Err(ArchiveFault::Refused(Refusal {
        code: Code::L1,
        at: FILE_LIMIT as u64,
    }))
}
