// A file that is held in memory, given to its reader as one piece.
ghost use Rattle.std.specs.Prelude.{◌≡◌, ◌≤◌, false, true, length, IfOk, IfErr, IfSome, IsTrue};
ghost use Rattle.std.specs.Option.{option_map};
ghost use Rattle.iri_resolve.specs.Splitting.{has_scheme};
ghost use Rattle.rdf_reading.specs.Answers.{IsRefusal};
ghost use Rattle.rdf_reading.specs.Answers.Answer.{Read};
ghost use Rattle.ntriples_reader.specs.Feeding as ntriples;
ghost use Rattle.turtle_reader.specs.Answers as turtle;
ghost use Rattle.crm_core.specs.Files.{file_answer};

use crm_outside::FILE_LIMIT;
use ntriples_reader::NtReader;
use rdf_reading::ReadRefusal;
use rdf_terms::{Code, Records, Refusal};
use std::alloc::Global;
use turtle_reader::TurtleReader;

fn read_ntriples(alloc: Global, bytes: &[u8]) -> Result<Records, ReadRefusal>
    requires { length bytes.now ≤ 67108864 }
    ensures ok { IfOk result (λ r. ntriples.answer bytes.now ≡ Read r) }
    ensures refused { IfErr result (λ e. IsRefusal e (ntriples.answer bytes.now)) }
{
    let Ok(mut reader) = NtReader::new(alloc) else {
        return Err(ReadRefusal::Memory);
    };
    let Ok(()) = reader.feed(bytes) else {
        return Err(ReadRefusal::Memory);
    };
    reader.finish()
}

fn read_turtle(alloc: Global, bytes: &[u8], base: Option<&str>) -> Result<Records, ReadRefusal>
    requires scheme { IfSome base (λ b. IsTrue (has_scheme b.now)) }
    requires short { length bytes.now ≤ 67108864 }
    ensures ok { IfOk result (λ r. turtle.answer (option_map (λ b. b.now) base.entry) bytes.now ≡ Read r) }
    ensures refused { IfErr result (λ e. IsRefusal e (turtle.answer (option_map (λ b. b.now) base.entry) bytes.now)) }
{
    let Ok(mut reader) = TurtleReader::new(alloc, base) else {
        return Err(ReadRefusal::Memory);
    };
    let Ok(()) = reader.feed(bytes) else {
        return Err(ReadRefusal::Memory);
    };
    reader.finish()
}

/// Reads the bytes of a file as N-Triples, or as Turtle with a base.
pub(crate) fn read_bytes(
    alloc: Global,
    bytes: &[u8],
    is_ntriples: bool,
    base: Option<&str>,
) -> Result<Records, ReadRefusal>
    requires { IfSome base (λ b. IsTrue (has_scheme b.now)) }
    ensures ok { IfOk result (λ r. file_answer is_ntriples (option_map (λ b. b.now) base.entry) bytes.now ≡ Read r) }
    ensures short { IfOk result (λ r. length bytes.now ≤ 67108864) }
    ensures refused { IfErr result (λ e. IsRefusal e (file_answer is_ntriples (option_map (λ b. b.now) base.entry) bytes.now)) }
{
    if bytes.len() > FILE_LIMIT {
        return Err(ReadRefusal::Refused(Refusal {
            code: Code::L1,
            at: FILE_LIMIT as u64,
        }));
    }
    if is_ntriples {
        return read_ntriples(alloc, bytes);
    }
    read_turtle(alloc, bytes, base)
}
