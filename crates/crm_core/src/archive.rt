// A file that was read.
ghost use Rattle.std.specs.Prelude.{◌≡◌, ◌↔◌, ◌≤◌, ℕ, List, Option, true, false, length, IfOk, IfErr, IfSome, IsTrue, IsErrOf, is_some};
ghost use Rattle.std.specs.Option.{option_map};
ghost use Rattle.iri_resolve.specs.Splitting.{has_scheme};
ghost use Rattle.crm_outside.specs.Causes.{Rose};
ghost use Rattle.crm_outside.specs.Shelves.{held};
ghost use Rattle.rdf_reading.specs.Answers.{IsRefusal};
ghost use Rattle.rdf_reading.specs.Answers.Answer.{Read};
ghost use Rattle.crm_core.specs.Files as spec;
ghost use Rattle.crm_core.specs.Files.{Answers, HasLength, HasLengthOf, IsAnswer, IsOut, IsReadOut, file_answer, records_of};

use crate::ArchiveFault;
use crate::feeding::feed_file;
use crate::memory::read_bytes;
use crm_outside::Shelf;
use ntriples_reader::NtReader;
use rdf_reading::ReadRefusal;
use rdf_terms::Records;
use std::alloc::Global;
use std::marker::Model;
use turtle_reader::TurtleReader;

/// The names and the triples of a file, and how many bytes it has.
#[derive(Drop)]
pub struct Archive {
    records: Records,
    length: u64,
}

impl Model for Archive {
    ghost use Rattle.crm_core.specs.Contents.{Contents};

    ghost Value = { Contents };

    ghost view = { λ a. record { records = a.records; length = a.length } };
}

// The archive of a file of this length.
fn archive_of(read: Result<Records, ReadRefusal>, length: u64) -> Result<Archive, ArchiveFault>
    ensures records { records_of result ≡ spec.archived read }
    ensures length { IfOk result (λ a. a.length ≡ length) }
{
    match read {
        Ok(records) => Ok(Archive { records, length }),
        Err(ReadRefusal::Refused(refusal)) => Err(ArchiveFault::Refused(refusal)),
        Err(ReadRefusal::Memory) => Err(ArchiveFault::Memory),
    }
}

// Reads the open file as N-Triples.
fn read_ntriples<S: Shelf>(alloc: Global, shelf: &mut S) -> Result<Archive, ArchiveFault>
    ensures answer { (base : Option (List ℕ)) → IfSome (S.left shelf.old) (λ bytes. IsAnswer (records_of result) (file_answer true base bytes)) }
    ensures length { HasLength (S.left shelf.old) result }
    ensures within { IfOk result (λ a. a.length ≤ 67108864) }
    ensures out { IsOut (S.left shelf.old) (S.left shelf.new) (records_of result) }
    ensures failed { IsErrOf result ArchiveFault.Failed → Rose (S.faults shelf.old) (S.faults shelf.new) }
    ensures open { S.honest shelf.old ≡ true → is_some (S.left shelf.old) ≡ true → IsErrOf result ArchiveFault.Failed → ⊥ }
    ensures later { S.faults shelf.old ≤ S.faults shelf.new }
    ensures files { S.files shelf.new ≡ S.files shelf.old }
    ensures honest { S.honest shelf.new ≡ S.honest shelf.old }
{
    let Ok(reader) = NtReader::new(alloc) else {
        return Err(ArchiveFault::Memory);
    };
    let fed = match feed_file(shelf, reader) {
        Ok(fed) => fed,
        Err(fault) => return Err(fault),
    };
    archive_of(fed.reader.finish(), fed.length)
}

fn is_ntriples(name: &str) -> bool
    ensures { result ≡ spec.is_ntriples name.now }
{
    name.as_bytes().ends_with(b".nt")
}

// Reads the open file as Turtle.
fn read_turtle<S: Shelf>(
    alloc: Global,
    shelf: &mut S,
    base: Option<&str>,
) -> Result<Archive, ArchiveFault>
    requires { IfSome base (λ b. IsTrue (has_scheme b.now)) }
    ensures answer { IfSome (S.left shelf.old) (λ bytes. IsAnswer (records_of result) (file_answer false (option_map (λ b. b.now) base.entry) bytes)) }
    ensures length { HasLength (S.left shelf.old) result }
    ensures within { IfOk result (λ a. a.length ≤ 67108864) }
    ensures out { IsOut (S.left shelf.old) (S.left shelf.new) (records_of result) }
    ensures failed { IsErrOf result ArchiveFault.Failed → Rose (S.faults shelf.old) (S.faults shelf.new) }
    ensures open { S.honest shelf.old ≡ true → is_some (S.left shelf.old) ≡ true → IsErrOf result ArchiveFault.Failed → ⊥ }
    ensures later { S.faults shelf.old ≤ S.faults shelf.new }
    ensures files { S.files shelf.new ≡ S.files shelf.old }
    ensures honest { S.honest shelf.new ≡ S.honest shelf.old }
{
    let Ok(reader) = TurtleReader::new(alloc, base) else {
        return Err(ArchiveFault::Memory);
    };
    let fed = match feed_file(shelf, reader) {
        Ok(fed) => fed,
        Err(fault) => return Err(fault),
    };
    archive_of(fed.reader.finish(), fed.length)
}

impl Archive {
    /// Reads a file in windows of 4,096 bytes; it is never held whole. A name that ends with `.nt` is that of
    /// N-Triples; every other is that of Turtle, whose references are resolved against the base.
    ///
    /// A refused file is read to its end too, since a text that is too long or is no UTF-8 is refused as that.
    pub fn read<S: Shelf>(
        alloc: Global,
        shelf: &mut S,
        name: &str,
        base: Option<&str>,
    ) -> Result<Archive, ArchiveFault>
        requires { IfSome base (λ b. IsTrue (has_scheme b.now)) }
        ensures answer { Answers (S.files shelf.old) (option_map (λ b. b.now) base.entry) name.now (records_of result) }
        ensures length { HasLengthOf (S.files shelf.old) name.now result }
        ensures within { IfOk result (λ a. a.length ≤ 67108864) }
        // nothing is left of the file, or one byte past the limit of length was taken, unless a call failed or memory was wanting
        ensures out { IsReadOut (S.files shelf.old) name.now (S.left shelf.new) (records_of result) }
        ensures failed { IsErrOf result ArchiveFault.Failed → Rose (S.faults shelf.old) (S.faults shelf.new) }
        ensures missing { S.honest shelf.old ≡ true → (IsErrOf result ArchiveFault.Failed ↔ (is_some (held (S.files shelf.old) name.now) ≡ false)) }
        ensures later { S.faults shelf.old ≤ S.faults shelf.new }
        ensures files { S.files shelf.new ≡ S.files shelf.old }
        ensures honest { S.honest shelf.new ≡ S.honest shelf.old }
    {
        let Ok(()) = shelf.open(name) else {
            return Err(ArchiveFault::Failed);
        };
        if is_ntriples(name) {
            return read_ntriples(alloc, shelf);
        }
        read_turtle(alloc, shelf, base)
    }

    /// Reads a file that is held in memory, by its name as `read` does.
    pub fn of_bytes(
        alloc: Global,
        bytes: &[u8],
        name: &str,
        base: Option<&str>,
    ) -> Result<Archive, ReadRefusal>
        requires { IfSome base (λ b. IsTrue (has_scheme b.now)) }
        ensures ok { IfOk result (λ a. file_answer (spec.is_ntriples name.now) (option_map (λ b. b.now) base.entry) bytes.now ≡ Read a.records) }
        ensures length { IfOk result (λ a. a.length ≡ length bytes.now) }
        ensures within { IfOk result (λ a. a.length ≤ 67108864) }
        ensures refused { IfErr result (λ e. IsRefusal e (file_answer (spec.is_ntriples name.now) (option_map (λ b. b.now) base.entry) bytes.now)) }
    {
        match read_bytes(alloc, bytes, is_ntriples(name), base) {
            Ok(records) => Ok(Archive {
                records,
                length: bytes.len() as u64,
            }),
            Err(refusal) => Err(refusal),
        }
    }

    /// An archive of these names and triples, as of a file with so many bytes.
    pub fn from_records(records: Records, len: u64) -> Archive
        ensures { result ≡ record { records = records; length = len } }
    {
        Archive {
            records,
            length: len,
        }
    }

    /// How many bytes the file has.
    pub fn len(&self) -> u64
        ensures { result ≡ self.now.length }
    {
        self.length
    }

    /// The names and the triples.
    pub fn records(&self) -> &Records
        ensures { result.now ≡ self.now.records }
    {
        &self.records
    }

    /// The names and the triples, taken out.
    pub fn into_records(self) -> Records
        ensures { result ≡ self.records }
    {
        self.records
    }
}
