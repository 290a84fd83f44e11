// What is told of a file by lines and columns.
ghost use Rattle.std.specs.Prelude.{Some};
ghost use Rattle.crm_outside.specs.Causes.{Rose};
ghost use Rattle.crm_core.specs.Files.{file_answer, is_ntriples};
ghost use Rattle.report_base.specs.Reports.{Writes};
ghost use Rattle.command_words.specs.Tasks.{IsBase};
ghost use Rattle.crm_run.specs.Report.{listing_by, listing_lines};
ghost use Rattle.crm_run.specs.Runs.{Runs};

use crate::telling::{ended, print_read_fault, text_in};
use command_words::{Listing, Task};
use crm_core::{Archive, ReadRefusal, ReportFault, Status, write_refusal};
use crm_extra::write_lines;
use crm_outside::{FILE_LIMIT, Shelf, Sink, TakeFault, Text, read_all};
use rdf_terms::{Code, Refusal};
use std::alloc::Global;

// A file of more than 67,108,864 bytes.
const LONG: Refusal = Refusal {
    code: Code::L1,
    at: FILE_LIMIT as u64,
};

// Lists the records of a file by the lines and columns of its bytes.
fn write_listing<W: Sink>(
    alloc: Global,
    listing: Listing,
    bytes: &[u8],
    archive: &Archive,
    out: &mut W,
) -> Result<Status, ReportFault>
    ensures { Writes W.written W.faults W.sure out.old out.new (listing_lines listing bytes.now archive.now.records) result }
{
    match listing {
        Listing::Lines => write_lines(alloc, archive, bytes, out),
    }
}

fn list_bytes<W: Sink>(
    alloc: Global,
    base: &Option<Text>,
    file: &str,
    listing: Listing,
    bytes: &[u8],
    out: &mut W,
) -> Result<Status, ReportFault>
    requires { IsBase base.now }
    ensures { Writes W.written W.faults W.sure out.old out.new
        (listing_by listing bytes.now (file_answer (is_ntriples file.now) base.now bytes.now)) result }
{
    match Archive::of_bytes(alloc, bytes, file, text_in(base)) {
        Ok(archive) => write_listing(alloc, listing, bytes, &archive, out),
        Err(ReadRefusal::Refused(refusal)) => write_refusal(alloc, refusal, out),
        Err(ReadRefusal::Memory) => Err(ReportFault::Memory),
    }
}

/// Reads a file, and tells what is in it by lines and columns.
pub(crate) fn run_listing<S: Shelf, W: Sink>(
    alloc: Global,
    base: &Option<Text>,
    file: &str,
    listing: Listing,
    shelf: &mut S,
    out: &mut W,
) -> Status
    requires { IsBase base.now }
    ensures { Runs W.written W.faults W.sure out.old out.new (S.files shelf.old) (S.honest shelf.old)
        (Rose (S.faults shelf.old) (S.faults shelf.new)) (Some (Task.List base.now file.now listing)) result }
{
    match read_all(alloc, shelf, file) {
        Ok(bytes) => ended(list_bytes(alloc, base, file, listing, bytes.as_slice(), out)),
        Err(TakeFault::Failed) => print_read_fault(alloc, file, out),
        Err(TakeFault::TooLong) => ended(write_refusal(alloc, LONG, out)),
        Err(TakeFault::Memory) => Status::Memory,
    }
}
