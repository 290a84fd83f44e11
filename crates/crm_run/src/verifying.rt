// Verdicts on certificates.
ghost use Rattle.std.specs.Prelude.{◌≡◌, ◌≤◌, IfSome, Some};
ghost use Rattle.crm_outside.specs.Causes.{Rose};
ghost use Rattle.crm_run.specs.Headline.{IsReport, IsSaid, IsTrueVerdict};
ghost use Rattle.command_words.specs.Tasks.{IsBase};
ghost use Rattle.crm_run.specs.Runs.{Runs};

use crate::telling::{ended, print_archive_fault, print_read_fault, print_report, text_in};
use command_words::Task;
use crm_core::{Archive, Status, write_verdict};
use crm_outside::{Shelf, Sink, TakeFault, Text, read_all};
use std::alloc::Global;

const LONG_CERTIFICATE: &str = "refused certificate L1 at 67108864\n";

// Judges the certificate of a name against a file that was read.
fn judge<S: Shelf, W: Sink>(
    alloc: Global,
    archive: &Archive,
    cert: &str,
    shelf: &mut S,
    out: &mut W,
) -> Status
    ensures usage { result ≡ Status.Usage → ⊥ }
    ensures read { result ≡ Status.ReadFault → Rose (S.faults shelf.old) (S.faults shelf.new) }
    ensures write { result ≡ Status.WriteFault → Rose (W.faults out.old) (W.faults out.new) }
    ensures later { S.faults shelf.old ≤ S.faults shelf.new }
    ensures verdict { IfSome (S.files shelf.old) (λ files. IsReport result →
        IfSome (files cert.now) (λ bytes. IsSaid W.written out.old out.new (IsTrueVerdict archive.now.records bytes))) }
{
    match read_all(alloc, shelf, cert) {
        Ok(bytes) => ended(write_verdict(alloc, archive, bytes.as_slice(), out)),
        Err(TakeFault::Failed) => print_read_fault(alloc, cert, out),
        Err(TakeFault::TooLong) => print_report(out, LONG_CERTIFICATE.as_bytes(), Status::Refused),
        Err(TakeFault::Memory) => Status::Memory,
    }
}

/// Reads a file, and judges a certificate of its records.
pub(crate) fn run_verify<S: Shelf, W: Sink>(
    alloc: Global,
    base: &Option<Text>,
    file: &str,
    cert: &str,
    shelf: &mut S,
    out: &mut W,
) -> Status
    requires { IsBase base.now }
    ensures { Runs W.written W.faults W.sure out.old out.new (S.files shelf.old) (S.honest shelf.old)
        (Rose (S.faults shelf.old) (S.faults shelf.new)) (Some (Task.Verify base.now file.now cert.now)) result }
{
    match Archive::read(alloc, shelf, file, text_in(base)) {
        Ok(archive) => judge(alloc, &archive, cert, shelf, out),
        Err(fault) => print_archive_fault(alloc, file, fault, out),
    }
}
