// The command that reads its own sample.
ghost use Rattle.std.specs.Prelude.{◌≡◌, true, None, IfOk, IfErr};
ghost use Rattle.report_base.specs.Reports.{Writes};
ghost use Rattle.crm_matrix.specs.Samples.{sample_file as sample_bytes};
ghost use Rattle.rdf_reading.specs.Answers.{IsRefusal};
ghost use Rattle.rdf_reading.specs.Answers.Answer.{Read};
ghost use Rattle.crm_core.specs.Files.{file_answer};
ghost use Rattle.crm_core.specs.SampleReports.{sample_report};

use crate::Archive;
use crm_matrix::{report_sample, sample_file};
use crm_outside::Sink;
use rdf_reading::ReadRefusal;
use record_reports::report_refusal;
use report_base::{ReportFault, Status};
use std::alloc::Global;

const NAME: &str = "sample.nt";

// Makes the sample and reads it as a file is read.
fn read_sample(alloc: Global, n: u32) -> Result<Archive, ReadRefusal>
    ensures ok { IfOk result (λ a. file_answer true None (sample_bytes n) ≡ Read a.records) }
    ensures refused { IfErr result (λ e. IsRefusal e (file_answer true None (sample_bytes n))) }
{
    let Ok(bytes) = sample_file(alloc, n) else {
        return Err(ReadRefusal::Memory);
    };
    Archive::of_bytes(alloc, bytes.as_slice(), NAME, None)
}

/// Makes the records of n contexts, reads them as a file, and prints counts of what they say and of what follows.
///
/// The contexts are in four rows: each is before those that stand four to seven behind it; every fortieth is dated.
pub fn write_sample<W: Sink>(alloc: Global, n: u32, out: &mut W) -> Result<Status, ReportFault>
    ensures { Writes W.written W.faults W.sure out.old out.new (sample_report n) result }
{
    match read_sample(alloc, n) {
        Ok(archive) => report_sample(alloc, n, archive.records(), out),
        Err(ReadRefusal::Refused(refusal)) => report_refusal(alloc, refusal, out),
        Err(ReadRefusal::Memory) => Err(ReportFault::Memory),
    }
}
