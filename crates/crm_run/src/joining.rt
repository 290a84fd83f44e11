// Reports on the records of several files as one.
ghost use Rattle.std.specs.Prelude.{◌≡◌, ◌≤◌, ◌<◌, length, Err, IfOk, IfErr, IfSome, IsErrOf, Some, true, false, is_some};
ghost use Rattle.crm_outside.specs.Causes.{Rose};
ghost use Rattle.crm_outside.specs.Shelves.{held};
ghost use Rattle.crm_core.specs.Files.{Answers};
ghost use Rattle.report_base.specs.Reports.{Writes, IsEnding};
ghost use Rattle.command_words.specs.Tasks.{IsBase, query_of as asked_of};
ghost use Rattle.crm_run.specs.Joins.{AreJoined, AreReadBefore, IsJoinedOf, IsJoinedWith, joining_report, name_at};
ghost use Rattle.crm_run.specs.Report.{records_report};
ghost use Rattle.crm_run.specs.Runs.{Runs};

use crate::reporting::write_report;
use crate::telling::{ended, print_part_fault, text_in};
use archive_join::{JoinFault, Joiner};
use command_words::{JoinKind, Task, query_of};
use crm_core::{Archive, ArchiveFault, ReportFault, Status, write_refusal};
use crm_outside::{Shelf, Sink, Text};
use rdf_terms::Refusal;
use std::alloc::Global;

/// What was joined of the files so far.
#[derive(Drop)]
pub(crate) enum Joining {
    Joined(Joiner),
    /// The files are refused together, which is told once each of them is read.
    Refused(Refusal),
}

/// Why one of the files is not read, with its number, counted from 0.
#[derive(Clone, Copy)]
pub(crate) struct PartFault {
    pub number: usize,
    pub fault: ArchiveFault,
}

fn join_archive(joining: Joining, archive: Archive) -> Result<Joining, ArchiveFault>
    ensures ok { IfOk result (λ j. IsJoinedWith joining archive j) }
    ensures err { IfErr result (λ f. f ≡ ArchiveFault.Memory) }
{
    match joining {
        Joining::Joined(joiner) => match joiner.add(archive) {
            Ok(joiner) => Ok(Joining::Joined(joiner)),
            Err(JoinFault::Refused(refusal)) => Ok(Joining::Refused(refusal)),
            Err(JoinFault::Memory) => Err(ArchiveFault::Memory),
        },
        Joining::Refused(refusal) => Ok(Joining::Refused(refusal)),
    }
}

// Reads a file, and joins it to those before it.
fn join_file<S: Shelf>(
    alloc: Global,
    base: &Option<Text>,
    file: &str,
    joining: Joining,
    shelf: &mut S,
) -> Result<Joining, ArchiveFault>
    requires { IsBase base.now }
    ensures ok { IfOk result (λ j. IfSome (S.files shelf.old) (λ files. IsJoinedOf base.now files file.now joining j)) }
    ensures err { IfErr result (λ f. Answers (S.files shelf.old) base.now file.now (Err f)) }
    ensures failed { IsErrOf result ArchiveFault.Failed → Rose (S.faults shelf.old) (S.faults shelf.new) }
    ensures missing { S.honest shelf.old ≡ true → IsErrOf result ArchiveFault.Failed → is_some (held (S.files shelf.old) file.now) ≡ false }
    ensures later { S.faults shelf.old ≤ S.faults shelf.new }
    ensures files { S.files shelf.new ≡ S.files shelf.old }
    ensures honest { S.honest shelf.new ≡ S.honest shelf.old }
{
    match Archive::read(alloc, shelf, file, text_in(base)) {
        Ok(archive) => join_archive(joining, archive),
        Err(fault) => Err(fault),
    }
}

// Reads the files in order and joins them, up to the first that is not read.
fn join_files<S: Shelf>(
    alloc: Global,
    base: &Option<Text>,
    files: &[Text],
    shelf: &mut S,
) -> Result<Joining, PartFault>
    requires { IsBase base.now }
    ensures ok { IfOk result (λ j. IfSome (S.files shelf.old) (λ fs. AreJoined base.now fs files.now j)) }
    ensures within { IfErr result (λ p. p.number < length files.now) }
    ensures before { IfErr result (λ p. IfSome (S.files shelf.old) (λ fs. AreReadBefore base.now fs files.now p.number)) }
    ensures err { IfErr result (λ p. Answers (S.files shelf.old) base.now (name_at files.now p.number) (Err p.fault)) }
    ensures failed { IfErr result (λ p. p.fault ≡ ArchiveFault.Failed → Rose (S.faults shelf.old) (S.faults shelf.new)) }
    ensures missing { S.honest shelf.old ≡ true → IfErr result (λ p. p.fault ≡ ArchiveFault.Failed →
        is_some (held (S.files shelf.old) (name_at files.now p.number)) ≡ false) }
{
    let mut joining = Joining::Joined(Joiner::new(alloc));
    for k in 0..files.len() {
        joining = match join_file(alloc, base, files[k].as_str(), joining, shelf) {
            Ok(joining) => joining,
            Err(fault) => return Err(PartFault { number: k, fault }),
        };
    }
    Ok(joining)
}

// Writes what is said of files that were read, or why they are refused together.
fn write_joined<W: Sink>(
    alloc: Global,
    report: JoinKind,
    joining: Joining,
    out: &mut W,
) -> Result<Status, ReportFault>
    ensures report { IfSome (joining_report (records_report (asked_of report)) joining) (λ r. Writes W.written W.faults W.sure out.old out.new r result) }
    ensures ending { IfOk result IsEnding }
    ensures usage { IfOk result (λ s. s ≡ Status.Usage → ⊥) }
    ensures failed { IsErrOf result ReportFault.Failed → Rose (W.faults out.old) (W.faults out.new) }
{
    match joining {
        Joining::Joined(joiner) => write_report(alloc, &query_of(report), &joiner.finish(), out),
        Joining::Refused(refusal) => write_refusal(alloc, refusal, out),
    }
}

/// Reads several files, and reports on their records as one.
pub(crate) fn run_join<S: Shelf, W: Sink>(
    alloc: Global,
    base: &Option<Text>,
    report: JoinKind,
    files: &[Text],
    shelf: &mut S,
    out: &mut W,
) -> Status
    requires { IsBase base.now }
    ensures { Runs W.written W.faults W.sure out.old out.new (S.files shelf.old) (S.honest shelf.old)
        (Rose (S.faults shelf.old) (S.faults shelf.new)) (Some (Task.Join base.now report files.now)) result }
{
    match join_files(alloc, base, files, shelf) {
        Ok(joining) => ended(write_joined(alloc, report, joining, out)),
        Err(part) => print_part_fault(alloc, part, files[part.number].as_str(), out),
    }
}
