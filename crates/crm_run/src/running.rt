// The top call.
ghost use Rattle.std.specs.Prelude.{◌≡◌, ◌⊎◌, ◌≤◌, length, IfSome, IfOk, Some, None, true, map, string_bytes};
ghost use Rattle.crm_outside.specs.Causes.{Rose};
ghost use Rattle.crm_run.specs.Outcomes.{Outcome, Ends, IsComplete, Faulted, IsUsage};
ghost use Rattle.crm_run.specs.Headline.{JudgesTruly, SaysTruly};
ghost use Rattle.crm_run.specs.Joins.{OrderIsFree};
ghost use Rattle.command_words.specs.Words.{command_of};
ghost use Rattle.command_words.specs.Tasks.{task_named, IsSound};
ghost use Rattle.crm_run.specs.Report.{usage_report, report};
ghost use Rattle.crm_run.specs.Runs.{Runs};

use crate::joining::run_join;
use crate::laws::{
    answers_are_true, bounds_are_true, conflicts_are_true, lists_are_true, moments_are_true,
    reports_are_true, tables_are_true,
};
use crate::listing::run_listing;
use crate::reporting::run_report;
use crate::telling::{ended, print_report};
use crate::verifying::run_verify;
use command_help::{write_help, write_version};
use command_words::{Task, read_words, task_of};
use crm_core::{Status, orders_of_records_are_a_set, write_sample};
use crm_outside::{Shelf, Sink};
use join_laws::{parts_of_names_in_another_order, what_is_found_is_the_same_in_any_order};
use std::alloc::{AllocError, Global};

const USAGE: &str = "usage: crm_cli COMMAND [--base IRI] WORDS\n";

// Does a task.
fn run_task<S: Shelf, W: Sink>(alloc: Global, task: &Task, shelf: &mut S, out: &mut W) -> Status
    requires { IsSound task.now }
    ensures { Runs W.written W.faults W.sure out.old out.new (S.files shelf.old) (S.honest shelf.old)
        (Rose (S.faults shelf.old) (S.faults shelf.new)) (Some task.now) result }
{
    match task {
        Task::Report { base, file, query } => {
            run_report(alloc, base, file.as_str(), query, shelf, out)
        }
        Task::Verify { base, file, cert } => {
            run_verify(alloc, base, file.as_str(), cert.as_str(), shelf, out)
        }
        Task::Join {
            base,
            report,
            files,
        } => run_join(alloc, base, *report, files.as_slice(), shelf, out),
        Task::List {
            base,
            file,
            listing,
        } => run_listing(alloc, base, file.as_str(), *listing, shelf, out),
        Task::Sample { n } => ended(write_sample(alloc, *n, out)),
        Task::Help { command } => ended(write_help(*command, out)),
        Task::Version => ended(write_version(out)),
    }
}

// What the words ask for, where they have a form.
fn read_task(alloc: Global, words: &[String]) -> Result<Option<Task>, AllocError>
    ensures { IfOk result (λ t. t ≡ task_named (map string_bytes words.now)) }
{
    match read_words(alloc, words)? {
        Some(command) => Ok(Some(task_of(command))),
        None => Ok(None),
    }
}

// Does what the words say.
fn run_words<S: Shelf, W: Sink>(
    alloc: Global,
    words: &[String],
    shelf: &mut S,
    out: &mut W,
) -> Status
    ensures runs { Runs W.written W.faults W.sure out.old out.new (S.files shelf.old) (S.honest shelf.old)
        (Rose (S.faults shelf.old) (S.faults shelf.new)) (task_named (map string_bytes words.now)) result }
    ensures no_form { task_named (map string_bytes words.now) ≡ None → Outcome W.written W.faults W.sure out.old out.new usage_report result }
{
    match read_task(alloc, words) {
        Ok(Some(task)) => run_task(alloc, &task, shelf, out),
        Ok(None) => print_report(out, USAGE.as_bytes(), Status::Usage),
        Err(_) => Status::Memory,
    }
}

/// Does what the words after the program's name say: reads files from the shelf and prints a report to the sink.
///
/// At `Done`, `Findings`, `Refused` and `Usage` the whole report of the words and the files is appended, at
/// `ReadFault` the whole line that names the file, at `WriteFault` and `Memory` a front of one of them.
pub fn run<S: Shelf, W: Sink>(alloc: Global, words: &[String], shelf: &mut S, out: &mut W) -> Status
    // the text is that of the report; or, where the shelf's count rose, the line of a read fault
    ensures report { IfSome (S.files shelf.old) (λ files.
        Ends W.written W.faults W.sure out.old out.new (report (map string_bytes words.now) files) result
        ⊎ Faulted W.written W.faults W.sure out.old out.new (Rose (S.faults shelf.old) (S.faults shelf.new)) files (task_named (map string_bytes words.now)) result) }
    ensures honest { S.honest shelf.old ≡ true → IfSome (S.files shelf.old) (λ files.
        Ends W.written W.faults W.sure out.old out.new (report (map string_bytes words.now) files) result) }
    // of a file that is read, or of several that are read as one, the report says what is true of every placing of its starts and ends
    ensures headline { IfSome (S.files shelf.old) (λ files. SaysTruly W.written out.old out.new files (task_named (map string_bytes words.now)) result) }
    // of several files as one, what is found doesn't depend on the order of their names
    ensures any_order { IfSome (S.files shelf.old) (λ files. OrderIsFree files (task_named (map string_bytes words.now))) }
    // where `verify` accepts the certificate of a file that is read, its verdict is true of the file's records
    ensures verdict { IfSome (S.files shelf.old) (λ files. JudgesTruly W.written out.old out.new files (task_named (map string_bytes words.now)) result) }
    ensures no_form { command_of (map string_bytes words.now) ≡ None → Outcome W.written W.faults W.sure out.old out.new usage_report result }
    // the words have no form, or in `explain` or `allen` over a file that is read within the limits A or B names no period
    ensures usage { result ≡ Status.Usage → IsUsage (S.files shelf.old) (task_named (map string_bytes words.now)) }
    ensures read { result ≡ Status.ReadFault → Rose (S.faults shelf.old) (S.faults shelf.new) }
    ensures write { result ≡ Status.WriteFault → Rose (W.faults out.old) (W.faults out.new) }
    // where neither count rose, the report is whole, or memory was wanting
    ensures calm { (Rose (S.faults shelf.old) (S.faults shelf.new) → ⊥) → (Rose (W.faults out.old) (W.faults out.new) → ⊥) → IfSome (S.files shelf.old) (λ files.
        IfSome (report (map string_bytes words.now) files) (λ r. IsComplete W.written W.faults W.sure out.old out.new r result)) }
    // so it is over an honest shelf and a sink that is sure of the text
    ensures certain { S.honest shelf.old ≡ true → IfSome (S.files shelf.old) (λ files.
        IfSome (report (map string_bytes words.now) files) (λ r. length r.text ≤ W.sure out.old →
        IsComplete W.written W.faults W.sure out.old out.new r result)) }
{
    reports_are_true();
    answers_are_true();
    tables_are_true();
    lists_are_true();
    bounds_are_true();
    moments_are_true();
    conflicts_are_true();
    orders_of_records_are_a_set();
    what_is_found_is_the_same_in_any_order();
    parts_of_names_in_another_order();
    run_words(alloc, words, shelf, out)
}
