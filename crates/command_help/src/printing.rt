// Help, and the version.
ghost use Rattle.std.specs.Prelude.{◌≡◌};
ghost use Rattle.report_base.specs.Reports.{Writes};
ghost use Rattle.command_help.specs.Help.{help_report, help_text, page_of, version_report};

use crate::pages;
use command_words::CommandName;
use crm_outside::{Sink, print_text};
use report_base::{ReportFault, Status};

fn page_of_command(command: CommandName) -> &'static str
    ensures { result.now ≡ page_of command }
{
    match command {
        CommandName::Orders => pages::ORDERS,
        CommandName::Check => pages::CHECK,
        CommandName::Reason => pages::REASON,
        CommandName::Explain => pages::EXPLAIN,
        CommandName::Conflicts => pages::CONFLICTS,
        CommandName::Bounds => pages::BOUNDS,
        CommandName::Dates => pages::DATES,
        CommandName::When => pages::WHEN,
        CommandName::Allen => pages::ALLEN,
        CommandName::Legacy => pages::LEGACY,
        CommandName::Join => pages::JOIN,
        CommandName::Lines => pages::LINES,
        CommandName::Matrix => pages::MATRIX,
        CommandName::Certify => pages::CERTIFY,
        CommandName::Verify => pages::VERIFY,
        CommandName::Convert => pages::CONVERT,
        CommandName::Sample => pages::SAMPLE,
        CommandName::Help => pages::HELP,
        CommandName::Version => pages::VERSION,
    }
}

fn text_of_help(command: Option<CommandName>) -> &'static str
    ensures { result.now ≡ help_text command }
{
    match command {
        None => pages::FORMS,
        Some(command) => page_of_command(command),
    }
}

/// Prints the forms of words of all commands, each with what it prints, and the statuses; or the page of one command: its
/// forms, what it prints, and when which status comes. Always `Done`.
pub fn write_help<W: Sink>(command: Option<CommandName>, out: &mut W) -> Result<Status, ReportFault>
    ensures { Writes W.written W.faults W.sure out.old out.new (help_report command) result }
{
    print_text(out, text_of_help(command).as_bytes())?;
    Ok(Status::Done)
}

/// Prints the version of the program, and the kit that proved it, as `rt version` tells it. Always `Done`.
pub fn write_version<W: Sink>(out: &mut W) -> Result<Status, ReportFault>
    ensures { Writes W.written W.faults W.sure out.old out.new version_report result }
{
    print_text(out, pages::VERSION_LINES.as_bytes())?;
    Ok(Status::Done)
}
