// What a command does: the files that it reads, and what it says of them.
ghost use Rattle.std.specs.Prelude.{◌≡◌};
ghost use Rattle.command_words.specs.Tasks as spec;

use crate::commands::{Command, CommandName, JoinKind, TextList};
use crm_certify::CertKind;
use crm_outside::Text;
use order_core::Primitive;

/// What is asked of the records of a file.
#[derive(Drop)]
pub enum Query {
    Orders,
    Check,
    Reason,
    /// Whether the primitive holds from the period that `a` names to the one that `b` names.
    Explain { a: Text, code: Primitive, b: Text },
    Certify { kind: CertKind },
    Matrix,
    Convert,
    Bounds,
    Dates,
    /// The periods at the instant `t`, in nanoseconds since 1970-01-01T00:00:00Z.
    When { t: i128 },
    Conflicts,
    Legacy,
    Allen,
    /// The possible relations of the period that `a` names to the one that `b` names.
    AllenPair { a: Text, b: Text },
}

/// What is told of a file by lines and columns.
#[derive(Clone, Copy)]
pub enum Listing {
    Lines,
}

/// The files that a command reads, and what it does with them. The base is that of Turtle files.
#[derive(Drop)]
pub enum Task {
    /// A report on the records of a file.
    Report {
        base: Option<Text>,
        file: Text,
        query: Query,
    },
    /// The verdict on a certificate of the records of a file.
    Verify {
        base: Option<Text>,
        file: Text,
        cert: Text,
    },
    /// A report on the records of several files as one.
    Join {
        base: Option<Text>,
        report: JoinKind,
        files: TextList,
    },
    /// What is told of a file by lines and columns.
    List {
        base: Option<Text>,
        file: Text,
        listing: Listing,
    },
    /// Counts over the records of so many contexts.
    Sample {
        n: u32,
    },
    /// The forms of words, of all commands or of one.
    Help {
        command: Option<CommandName>,
    },
    /// The version of the program.
    Version,
}

/// What is asked of the records of several files.
pub fn query_of(report: JoinKind) -> Query
    ensures { result ≡ spec.query_of report }
{
    match report {
        JoinKind::Check => Query::Check,
        JoinKind::Orders => Query::Orders,
        JoinKind::Reason => Query::Reason,
        JoinKind::Convert => Query::Convert,
    }
}

/// What a command does.
pub fn task_of(command: Command) -> Task
    ensures { result ≡ spec.task_of command }
{
    let (base, file, query) = match command {
        Command::Orders { base, file } => (base, file, Query::Orders),
        Command::Check { base, file } => (base, file, Query::Check),
        Command::Reason { base, file } => (base, file, Query::Reason),
        Command::Explain {
            base,
            file,
            a,
            code,
            b,
        } => (base, file, Query::Explain { a, code, b }),
        Command::Certify { base, kind, file } => (base, file, Query::Certify { kind }),
        Command::Matrix { base, file } => (base, file, Query::Matrix),
        Command::Convert { base, file } => (base, file, Query::Convert),
        Command::Bounds { base, file } => (base, file, Query::Bounds),
        Command::Dates { base, file } => (base, file, Query::Dates),
        Command::When { base, file, t } => (base, file, Query::When { t }),
        Command::Conflicts { base, file } => (base, file, Query::Conflicts),
        Command::Legacy { base, file } => (base, file, Query::Legacy),
        Command::Allen { base, file } => (base, file, Query::Allen),
        Command::AllenPair { base, file, a, b } => (base, file, Query::AllenPair { a, b }),
        Command::Verify { base, file, cert } => return Task::Verify { base, file, cert },
        Command::Join {
            base,
            report,
            files,
        } => {
            return Task::Join {
                base,
                report,
                files,
            };
        }
        Command::Lines { base, file } => {
            return Task::List {
                base,
                file,
                listing: Listing::Lines,
            };
        }
        Command::Sample { n } => return Task::Sample { n },
        Command::Help { command } => return Task::Help { command },
        Command::Version => return Task::Version,
    };
    Task::Report { base, file, query }
}
