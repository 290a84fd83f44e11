// What the words of the command line can ask for.
use crm_certify::CertKind;
use crm_outside::{Items, Text};
use order_core::Primitive;

/// The commands, in the order in which they are listed. The first word of a command line is one's name in lower case.
#[derive(Clone, Copy)]
pub enum CommandName {
    Orders,
    Check,
    Reason,
    Explain,
    Conflicts,
    Bounds,
    Dates,
    When,
    Allen,
    Legacy,
    Join,
    Lines,
    Matrix,
    Certify,
    Verify,
    Convert,
    Sample,
    Help,
    Version,
}

/// What is reported of several files as one.
#[derive(Clone, Copy)]
pub enum JoinKind {
    Check,
    Orders,
    Reason,
    Convert,
}

/// Texts.
pub type TextList = Items<Text>;

/// What the words ask for. The base is that of Turtle files.
#[derive(Drop)]
pub enum Command {
    Orders {
        base: Option<Text>,
        file: Text,
    },
    Check {
        base: Option<Text>,
        file: Text,
    },
    Reason {
        base: Option<Text>,
        file: Text,
    },
    /// Whether the primitive holds from the period that `a` names to the one that `b` names.
    Explain {
        base: Option<Text>,
        file: Text,
        a: Text,
        code: Primitive,
        b: Text,
    },
    Certify {
        base: Option<Text>,
        kind: CertKind,
        file: Text,
    },
    /// Whether the file `cert` certifies the other.
    Verify {
        base: Option<Text>,
        file: Text,
        cert: Text,
    },
    Matrix {
        base: Option<Text>,
        file: Text,
    },
    Convert {
        base: Option<Text>,
        file: Text,
    },
    Bounds {
        base: Option<Text>,
        file: Text,
    },
    /// The periods by dates of the calendar.
    Dates {
        base: Option<Text>,
        file: Text,
    },
    /// The periods at the instant `t`, in nanoseconds since 1970-01-01T00:00:00Z.
    When {
        base: Option<Text>,
        file: Text,
        t: i128,
    },
    /// The contradictions, and the statements that could be wrong.
    Conflicts {
        base: Option<Text>,
        file: Text,
    },
    /// The triples in today's properties.
    Legacy {
        base: Option<Text>,
        file: Text,
    },
    /// The possible relations of each two periods.
    Allen {
        base: Option<Text>,
        file: Text,
    },
    /// The possible relations of the period that `a` names to the one that `b` names.
    AllenPair {
        base: Option<Text>,
        file: Text,
        a: Text,
        b: Text,
    },
    /// A report on 2 to 16 files as one.
    Join {
        base: Option<Text>,
        report: JoinKind,
        files: TextList,
    },
    /// The triples with line and column.
    Lines {
        base: Option<Text>,
        file: Text,
    },
    /// Counts over the records of so many contexts, 1 to 999.
    Sample {
        n: u32,
    },
    /// The forms of words, of all commands or of one.
    Help {
        command: Option<CommandName>,
    },
    /// The version of the program.
    Version,
}
