// How a command ends, and why a report breaks off.
ghost use Rattle.std.specs.Prelude.{◌≡◌};
ghost use Rattle.report_base.specs.declared.status.ReportFault.TheVariants.{Memory};
ghost use Rattle.report_base.specs.Reports.{print_fault};

use crm_outside::PrintFault;
use std::alloc::AllocError;
use thiserror::Error;

/// The outcome of a command.
#[derive(Clone, Copy, Debug, PartialEq, Eq)]
pub enum Status {
    /// The whole report is printed.
    Done,
    /// The whole report is printed, and it tells of faults.
    Findings,
    /// The file is refused; the code and the place are printed.
    Refused,
    /// The words have no form of a command; the usage is printed.
    Usage,
    /// A call on the shelf failed; the name of the file is printed.
    ReadFault,
    /// A call on the sink failed; a front of the text is printed.
    WriteFault,
    /// Memory was wanting; a front of the text is printed.
    Memory,
}

/// Why a report was not printed whole. A front of it may have been.
#[derive(Clone, Copy, Debug, PartialEq, Eq, Error)]
pub enum ReportFault {
    /// A call on the sink failed.
    #[error("a call on the sink failed")]
    Failed,
    /// Memory was wanting.
    #[error("memory was wanting")]
    Memory,
}

impl From<AllocError> for ReportFault {
    ghost from_gives = { λ _ e. e ≡ Memory };

    fn from(_: AllocError) -> ReportFault {
        ReportFault::Memory
    }
}

impl From<PrintFault> for ReportFault {
    ghost from_gives = { λ f e. print_fault e ≡ f };

    fn from(fault: PrintFault) -> ReportFault {
        match fault {
            PrintFault::Failed => ReportFault::Failed,
            PrintFault::Memory => ReportFault::Memory,
        }
    }
}
