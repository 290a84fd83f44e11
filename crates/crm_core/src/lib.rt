//! The commands on a file: reading it from a shelf, and printing what is said of its records.
#![tactic(auto)]

mod archive;
mod faults;
mod feeding;
mod memory;
mod sample;
mod writing;

pub use archive::Archive;
pub use crm_certify::CertKind;
pub use faults::ArchiveFault;
pub use inference_reports::{is_blank_name, is_node_name, report_explain};
pub use order_core::Primitive;
pub use rdf_reading::ReadRefusal;
pub use record_reports::{report_check, report_orders};
pub use report_base::laws::orders_of_records_are_a_set;
pub use report_base::{ReportFault, Status};
pub use sample::write_sample;
pub use writing::{
    write_certificate, write_check, write_convert, write_explain, write_matrix, write_orders,
    write_reason, write_refusal, write_verdict,
};
