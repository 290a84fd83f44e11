//! What the commands `reason` and `explain` print of records: what follows from their orders, and why.
#![tactic(auto)]

mod asking;
mod explaining;
pub mod laws;
mod node_names;
mod reasoning;

pub use asking::is_blank_name;
pub use explaining::report_explain;
pub use node_names::{is_iri, is_node_name};
pub use reasoning::report_reason;
