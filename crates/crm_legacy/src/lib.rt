//! The temporal properties P114 to P120 of earlier releases of CIDOC CRM, and archives without them.
#![tactic(auto)]

mod gathering;
pub mod laws;
mod legacy;
mod moving;
mod names;

pub use legacy::{Legacy, LegacyProperty};
pub use moving::{ModernFault, modern};
