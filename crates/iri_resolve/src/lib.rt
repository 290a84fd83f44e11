// IRI references: their parts, and their resolution against a base.
#![tactic(auto)]

mod dots;
mod resolution;
mod splitting;

pub use resolution::{ResolveFault, resolve};
pub use splitting::{Parts, Span, has_scheme, split};
