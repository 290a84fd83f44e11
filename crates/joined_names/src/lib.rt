//! The names of a file among those of files that are joined: what the terms of the file stand for, and the terms that its
//! names have among the joined ones, each looked up once.
#![tactic(auto)]

mod named;
mod table;

pub use named::{Named, NamedTriple, named_triple};
pub use table::NameTable;
