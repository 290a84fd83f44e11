//! The words of the command line: the command that they name, and its task, which says what files it reads and what it
//! does with them.
#![tactic(auto)]

mod commands;
mod tasks;
mod words;

pub use commands::{Command, CommandName, JoinKind, TextList};
pub use tasks::{Listing, Query, Task, query_of, task_of};
pub use words::read_words;
