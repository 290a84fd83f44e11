//! The grammar of Turtle, read from left to right.
#![tactic(auto)]

mod laws;
mod states;
mod terminals;

pub use laws::{
    documents_have_one_tree, documents_lead_back_to_the_start,
    tokens_are_refused_where_no_document_begins,
};
pub use states::{Frame, State, Step};
pub use terminals::{AtWord, NameForm, Terminal};
