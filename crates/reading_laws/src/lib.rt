//! What is read of Turtle and of N-Triples, and what is refused, by trees, tokens and conditions in the standards' terms.
#![tactic(auto)]

mod documents;
mod laws;

pub use documents::{
    bytes_are_refused_for_cause, bytes_that_are_read_are_a_document, documents_mean_what_is_read,
};
pub use laws::{
    canonical_lines_of_turtle_read_back, directives_stand_for_what_follows,
    iris_that_are_read_are_iris, lines_are_read_for_what_they_say,
    lines_are_refused_for_their_cause, texts_are_read_for_what_they_say,
    texts_are_refused_for_their_cause, values_are_those_of_the_parts, what_is_read_is_orderly,
};
