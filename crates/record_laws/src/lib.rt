//! Laws: what is found in records doesn't depend on the order of their triples, nor on the names of blank nodes.
#![tactic(auto)]

mod laws;

pub use laws::{
    consistency_is_of_what_is_said, extents_are_of_what_is_said, faults_are_of_what_is_said,
    what_follows_is_of_what_is_said,
};
