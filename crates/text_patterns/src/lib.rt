// Patterns of texts as data, their derivatives, and machines that read the spellings of several kinds at once.
#![tactic(auto)]

pub mod laws;
