//! Laws: what is found in several files as one doesn't depend on their order.
#![tactic(auto)]

mod laws;

pub use laws::{
    files_are_as_few_in_any_order, files_in_another_order_say_the_same,
    parts_of_names_in_another_order, what_is_found_is_the_same_in_any_order,
};
