//! Lines and columns of a text, by the offsets of its bytes.
//!
//! A line ends with a line feed, with a carriage return and a line feed, or with a carriage return alone. A column
//! counts the characters of UTF-8: a tab, a combining mark and one above U+FFFF are one each. The mark of the byte order
//! at the beginning of a text is none of them.
#![tactic(auto)]

mod laws;
mod places;

pub use laws::places_ascend;
pub use places::{Place, Places};
