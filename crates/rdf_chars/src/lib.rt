// Characters: UTF-8 byte by byte, the characters of names, and escapes.
#![tactic(auto)]

mod escapes;
pub mod laws;
mod sets;
mod utf8;

pub use escapes::{read_echar, read_uchar};
pub use sets::{is_pn_chars, is_pn_chars_base, is_pn_chars_u};
pub use utf8::{BadUtf8, Utf8Steps};
