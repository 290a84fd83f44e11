// An index by the number in a code, so that a look-up compares one row and not all.
ghost use Rattle.std.specs.Prelude.{◌≡◌, ◌<◌, ◌≤◌};
ghost use Rattle.crm_properties.specs.Index.{by_number, is_digit, digit, number_in, second_row, in_crm, in_archaeo, in_whole, candidate_of};

use crate::{COUNT, Space, table};

fn is_ascii_digit(byte: u8) -> bool
    ensures { result ≡ is_digit byte }
{
    48 <= byte && byte <= 57
}

// The value of an ASCII digit; another byte gives some number below 16.
fn digit_of(byte: u8) -> u16
    ensures value { result ≡ digit byte }
    ensures in_range { result < 16 }
{
    byte as u16 % 16
}

fn number_of(text: &[u8]) -> u16
    ensures { result ≡ number_in text.now }
{
    match text {
        [_, a, b, c, ..] if is_ascii_digit(*b) && is_ascii_digit(*c) => digit_of(*a) * 100
            + digit_of(*b) * 10
            + digit_of(*c),
        [_, a, b, ..] if is_ascii_digit(*b) => digit_of(*a) * 10 + digit_of(*b),
        [_, a, ..] => digit_of(*a),
        _ => 0,
    }
}

fn row_by_number(number: u16) -> u8
    ensures { result ≡ by_number number }
{
    if number < 22 {
        table::low(number as u8)
    } else if 81 <= number && number < 101 {
        table::middle((number - 81) as u8)
    } else if 173 <= number && number < 186 {
        table::high((number - 173) as u8)
    } else {
        match number {
            46 => 31,
            134 => 38,
            160 => 9,
            _ => COUNT,
        }
    }
}

fn row_with_b(row: u8) -> u8
    ensures { result ≡ second_row row }
{
    match row {
        13 => 16,
        14 => 15,
        _ => row,
    }
}

fn candidate_in_crm(text: &[u8]) -> u8
    ensures { result ≡ in_crm text.now }
{
    let row = row_by_number(number_of(text));
    match text.get(3) {
        Some(b'b') => row_with_b(row),
        _ => row,
    }
}

fn candidate_in_archaeo(text: &[u8]) -> u8
    ensures { result ≡ in_archaeo text.now }
{
    match text.get(2) {
        Some(b'1') => 39,
        Some(b'7') => 40,
        _ => COUNT,
    }
}

fn candidate_in_whole(text: &[u8]) -> u8
    ensures { result ≡ in_whole text.now }
{
    match text.len() {
        21 => 19,
        22 => 18,
        23 => if text[22] == b'o' { 42 } else { 17 },
        25 => if text[24] == b'm' { 41 } else { 43 },
        _ => COUNT,
    }
}

/// The only property whose code, or whose inverse's code, the text can be.
pub fn candidate(space: Space, text: &[u8]) -> u8
    ensures { result ≡ candidate_of space text.now }
{
    match space {
        Space::Crm => candidate_in_crm(text),
        Space::Archaeo => candidate_in_archaeo(text),
        Space::Whole => candidate_in_whole(text),
    }
}
