// The states of the machine by number, and what one more character does.
ghost use Rattle.std.specs.Prelude.{◌≡◌, ◌<◌};
ghost use Rattle.turtle_tokens.specs.Steps.{class_at, next, accepts, is_final, kind_numbered, row_of};

use crate::TokenKind;
use crate::table::{ASCII, CLASSES, ENDS, FINAL, INNER, LETTERS, NEXT, OTHERS, STATES};
use rdf_chars::{is_pn_chars, is_pn_chars_base};

/// The class of a character.
pub(crate) fn class_of(c: char) -> u8
    ensures class { result ≡ class_at c }
    ensures range { c < 1114112 }
{
    let n = c as u32;
    if n < 128 {
        ASCII[n as usize]
    } else if is_pn_chars_base(c) {
        LETTERS
    } else if is_pn_chars(c) {
        INNER
    } else {
        OTHERS
    }
}

fn row_of(state: u8) -> usize
    ensures row { result ≡ row_of state }
    ensures small { result < 133 }
{
    if state < STATES {
        usize::from(state)
    } else {
        0
    }
}

/// The state behind one more character of this class, if some token goes on so.
pub(crate) fn next(state: u8, class: u8) -> Option<u8>
    ensures { result ≡ next state class }
{
    let column = if class < CLASSES { class } else { 0 };
    let next = NEXT[row_of(state)][usize::from(column)];
    if next < STATES { Some(next) } else { None }
}

fn kind_numbered(n: u8) -> Option<TokenKind>
    ensures { result ≡ kind_numbered n }
{
    match n {
        0 => Some(TokenKind::IriRef),
        1 => Some(TokenKind::PnameNs),
        2 => Some(TokenKind::PnameLn),
        3 => Some(TokenKind::Blank),
        4 => Some(TokenKind::AtWord),
        5 => Some(TokenKind::Integer),
        6 => Some(TokenKind::Decimal),
        7 => Some(TokenKind::Double),
        8 => Some(TokenKind::Str),
        9 => Some(TokenKind::A),
        10 => Some(TokenKind::True),
        11 => Some(TokenKind::False),
        12 => Some(TokenKind::Prefix),
        13 => Some(TokenKind::Base),
        14 => Some(TokenKind::Dot),
        15 => Some(TokenKind::Semicolon),
        16 => Some(TokenKind::Comma),
        17 => Some(TokenKind::OpenSquare),
        18 => Some(TokenKind::CloseSquare),
        19 => Some(TokenKind::OpenRound),
        20 => Some(TokenKind::CloseRound),
        21 => Some(TokenKind::Carets),
        _ => None,
    }
}

/// The kind of token that ends in the state, if one does.
pub(crate) fn accepts(state: u8) -> Option<TokenKind>
    ensures { result ≡ accepts state }
{
    kind_numbered(ENDS[row_of(state)])
}

/// Whether no token goes on behind the state.
pub(crate) fn is_final(state: u8) -> bool
    ensures { result ≡ is_final state }
{
    FINAL[row_of(state)]
}
