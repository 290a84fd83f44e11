// Turtle as a syntax.
ghost use Rattle.std.specs.Prelude.{◌≡◌, is_some};
ghost use Rattle.turtle_tokens.specs.Marks.{three_marks, is_quote};

use crate::TokenKind;
use crate::states::{accepts, class_of, is_final, next};
use token_scanner::Syntax;

fn is_quote(c: char) -> bool
    ensures { result ≡ is_quote c }
{
    c == '"' || c == '\''
}

/// Whether three equal quote marks begin the characters.
pub fn begin_three_marks(chars: &[char]) -> bool
    ensures { result ≡ is_some (three_marks chars.now) }
{
    chars.len() >= 3 && is_quote(chars[0]) && chars[1] == chars[0] && chars[2] == chars[0]
}

/// Turtle.
pub struct Turtle;

impl Syntax for Turtle {
    ghost use Rattle.turtle_tokens.specs.Scanning.{scanner};
    ghost use Rattle.turtle_tokens.specs.ScannerLaws.{right};

    type State = u8;

    type Kind = TokenKind;

    ghost scanner = { scanner };

    fn has_lines() -> bool {
        false
    }

    fn start() -> u8 {
        0
    }

    fn next(state: u8, c: char) -> Option<u8> {
        next(state, class_of(c))
    }

    fn accepts(state: u8) -> Option<TokenKind> {
        accepts(state)
    }

    fn is_final(state: u8) -> bool {
        is_final(state)
    }

    fn lengthens(_state: u8, _byte: u8) -> bool {
        false
    }

    // Three quote marks begin a long string or nothing.
    fn drops(kind: TokenKind, n: usize, chars: &[char]) -> bool {
        match kind {
            TokenKind::Str => n == 2 && begin_three_marks(chars),
            _ => false,
        }
    }

    ghost is_scanner = { right };
}
