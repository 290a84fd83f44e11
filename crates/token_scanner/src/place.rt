// What stands between tokens.
ghost use Rattle.std.specs.Prelude.{◌≡◌};
ghost use Rattle.token_scanner.specs.Gaps as spec;

/// Where a character comes that is no token's.
#[derive(Clone, Copy, PartialEq, Eq, Debug)]
pub enum Place {
    /// At the beginning of the text.
    Beginning,
    /// Between tokens.
    Between,
    /// Inside a comment.
    Comment,
}

/// What such a character is: it is skipped, and the next one comes at this place; or a token begins.
#[derive(Clone, Copy)]
pub(crate) enum Gap {
    Skip(Place),
    Token,
}

// A line's end, which is a token or white space.
fn line_end(is_token: bool) -> Gap
    ensures { result ≡ spec.line_end is_token }
{
    if is_token {
        Gap::Token
    } else {
        Gap::Skip(Place::Between)
    }
}

fn gap_between(lines: bool, c: char) -> Gap
    ensures { result ≡ spec.gap_between lines c }
{
    match c {
        ' ' | '\t' => Gap::Skip(Place::Between),
        '\n' | '\r' => line_end(lines),
        '#' => Gap::Skip(Place::Comment),
        _ => Gap::Token,
    }
}

/// What a character is at a place, where lines' ends are tokens or none.
pub(crate) fn gap_at(lines: bool, place: Place, c: char) -> Gap
    ensures { result ≡ spec.gap_at lines place c }
{
    match place {
        Place::Beginning if c == '\u{FEFF}' => Gap::Skip(Place::Between),
        Place::Comment if c == '\n' || c == '\r' => line_end(lines),
        Place::Comment => Gap::Skip(Place::Comment),
        _ => gap_between(lines, c),
    }
}
