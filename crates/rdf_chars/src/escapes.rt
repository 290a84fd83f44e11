// Escapes.
ghost use Rattle.std.specs.Prelude.{◌≡◌, ◌≤◌, ◌<◌, ◌^◌, drop, length};
ghost use Rattle.rdf_chars.specs.Escapes.{IsRead, IsUchar, IsEchar, escaped, hexadecimal, digits_behind};

/// The number that these hexadecimal digits spell, if they are digits.
fn number(digits: &[char]) -> Option<u32>
    requires { length digits.now ≤ 8 }
    ensures { result ≡ hexadecimal 0 digits.now }
{
    let mut value: u64 = 0;
    for c in digits {
        match c.to_digit(16) {
            Some(digit) => value = value * 16 + u64::from(digit),
            None => return None,
        }
    }
    Some(value as u32)
}

/// How many digits stand behind a backslash and this letter.
fn digits_behind(mark: char) -> Option<usize>
    ensures { result ≡ digits_behind mark }
{
    match mark {
        'u' => Some(4),
        'U' => Some(8),
        _ => None,
    }
}

/// The character of `\uXXXX` or `\UXXXXXXXX` at the place `from`, and the place behind it.
///
/// `None` where no such escape of a Unicode scalar value begins there.
pub fn read_uchar(chars: &[char], from: usize) -> Option<(char, usize)>
    ensures { IsRead IsUchar (drop from chars.now) from result }
{
    let rest = chars.get(from..)?;
    if rest.len() < 2 || rest[0] != '\\' {
        return None;
    }
    let count = digits_behind(rest[1])?;
    let digits = rest.get(2..2 + count)?;
    let c = char::from_u32(number(digits)?)?;
    Some((c, from + 2 + count))
}

fn escaped(letter: char) -> Option<char>
    ensures { result ≡ escaped letter }
{
    match letter {
        't' => Some('\t'),
        'b' => Some('\u{8}'),
        'n' => Some('\n'),
        'r' => Some('\r'),
        'f' => Some('\u{C}'),
        '"' | '\'' | '\\' => Some(letter),
        _ => None,
    }
}

/// The character of `\t`, `\b`, `\n`, `\r`, `\f`, `\"`, `\'` or `\\` at the place `from`, and the place behind it.
///
/// `None` where no such escape begins there.
pub fn read_echar(chars: &[char], from: usize) -> Option<(char, usize)>
    ensures { IsRead IsEchar (drop from chars.now) from result }
{
    let rest = chars.get(from..)?;
    if rest.len() < 2 || rest[0] != '\\' {
        return None;
    }
    let c = escaped(rest[1])?;
    Some((c, from + 2))
}
