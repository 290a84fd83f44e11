// What the characters of a token stand for.
ghost use Rattle.std.specs.Prelude.{◌≡◌, ◌≤◌, ◌-◌, ◌++◌, OnOk, IfOk, string_bytes, drop, take, length};
ghost use Rattle.std.specs.Char.{digit_value};
ghost use Rattle.text_patterns.specs.Patterns.{within};
ghost use Rattle.rdf_reading.specs.Values as spec;
ghost use lib.Utf8.{encodes};

use std::alloc::AllocError;

/// What is read of an escape: nothing, its backslash, or how many digits are still to come and the number of those that came.
#[derive(Clone, Copy)]
pub(crate) enum Pending {
    Plain,
    Slash,
    Digits(u32, u64),
}

fn letter_value(c: char) -> char
    ensures { result ≡ spec.letter_value c }
{
    match c {
        't' => '\t',
        'b' => '\u{8}',
        'n' => '\n',
        'r' => '\r',
        'f' => '\u{C}',
        _ => c,
    }
}

fn digit(c: char) -> u32
    ensures value { result ≡ digit_value c }
    ensures small { result ≤ 36 }
{
    match c {
        '0'..='9' => c as u32 - 48,
        'A'..='Z' => c as u32 - 55,
        'a'..='z' => c as u32 - 87,
        _ => 36,
    }
}

fn more_digits(number: u64, c: char) -> u64
    ensures { result ≡ spec.more_digits number c }
{
    if number < 0x1_0000_0000 {
        number * 16 + u64::from(digit(c))
    } else {
        0
    }
}

fn char_of(number: u64) -> char
    ensures { result ≡ spec.char_of number }
{
    if number < 0x11_0000 {
        char::from_u32(number as u32).unwrap_or('\u{FFFD}')
    } else {
        '\u{FFFD}'
    }
}

/// Whether no IRI may have the character unescaped.
pub fn is_excluded(c: char) -> bool
    ensures { result ≡ spec.is_excluded c }
{
    !matches!(
        c,
        '!' | '#'..=';' | '=' | '?'..='[' | ']' | '_' | 'a'..='z' | '~'..='\u{10FFFF}'
    )
}

// Appends the characters before the first backslash, and says how many these are.
fn push_plain(chars: &[char], out: &mut String) -> Result<usize, AllocError>
    ensures within { IfOk result (λ n. n ≤ length chars.now) }
    ensures value { IfOk result (λ n. string_bytes out.new ++ encodes (spec.value_from Pending.Plain (drop n chars.now))
        ≡ string_bytes out.old ++ encodes (spec.value_from Pending.Plain chars.now)) }
    ensures bad { IfOk result (λ n. spec.bad_from Pending.Plain (drop n chars.now) ≡ spec.bad_from Pending.Plain chars.now) }
{
    let mut count = 0;
    for c in chars {
        if *c == '\\' {
            return Ok(count);
        }
        out.push(*c)?;
        count += 1;
    }
    Ok(count)
}

// Appends the value of these characters, and says whether an escape gives a character that no IRI may have.
fn push_value(chars: &[char], out: &mut String) -> Result<bool, AllocError>
    ensures value { OnOk result (string_bytes out.new ≡ string_bytes out.old ++ encodes (spec.value_from Pending.Plain chars.now)) }
    ensures bad { IfOk result (λ b. b ≡ spec.bad_from Pending.Plain chars.now) }
{
    let mut bad = false;
    let mut pending = Pending::Plain;
    for c in chars {
        match pending {
            Pending::Plain => {
                if *c == '\\' {
                    pending = Pending::Slash;
                } else {
                    out.push(*c)?;
                }
            }
            Pending::Slash => match *c {
                'u' => pending = Pending::Digits(4, 0),
                'U' => pending = Pending::Digits(8, 0),
                _ => {
                    out.push(letter_value(*c))?;
                    pending = Pending::Plain;
                }
            },
            Pending::Digits(left, number) => {
                let next = more_digits(number, *c);
                if left <= 1 {
                    let value = char_of(next);
                    bad = bad || is_excluded(value);
                    out.push(value)?;
                    pending = Pending::Plain;
                } else {
                    pending = Pending::Digits(left - 1, next);
                }
            }
        }
    }
    Ok(bad)
}

/// Puts what these characters stand for into `out`, and says whether an escape gives a character that no IRI may have.
pub fn put_unescaped(chars: &[char], out: &mut String) -> Result<bool, AllocError>
    ensures value { OnOk result (string_bytes out.new ≡ encodes (spec.unescaped chars.now)) }
    ensures bad { IfOk result (λ b. b ≡ spec.has_bad_escape chars.now) }
{
    out.clear();
    // most values have no escape
    let plain = push_plain(chars, out)?;
    if plain == chars.len() {
        return Ok(false);
    }
    push_value(&chars[plain..], out)
}

/// Puts these characters into `out`.
pub fn put_chars(chars: &[char], out: &mut String) -> Result<(), AllocError>
    ensures { OnOk result (string_bytes out.new ≡ encodes chars.now) }
{
    out.clear();
    for c in chars {
        out.push(*c)?;
    }
    Ok(())
}

/// All but the first n characters and the last n; none where these are more than there are.
pub fn inside(chars: &[char], n: usize) -> &[char]
    ensures { result.now ≡ spec.inside n chars.now }
{
    if chars.len() < n || chars.len() - n < n {
        return &chars[..0];
    }
    &chars[n..chars.len() - n]
}

/// The characters from the n-th on.
pub fn behind(chars: &[char], n: usize) -> &[char]
    ensures { result.now ≡ drop n chars.now }
{
    if chars.len() < n {
        return &chars[..0];
    }
    &chars[n..]
}
