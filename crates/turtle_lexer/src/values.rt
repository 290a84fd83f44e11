// What the characters of a token stand for.
ghost use Rattle.std.specs.Prelude.{◌≡◌, ◌≤◌, OnOk, IfOk, string_bytes};
ghost use Rattle.token_scanner.specs.Widths.{width};
ghost use Rattle.turtle_lexer.specs.Values as spec;
ghost use lib.Utf8.{encodes};

use rdf_reading::{behind, inside, put_chars, put_unescaped};
use std::alloc::AllocError;
use turtle_tokens::{TokenKind, begin_three_marks};

// Puts a prefix directly followed by its local name, and answers the length of the prefix in bytes.
fn put_name(chars: &[char], out: &mut String) -> Result<u32, AllocError>
    requires { width chars.now ≤ 65536 }
    ensures value { OnOk result (string_bytes out.new ≡ encodes (spec.name chars.now)) }
    ensures cut { IfOk result (λ n. n ≡ width (spec.before_colon chars.now)) }
{
    out.clear();
    let mut cut: u32 = 0;
    let mut local = false;
    for c in chars {
        if local {
            if *c != '\\' {
                out.push(*c)?;
            }
        } else if *c == ':' {
            local = true;
        } else {
            out.push(*c)?;
            cut += c.len_utf8() as u32;
        }
    }
    Ok(cut)
}

/// Puts the value of a token of these characters into `out`, and answers the length of its prefix in bytes, if it is a name.
pub(crate) fn put_value(
    kind: TokenKind,
    chars: &[char],
    out: &mut String,
) -> Result<u32, AllocError>
    requires { width chars.now ≤ 65536 }
    ensures value { OnOk result (string_bytes out.new ≡ spec.value_text kind chars.now) }
    ensures cut { IfOk result (λ n. n ≡ spec.prefix_width kind chars.now) }
{
    match kind {
        TokenKind::PnameNs | TokenKind::PnameLn => return put_name(chars, out),
        TokenKind::IriRef => {
            put_unescaped(inside(chars, 1), out)?;
        }
        TokenKind::Str => {
            let marks = if begin_three_marks(chars) { 3 } else { 1 };
            put_unescaped(inside(chars, marks), out)?;
        }
        TokenKind::Blank => put_chars(behind(chars, 2), out)?,
        TokenKind::AtWord => put_chars(behind(chars, 1), out)?,
        TokenKind::Integer
        | TokenKind::Decimal
        | TokenKind::Double
        | TokenKind::A
        | TokenKind::True
        | TokenKind::False
        | TokenKind::Prefix
        | TokenKind::Base => put_chars(chars, out)?,
        _ => out.clear(),
    }
    Ok(0)
}
