// Words, numbers and instants, read by place.
ghost use Rattle.std.specs.Prelude.{◌≡◌, ◌<◌, ◌≤◌, ◌+◌, ◌*◌, ◌-◌, ◌^◌, cond, ◌&&◌, nat_lt, nat_le, Some, None, IfOk, IfErr, IfSome, length, drop, slice_get, ◌↔◌, true, negsuc};
ghost use Rattle.std.specs.Fmt.{decimal, signed_decimal};
ghost use Rattle.certificate_trees.specs.Reads.{IsRead};
ghost use Rattle.certificate_trees.specs.Beginnings.{Word, IsWhole, IsRefused, IsDigit};
ghost use Rattle.certificate_trees.specs.Grammar.{Number, Instant, NoDigit, IsFull};
ghost use Rattle.certificate_trees.specs.declared.refusals.CertRefusal.TheVariants.{K1};

use crate::CertRefusal;

/// A value that was read, and the place behind it.
#[derive(Drop)]
pub struct Found<T> {
    pub value: T,
    pub to: usize,
}

/// The byte at a place; None at the end of the text.
pub fn byte_at(text: &[u8], at: usize) -> Option<u8>
    ensures { result ≡ slice_get text.now at }
{
    text.get(at).copied()
}

/// The place behind a word, which must stand here; where it doesn't, K1 at its first byte that is another.
pub fn read_word(text: &[u8], at: usize, word: &[u8]) -> Result<usize, CertRefusal>
    requires { at ≤ length text.now }
    ensures read { IfOk result (λ to. IsRead text.now at to word.now) }
    ensures moves { IfOk result (λ to. to ≡ at + length word.now) }
    ensures whole { IfOk result (λ to. IsWhole (Word word.now) text.now at to) }
    ensures refused { IfErr result (λ e. IsRefused (Word word.now) None text.now at e) }
{
    for k in 0..word.len() {
        if !stands_at(text, at + k, word[k]) {
            return Err(CertRefusal::K1((at + k) as u64));
        }
    }
    Ok(at + word.len())
}

/// Whether this byte stands here.
pub fn stands_at(text: &[u8], at: usize, byte: u8) -> bool
    ensures stands { (result ≡ true) ↔ (slice_get text.now at ≡ Some byte) }
    ensures within { result ≡ true → at < length text.now }
{
    byte_at(text, at) == Some(byte)
}

fn digit_at(text: &[u8], at: usize) -> Option<u8>
    ensures digit { IfSome result (λ d. (d < 10) × (slice_get text.now at ≡ Some (48 + d))) }
    ensures none { result ≡ None → NoDigit text.now at }
{
    match byte_at(text, at) {
        Some(byte) if b'0' <= byte && byte <= b'9' => Some(byte - b'0'),
        _ => None,
    }
}

// The magnitude with one more digit, where it stays within the bound and no zero leads.
fn extended(magnitude: u128, digit: u8, bound: u128) -> Option<u128>
    ensures more { IfSome result (λ more. (0 < magnitude) × (more ≡ magnitude * 10 + digit) × (more ≤ bound)) }
    ensures none { result ≡ None → 0 < magnitude → magnitude * 10 + digit ≤ bound → ⊥ }
{
    let digit = digit as u128;
    if magnitude > 0 && digit <= bound && magnitude <= (bound - digit) / 10 {
        Some(magnitude * 10 + digit)
    } else {
        None
    }
}

// The digits of a number up to the bound; they end before one that would lead beyond it.
fn read_digits(text: &[u8], at: usize, bound: u128) -> Result<Found<u128>, CertRefusal>
    requires digit { 10 ≤ bound }
    ensures read { IfOk result (λ f. IsRead text.now at f.to (decimal f.value)) }
    ensures bounded { IfOk result (λ f. f.value ≤ bound) }
    ensures moves { IfOk result (λ f. at < f.to) }
    ensures full { IfOk result (λ f. IsFull text.now f.to bound f.value) }
    ensures stops { IfErr result (λ e. (e ≡ K1 at) × NoDigit text.now at) }
{
    let Some(first) = digit_at(text, at) else {
        return Err(CertRefusal::K1(at as u64));
    };
    let mut value = first as u128;
    let mut to = at + 1;
    'digits: while let Some(digit) = digit_at(text, to) {
        match extended(value, digit, bound) {
            Some(more) => {
                value = more;
                to += 1;
            }
            None => return Ok(Found { value, to }),
        }
    }
    Ok(Found { value, to })
}

/// A number below 2^32, without leading zero.
pub fn read_number(text: &[u8], at: usize) -> Result<Found<u32>, CertRefusal>
    requires { at ≤ length text.now }
    ensures read { IfOk result (λ f. IsRead text.now at f.to (decimal f.value)) }
    ensures moves { IfOk result (λ f. at < f.to) }
    ensures whole { IfOk result (λ f. IsWhole Number text.now at f.to) }
    ensures refused { IfErr result (λ e. IsRefused Number None text.now at e) }
{
    let found = read_digits(text, at, u32::MAX as u128)?;
    Ok(Found {
        value: found.value as u32,
        to: found.to,
    })
}

/// The greatest magnitude of an instant below zero.
const LEAST: u128 = 1 << 127;

fn negated(magnitude: u128) -> i128
    requires some { 0 < magnitude }
    requires within { magnitude ≤ 2 ^ 127 }
    ensures { result ≡ negsuc (magnitude - 1) }
{
    if magnitude == LEAST {
        i128::MIN
    } else {
        -(magnitude as i128)
    }
}

/// A whole number of 128 bits with an optional `-`, which stands before no zero.
pub fn read_instant(text: &[u8], at: usize) -> Result<Found<i128>, CertRefusal>
    requires { at ≤ length text.now }
    ensures read { IfOk result (λ f. IsRead text.now at f.to (signed_decimal f.value)) }
    ensures moves { IfOk result (λ f. at < f.to) }
    ensures whole { IfOk result (λ f. IsWhole Instant text.now at f.to) }
    ensures refused { IfErr result (λ e. IsRefused Instant None text.now at e) }
{
    if !stands_at(text, at, b'-') {
        let found = read_digits(text, at, LEAST - 1)?;
        return Ok(Found {
            value: found.value as i128,
            to: found.to,
        });
    }
    if stands_at(text, at + 1, b'0') {
        return Err(CertRefusal::K1((at + 1) as u64));
    }
    let found = read_digits(text, at + 1, LEAST)?;
    Ok(Found {
        value: negated(found.value),
        to: found.to,
    })
}
