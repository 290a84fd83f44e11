// The places of offsets, by one walk over the bytes.
ghost use Rattle.std.specs.Prelude.{◌≡◌, ◌+◌, ◌<◌, ◌≤◌, cond, length};
ghost use Rattle.text_places.specs.Places as spec;
ghost use Rattle.text_places.specs.Places.{place_at, place_of};

use std::marker::Model;

/// A place in a text: its line and its column, both counted from 1.
#[derive(Clone, Copy, PartialEq, Eq, Debug)]
pub struct Place {
    pub line: u64,
    pub column: u64,
}

/// The places of a text, seen as its bytes. Offsets that ascend are found in one walk over them.
#[derive(Drop)]
pub struct Places<'a> {
    bytes: &'a [u8],
    at: usize,
    place: Place,
}

impl<'a> Model for Places<'a> {
    ghost use Rattle.std.specs.Prelude.{List, ℕ, ◌≡◌, ◌≤◌, length};
    ghost use Rattle.text_places.specs.Places.{place_at};

    ghost Value = { List ℕ };

    ghost view = { λ p. p.bytes.now };

    ghost invariant = { λ p. (p.at ≤ length p.bytes.now) × (p.place ≡ place_at p.bytes.now p.at) };
}

// Whether a line ends behind the byte at `k`.
fn ends_line(bytes: &[u8], k: usize) -> bool
    requires { k < length bytes.now }
    ensures { result ≡ spec.ends_line bytes.now k }
{
    match bytes[k] {
        b'\n' => true,
        b'\r' => k + 1 == bytes.len() || bytes[k + 1] != b'\n',
        _ => false,
    }
}

fn has_mark(bytes: &[u8]) -> bool
    ensures { result ≡ spec.has_mark bytes.now }
{
    matches!(bytes, [0xEF, 0xBB, 0xBF, ..])
}

// Whether a character that counts begins at `k`.
fn is_counted(bytes: &[u8], k: usize) -> bool
    requires { k < length bytes.now }
    ensures { result ≡ spec.is_counted bytes.now k }
{
    let goes_on = 0x80 <= bytes[k] && bytes[k] < 0xC0;
    !goes_on && !(k == 0 && has_mark(bytes))
}

// One where a character that counts begins at `k`, else none.
fn width(bytes: &[u8], k: usize) -> u64
    requires { k < length bytes.now }
    ensures { result ≡ cond (spec.is_counted bytes.now k) 1 0 }
{
    if is_counted(bytes, k) { 1 } else { 0 }
}

// The place behind the byte at `k`, which stands at `place`.
fn place_behind(bytes: &[u8], k: usize, place: Place) -> Place
    requires within { k < length bytes.now }
    requires here { place ≡ place_at bytes.now k }
    ensures { result ≡ place_at bytes.now (k + 1) }
{
    if ends_line(bytes, k) {
        Place {
            line: place.line + 1,
            column: 1,
        }
    } else {
        Place {
            line: place.line,
            column: place.column + width(bytes, k),
        }
    }
}

// The place at `to`, from the place at `from` on.
fn walk(bytes: &[u8], from: usize, place: Place, to: usize) -> Place
    requires ascending { from ≤ to }
    requires within { to ≤ length bytes.now }
    requires here { place ≡ place_at bytes.now from }
    ensures { result ≡ place_at bytes.now to }
{
    let mut place = place;
    for k in from..to {
        place = place_behind(bytes, k, place);
    }
    place
}

// The place at `to`, from a known place on, or from the beginning where that lies behind it.
fn walk_to(bytes: &[u8], at: usize, place: Place, to: usize) -> Place
    requires within { to ≤ length bytes.now }
    requires here { place ≡ place_at bytes.now at }
    ensures { result ≡ place_at bytes.now to }
{
    if at <= to {
        walk(bytes, at, place, to)
    } else {
        walk(bytes, 0, BEGINNING, to)
    }
}

const BEGINNING: Place = Place { line: 1, column: 1 };

impl<'a> Places<'a> {
    /// The places of a text.
    pub fn new(bytes: &'a [u8]) -> Places<'a>
        ensures { result ≡ bytes.now }
    {
        Places {
            bytes,
            at: 0,
            place: BEGINNING,
        }
    }

    /// The place of an offset; one behind the end of the text has the place of the end.
    ///
    /// The walk goes on from the offset that was asked for before, and begins anew only for a lesser one.
    pub fn find(&mut self, offset: u64) -> Place
        ensures place { result ≡ place_of self.old offset }
        ensures same { self.new ≡ self.old }
    {
        let end = offset.min(self.bytes.len() as u64) as usize;
        self.place = walk_to(self.bytes, self.at, self.place, end);
        self.at = end;
        self.place
    }
}
