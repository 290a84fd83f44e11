// Tokens from characters.
ghost use Rattle.std.specs.Prelude.{◌≡◌, List, [], ◌∷◌, ◌++◌, ℕ, OnOk, OnErr, IfOk, IfSome, IfNone, true, false, take, drop, length, ◌≤◌, ◌^◌, ◌<◌, ◌+◌, ◌-◌};
ghost use Rattle.std.specs.Char.{len_utf8};
ghost use Rattle.std.specs.Str.{IsAscii};
ghost use Rattle.text_patterns.specs.Machines.{IsOpen};
ghost use Rattle.token_scanner.specs.Items as spec;
ghost use Rattle.token_scanner.specs.Widths.{width};
ghost use Rattle.token_scanner.specs.Widths.{width as spec_width};
ghost use Rattle.token_scanner.specs.Cutting.{IsNarrow};
ghost use Rattle.token_scanner.specs.Fronts.{IsCut, ruled, token_of};

use crate::place::{Gap, gap_at};
use crate::reading::{Reading, Stepped, read_on, run_length, start, step};
use crate::{Front, Place, Syntax};
use std::alloc::{AllocError, Global};
use std::marker::Model;

/// What was skipped before a token: how many characters and bytes, and the place behind them.
#[derive(Clone, Copy)]
struct Skipped {
    place: Place,
    count: usize,
    width: u64,
}

// What stands before the next token.
fn gap_before<S: Syntax>(chars: &[char], place: Place) -> Skipped
    requires { width chars.now < 2 ^ 41 }
    ensures within { result.count ≤ length chars.now }
    ensures width { result.width + width (drop result.count chars.now) ≡ width chars.now }
    ensures front { spec.TokenFirst S.scanner result.place (drop result.count chars.now) }
    ensures items { (more : List ℕ) (at : ℕ) → spec.items S.scanner result.place 0 (drop result.count chars.now ++ more) (at + result.width) ≡ spec.items S.scanner place 0 (chars.now ++ more) at }
{
    let mut skipped = Skipped {
        place,
        count: 0,
        width: 0,
    };
    for c in chars {
        match gap_at(S::has_lines(), skipped.place, *c) {
            Gap::Skip(place) => {
                skipped.place = place;
                skipped.count += 1;
                skipped.width += c.len_utf8() as u64;
            }
            Gap::Token => return skipped,
        }
    }
    skipped
}

// What is read, where it is no token that is dropped.
fn ruled<S: Syntax>(front: Front<S::Kind>, chars: &[char]) -> Front<S::Kind>
    ensures { result ≡ ruled S.scanner front chars.now }
{
    match front {
        Front::Token(kind, n) => {
            if S::drops(kind, n, chars) {
                Front::Nothing
            } else {
                Front::Token(kind, n)
            }
        }
        Front::Nothing => Front::Nothing,
        Front::Long => Front::Long,
    }
}

/// The characters from the open token on.
#[derive(Drop)]
pub struct Cutter<S: Syntax> {
    place: Place,
    chars: Vec<char>,
    from: usize,
    at: u64,
    reading: Reading<S::State, S::Kind>,
}

impl<S: Syntax> Model for Cutter<S> {
    ghost use Rattle.std.specs.Prelude.{drop, length, ◌≤◌};
    ghost use Rattle.token_scanner.specs.Items.{Kept};
    ghost use Rattle.token_scanner.specs.Cutting.{IsReading};

    ghost Value = { Kept };

    ghost view = { λ c. record { place = c.place; chars = drop c.from c.chars.items; at = c.at } };

    ghost invariant = { λ c. (c.from ≤ length c.chars.items) × IsReading S.scanner (drop c.from c.chars.items) c.reading };
}

fn width_of(chars: &[char]) -> u64
    requires { length chars.now < 2 ^ 42 }
    ensures { result ≡ width chars.now }
{
    let mut sum: u64 = 0;
    for c in chars {
        sum += c.len_utf8() as u64;
    }
    sum
}

// Appends characters of ASCII.
fn keep(kept: &mut Vec<char>, bytes: &[u8]) -> Result<(), AllocError>
    ensures ok { OnOk result (kept.new.items ≡ kept.old.items ++ bytes.now) }
    ensures err { OnErr result (kept.new.items ≡ kept.old.items) }
{
    kept.reserve(bytes.len())?;
    for byte in bytes {
        kept.push_reserved(char::from(*byte));
    }
    Ok(())
}

impl<S: Syntax> Cutter<S> {
    /// A cutter at the beginning of a text.
    pub fn new(alloc: Global) -> Cutter<S>
        ensures { result ≡ record { place = Place.Beginning; chars = []; at = 0 } }
    {
        Cutter {
            place: Place::Beginning,
            chars: Vec::new(alloc),
            from: 0,
            at: 0,
            reading: start::<S>(),
        }
    }

    /// Takes the next character.
    pub fn push(&mut self, c: char) -> Result<(), AllocError>
        ensures ok { OnOk result (self.new ≡ record self.old { chars = self.old.chars ++ c ∷ [] }) }
        ensures err { OnErr result (self.new ≡ self.old) }
    {
        self.chars.push(c)?;
        Ok(())
    }

    #[tactic(auto, using(crate::proofs::Widths::width_push))]
    /// Takes the next character, and says whether the token at the front may be known.
    pub fn take(&mut self, c: char) -> Result<bool, AllocError>
        requires { self.old.at + width self.old.chars < 2 ^ 40 }
        ensures items { OnOk result ((more : List ℕ) → spec.items_of S.scanner self.new more ≡ spec.items_of S.scanner self.old (c ∷ more)) }
        ensures place { OnOk result (self.new.at + width self.new.chars ≡ self.old.at + width self.old.chars + len_utf8 c) }
        ensures err { OnErr result (self.new ≡ self.old) }
    {
        if self.from == self.chars.len() {
            if let Gap::Skip(place) = gap_at(S::has_lines(), self.place, c) {
                self.place = place;
                self.at += c.len_utf8() as u64;
                return Ok(false);
            }
        }
        if self.reading.count == self.chars.len() - self.from {
            if let Stepped::On(reading) = step::<S>(self.reading, c) {
                self.chars.push(c)?;
                self.reading = reading;
                return Ok(false);
            }
        }
        self.chars.push(c)?;
        Ok(true)
    }

    /// Takes those of the first bytes that are ASCII and only lengthen the IRI or the string that is open, and says how
    /// many these are.
    pub fn take_run(&mut self, bytes: &[u8]) -> Result<usize, AllocError>
        ensures within { IfOk result (λ n. n ≤ length bytes.now) }
        ensures ascii { IfOk result (λ n. IsAscii (take n bytes.now)) }
        ensures items { IfOk result (λ n. (more : List ℕ) → spec.items_of S.scanner self.new more ≡ spec.items_of S.scanner self.old (take n bytes.now ++ more)) }
        ensures place { IfOk result (λ n. self.new.at + width self.new.chars ≡ self.old.at + width self.old.chars + n) }
    {
        if self.reading.count != self.chars.len() - self.from {
            return Ok(0);
        }
        let count = run_length::<S>(&self.reading, bytes);
        keep(&mut self.chars, &bytes[..count])?;
        self.reading.count = self.chars.len() - self.from;
        self.reading.width += count as u64;
        Ok(count)
    }

    // Drops the first characters, of this width.
    fn drop_front(&mut self, n: usize, width: u64)
        requires within { n ≤ length self.old.chars }
        requires room { self.old.at + width < 2 ^ 64 }
        ensures { self.new ≡ record { place = self.old.place; chars = drop n self.old.chars; at = self.old.at + width } }
    {
        self.from += n;
        self.at += width;
        self.reading = start::<S>();
    }

    // Drops what stands before the next token.
    fn skip(&mut self)
        requires { self.old.at + width self.old.chars < 2 ^ 41 }
        ensures items { (more : List ℕ) → spec.items_of S.scanner self.new more ≡ spec.items_of S.scanner self.old more }
        ensures front { spec.TokenFirst S.scanner self.new.place self.new.chars }
        ensures shorter { length self.new.chars ≤ length self.old.chars }
        ensures place { self.new.at + width self.new.chars ≡ self.old.at + width self.old.chars }
    {
        let gap = gap_before::<S>(&self.chars[self.from..], self.place);
        self.place = gap.place;
        if gap.count > 0 {
            self.drop_front(gap.count, gap.width);
        }
    }

    // What the machine reads at the front, where that is certain.
    fn read(&mut self, whole: bool) -> Option<Front<S::Kind>>
        requires { length self.old.chars < 2 ^ 42 }
        ensures same { self.new ≡ self.old }
        ensures token { IfSome result (λ f. (more : List ℕ) → (whole ≡ true → more ≡ []) → token_of S.scanner (self.new.chars ++ more) ≡ ruled S.scanner f self.new.chars) }
        ensures cut { IfSome result (λ f. IsCut f (length self.new.chars)) }
        ensures least { IfSome result (λ f. IsNarrow f self.new.chars) }
        ensures none { IfNone result (whole ≡ false) }
        ensures open { IfNone result (IsOpen S.scanner.machine self.new.chars) }
        ensures narrow { IfNone result (width self.new.chars ≤ 65536) }
    {
        match read_on::<S>(&self.chars[self.from + self.reading.count..], self.reading) {
            Stepped::On(reading) => {
                self.reading = reading;
                if whole {
                    return Some(reading.ended());
                }
                if S::is_final(reading.state) {
                    return Some(reading.ended());
                }
                None
            }
            Stepped::Ended(front) => Some(front),
        }
    }

    /// What stands at the front, where that is certain. `whole` says that no character comes any more.
    pub fn front(&mut self, whole: bool) -> Option<Front<S::Kind>>
        requires { self.old.at + width self.old.chars < 2 ^ 41 }
        ensures items { (more : List ℕ) → spec.items_of S.scanner self.new more ≡ spec.items_of S.scanner self.old more }
        ensures front { IfSome result (λ f. (more : List ℕ) → (whole ≡ true → more ≡ [])
            → spec.items_of S.scanner self.new more ≡ spec.front_items S.scanner f (self.new.chars ++ more) self.new.at) }
        ensures cut { IfSome result (λ f. IsCut f (length self.new.chars)) }
        ensures least { IfSome result (λ f. IsNarrow f self.new.chars) }
        ensures some { IfSome result (λ f. 0 < length self.new.chars) }
        ensures shorter { length self.new.chars ≤ length self.old.chars }
        ensures place { self.new.at + width self.new.chars ≡ self.old.at + width self.old.chars }
        ensures none { IfNone result (whole ≡ true → self.new.chars ≡ []) }
        ensures open { IfNone result (IsOpen S.scanner.machine self.new.chars) }
        ensures narrow { IfNone result (width self.new.chars ≤ 65536) }
    {
        self.skip();
        if self.from == self.chars.len() {
            return None;
        }
        let front = self.read(whole)?;
        Some(ruled::<S>(front, &self.chars[self.from..]))
    }

    #[tactic(auto, using(crate::proofs::Widths::width_split, crate::proofs::Widths::length_take_width))]
    // The width of the first characters, which is known of those that were read.
    fn front_width(&self, n: usize) -> u64
        requires within { n ≤ length self.now.chars }
        requires room { spec_width self.now.chars < 2 ^ 41 }
        ensures width { result ≡ spec_width (take n self.now.chars) }
    {
        if n == self.reading.count {
            return self.reading.width;
        }
        width_of(&self.chars[self.from..self.from + n])
    }

    /// Drops the token of n characters at the front, and answers its length in bytes.
    pub fn cut(&mut self, n: usize) -> u64
        requires some { 0 < n }
        requires within { n ≤ length self.old.chars }
        requires room { self.old.at + width self.old.chars < 2 ^ 41 }
        ensures items { (more : List ℕ) → spec.items_of S.scanner self.new more ≡ spec.items_behind S.scanner n self.old more }
        ensures shorter { length self.new.chars + n ≡ length self.old.chars }
        ensures place { self.new.at + width self.new.chars ≡ self.old.at + width self.old.chars }
        ensures width { result ≡ spec_width (take n self.old.chars) }
    {
        let width = self.front_width(n);
        self.drop_front(n, width);
        self.place = Place::Between;
        width
    }

    /// Keeps no character that stands before the front.
    pub fn compact(&mut self)
        ensures { self.new ≡ self.old }
    {
        drop(self.chars.drain(..self.from));
        self.from = 0;
    }

    /// Keeps no character at all.
    pub fn clear(&mut self)
        ensures { self.new ≡ record self.old { chars = [] } }
    {
        self.chars.clear();
        self.from = 0;
        self.reading = start::<S>();
    }

    /// The byte offset of the first character that is kept.
    pub fn at(&self) -> u64
        ensures { result ≡ self.now.at }
    {
        self.at
    }

    /// The first characters that are kept.
    pub fn chars(&self, n: usize) -> &[char]
        requires { n ≤ length self.now.chars }
        ensures { result.now ≡ take n self.now.chars }
    {
        &self.chars[self.from..self.from + n]
    }

    /// How many bytes the characters take that are kept.
    pub fn width(&self) -> u64
        requires { length self.now.chars < 2 ^ 42 }
        ensures { result ≡ width self.now.chars }
    {
        width_of(&self.chars[self.from..])
    }
}
