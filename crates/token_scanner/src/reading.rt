// The token at the front of a text, a character at a time.
ghost use Rattle.std.specs.Prelude.{◌≡◌, ℕ, ◌+◌, ◌<◌, ◌≤◌, ◌^◌, ◌++◌, List, [], ◌∷◌, length, take};
ghost use Rattle.std.specs.Char.{len_utf8};
ghost use Rattle.std.specs.Str.{IsAscii};
ghost use Rattle.text_patterns.specs.Machines.{last_after};
ghost use Rattle.token_scanner.specs.Cutting.{Leads, IsRead};
ghost use Rattle.token_scanner.specs.Fronts as spec;
ghost use Rattle.token_scanner.specs.Widths as widths;

use crate::{Front, Syntax};

/// What is read of a token: its state, the last end of a token, and how many characters and bytes were read.
#[derive(Clone, Copy)]
pub(crate) struct Reading<State, Kind> {
    pub state: State,
    pub last: Option<(Kind, usize)>,
    pub count: usize,
    pub width: u64,
}

/// Where a character leads.
#[derive(Clone, Copy)]
pub(crate) enum Stepped<State, Kind> {
    On(Reading<State, Kind>),
    Ended(Front<Kind>),
}

pub(crate) fn start<S: Syntax>() -> Reading<S::State, S::Kind>
    ensures { result ≡ spec.start S.scanner }
{
    Reading {
        state: S::start(),
        last: None,
        count: 0,
        width: 0,
    }
}

fn last_end<Kind: Copy>(
    kind: Option<Kind>,
    last: Option<(Kind, usize)>,
    count: usize,
) -> Option<(Kind, usize)>
    ensures { result ≡ last_after kind last count }
{
    match kind {
        Some(kind) => Some((kind, count)),
        None => last,
    }
}

impl<State: Copy, Kind: Copy> Reading<State, Kind> {
    /// What was read where no more characters come.
    pub(crate) fn ended(self) -> Front<Kind>
        requires { spec.IsWithin self.last self.count }
        ensures front { result ≡ spec.found self.last }
        ensures cut { spec.IsCut result self.count }
    {
        match self.last {
            Some((kind, count)) => Front::Token(kind, count),
            None => Front::Nothing,
        }
    }
}

// The reading behind one more character of this width, which leads to the state.
fn to<S: Syntax>(
    reading: Reading<S::State, S::Kind>,
    state: S::State,
    width: u64,
) -> Stepped<S::State, S::Kind>
    requires count { reading.count + 1 < 2 ^ 64 }
    requires last { spec.IsWithin reading.last reading.count }
    requires width { reading.width + width < 2 ^ 64 }
    ensures to { result ≡ spec.to S.scanner reading state width }
    ensures ended { spec.InFront result (λ f. spec.IsCut f reading.count) }
    ensures bounds { spec.InReading result (λ r. (r.width ≤ 65536) × (r.count ≡ reading.count + 1) × (r.width ≡ reading.width + width) × spec.IsWithin r.last r.count) }
{
    let width = reading.width + width;
    if width > 65536 {
        return Stepped::Ended(Front::Long);
    }
    let count = reading.count + 1;
    Stepped::On(Reading {
        state,
        last: last_end(S::accepts(state), reading.last, count),
        count,
        width,
    })
}

/// The reading behind one more character.
pub(crate) fn step<S: Syntax>(
    reading: Reading<S::State, S::Kind>,
    c: char,
) -> Stepped<S::State, S::Kind>
    requires count { reading.count + 1 < 2 ^ 64 }
    requires last { spec.IsWithin reading.last reading.count }
    requires width { reading.width ≤ 65536 }
    ensures step { result ≡ spec.step S.scanner reading c }
    ensures ended { spec.InFront result (λ f. spec.IsCut f reading.count) }
    ensures bounds { spec.InReading result (λ r. (r.width ≤ 65536) × (r.count ≡ reading.count + 1) × (r.width ≡ reading.width + len_utf8 c) × spec.IsWithin r.last r.count) }
    ensures leads { spec.InReading result (λ r. (done : List ℕ) → Leads S.scanner reading.state done → Leads S.scanner r.state (done ++ c ∷ [])) }
{
    match S::next(reading.state, c) {
        Some(state) => to::<S>(reading, state, c.len_utf8() as u64),
        None => Stepped::Ended(reading.ended()),
    }
}

/// How many of the first bytes are ASCII and only lengthen the token: each changes the count and the width alone.
pub(crate) fn run_length<S: Syntax>(reading: &Reading<S::State, S::Kind>, bytes: &[u8]) -> usize
    requires { reading.now.width ≤ 65536 }
    ensures within { result ≤ length bytes.now }
    ensures ascii { IsAscii (take result bytes.now) }
    ensures narrow { reading.now.width + result ≤ 65536 }
    ensures runs { (more : List ℕ) → spec.read_from S.scanner reading.now (take result bytes.now ++ more) ≡ spec.read_from S.scanner (spec.run_on reading.now result) more }
    ensures leads { (done : List ℕ) → Leads S.scanner reading.now.state done → Leads S.scanner reading.now.state (done ++ take result bytes.now) }
{
    let room = 65_533u64.saturating_sub(reading.width) as usize;
    let front = &bytes[..room.min(bytes.len())];
    let mut count = 0;
    for byte in front {
        if *byte >= 128 || !S::lengthens(reading.state, *byte) {
            return count;
        }
        count += 1;
    }
    count
}

/// The reading behind these characters.
pub(crate) fn read_on<S: Syntax>(
    chars: &[char],
    from: Reading<S::State, S::Kind>,
) -> Stepped<S::State, S::Kind>
    requires width { from.width ≤ 65536 }
    requires count { from.count + length chars.now < 2 ^ 64 }
    requires last { spec.IsWithin from.last from.count }
    ensures reads { (more : List ℕ) → spec.read_from S.scanner from (chars.now ++ more) ≡ spec.reads S.scanner result more }
    ensures ended { spec.InFront result (λ f. spec.IsInside f (from.count + length chars.now)) }
    ensures narrow { spec.InFront result (λ f. IsRead f from.count from.width chars.now) }
    ensures leads { spec.InReading result (λ r. (done : List ℕ) → Leads S.scanner from.state done → Leads S.scanner r.state (done ++ chars.now)) }
    ensures bounds { spec.InReading result (λ r. (r.width ≤ 65536) × (r.count ≡ from.count + length chars.now) × (r.width ≡ from.width + widths.width chars.now) × spec.IsWithin r.last r.count) }
{
    let mut reading = from;
    for c in chars {
        match step::<S>(reading, *c) {
            Stepped::On(next) => reading = next,
            Stepped::Ended(front) => return Stepped::Ended(front),
        }
    }
    Stepped::On(reading)
}
