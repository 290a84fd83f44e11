// UTF-8, byte by byte.
ghost use Rattle.std.specs.Prelude.{◌≡◌, ◌<◌, ◌+◌, ◌*◌, ◌^◌, ◌++◌, ◌∷◌, [], ℕ, List, length, true};
ghost use Rattle.rdf_chars.specs.Utf8.{Pushes, Finishes};
ghost use Rattle.std.specs.Str.{IsAscii};
ghost use Rattle.rdf_chars.specs.Steps.{Stands};
ghost use Rattle.rdf_chars.specs.Steps as spec;

use std::marker::Model;

/// The bytes are no UTF-8: `at` is the length in bytes of their longest front that is.
#[derive(Clone, Copy, PartialEq, Eq, Debug, Drop)]
pub struct BadUtf8 {
    pub at: u64,
}

/// How much of a character is read: its bits so far, and between what the next byte lies.
#[derive(Clone, Copy, Drop)]
enum Step {
    Idle,
    Last(u32),
    Two(u32, u8, u8),
    Three(u32, u8, u8),
    Bad,
}

/// Where a byte leads.
#[derive(Clone, Copy, Drop)]
enum Pushed {
    Inside(Step),
    Whole(u32),
}

fn begun(byte: u8) -> Pushed
    ensures pushed { result ≡ spec.begun byte }
    ensures small { spec.IsSmallPushed result }
{
    if byte < 128 {
        Pushed::Whole(u32::from(byte))
    } else if byte < 194 {
        Pushed::Inside(Step::Bad)
    } else if byte < 224 {
        Pushed::Inside(Step::Last(u32::from(byte - 192)))
    } else if byte == 224 {
        Pushed::Inside(Step::Two(0, 160, 191))
    } else if byte == 237 {
        Pushed::Inside(Step::Two(13, 128, 159))
    } else if byte < 240 {
        Pushed::Inside(Step::Two(u32::from(byte - 224), 128, 191))
    } else if byte == 240 {
        Pushed::Inside(Step::Three(0, 144, 191))
    } else if byte < 244 {
        Pushed::Inside(Step::Three(u32::from(byte - 240), 128, 191))
    } else if byte == 244 {
        Pushed::Inside(Step::Three(4, 128, 143))
    } else {
        Pushed::Inside(Step::Bad)
    }
}

fn bits(so_far: u32, byte: u8) -> u32
    requires { so_far < 65536 }
    ensures bits { result ≡ spec.bits so_far byte }
    ensures small { result < so_far * 64 + 128 }
{
    so_far * 64 + u32::from(byte.saturating_sub(128))
}

impl Step {
    fn push(self, byte: u8) -> Pushed
        requires { spec.IsStep self }
        ensures pushed { result ≡ spec.pushed self byte }
        ensures right { spec.IsPushed result }
    {
        self.led_by(byte)
    }

    fn led_by(self, byte: u8) -> Pushed
        requires { spec.IsSmall self }
        ensures pushed { result ≡ spec.pushed self byte }
        ensures small { spec.IsSmallPushed result }
    {
        match self {
            Step::Idle => begun(byte),
            Step::Last(so_far) if 128 <= byte && byte <= 191 => Pushed::Whole(bits(so_far, byte)),
            Step::Two(so_far, low, high) if low <= byte && byte <= high => Pushed::Inside(
                Step::Last(bits(so_far, byte)),
            ),
            Step::Three(so_far, low, high) if low <= byte && byte <= high => Pushed::Inside(
                Step::Two(bits(so_far, byte), 128, 191),
            ),
            _ => Pushed::Inside(Step::Bad),
        }
    }

    fn is_idle(self) -> bool
        ensures { result ≡ spec.is_idle self }
    {
        matches!(self, Step::Idle)
    }

    fn is_bad(self) -> bool
        ensures { result ≡ spec.is_bad self }
    {
        matches!(self, Step::Bad)
    }
}

/// A reader of UTF-8 that is fed byte by byte; fewer than 2^32 bytes in all.
#[derive(Drop)]
pub struct Utf8Steps {
    step: Step,
    from: u64,
    count: u64,
}

impl Model for Utf8Steps {
    ghost use Rattle.std.specs.Prelude.{◌≤◌, ℕ};
    ghost use Rattle.rdf_chars.specs.Steps.{Fed, IsStep};

    ghost Value = { Fed };

    ghost view = { λ s. record { step = s.step; from = s.from; count = s.count } };

    ghost invariant = { λ s. IsStep s.step };
}

impl Utf8Steps {
    /// A reader to which no byte was fed.
    pub fn new() -> Utf8Steps
        ensures start { result ≡ spec.start }
        ensures stands { Stands result [] }
    {
        Utf8Steps {
            step: Step::Idle,
            from: 0,
            count: 0,
        }
    }

    /// Feeds one byte: the character that it ends, or `None` inside a character.
    ///
    /// An error comes where no UTF-8 begins with the bytes so far, and from then on at each call the same one.
    pub fn push(&mut self, byte: u8) -> Result<Option<char>, BadUtf8>
        requires { self.old.count + 1 < 2 ^ 32 }
        ensures count { self.new.count ≡ self.old.count + 1 }
        ensures stands { (bytes : List ℕ) → Stands self.old bytes → Stands self.new (bytes ++ byte ∷ []) }
        ensures says { (bytes : List ℕ) → Stands self.old bytes → Pushes (bytes ++ byte ∷ []) result }
        ensures fed { self.new ≡ spec.fed self.old byte }
        ensures said { result ≡ spec.said self.old byte }
    {
        self.count += 1;
        match self.step.push(byte) {
            Pushed::Whole(code) => {
                self.step = Step::Idle;
                self.from = self.count;
                Ok(char::from_u32(code))
            }
            Pushed::Inside(step) => {
                self.step = step;
                if step.is_bad() {
                    Err(BadUtf8 { at: self.from })
                } else {
                    Ok(None)
                }
            }
        }
    }

    /// Whether no character is open, so that the next one begins with the next byte.
    pub fn is_between(&self) -> bool
        ensures { result ≡ spec.is_idle self.now.step }
    {
        self.step.is_idle()
    }

    #[tactic(auto, using(crate::proofs::Passing::passed))]
    /// Feeds bytes of ASCII at once, at least one, where no character is open: each is a character of its own.
    pub fn pass(&mut self, bytes: &[u8])
        requires between { spec.is_idle self.old.step ≡ true }
        requires some { 0 < length bytes.now }
        requires ascii { IsAscii bytes.now }
        requires room { self.old.count + length bytes.now < 2 ^ 32 }
        ensures count { self.new.count ≡ self.old.count + length bytes.now }
        ensures fed { self.new ≡ spec.fed_all self.old bytes.now }
    {
        self.count += bytes.len() as u64;
        self.from = self.count;
    }

    /// Whether the bytes that were fed are UTF-8.
    pub fn finish(&self) -> Result<(), BadUtf8>
        ensures says { (bytes : List ℕ) → Stands self.now bytes → Finishes bytes result }
        ensures said { result ≡ spec.ended self.now }
    {
        if self.step.is_idle() {
            Ok(())
        } else {
            Err(BadUtf8 { at: self.from })
        }
    }
}
