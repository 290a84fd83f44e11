// The lexer of bytes that come in pieces.
ghost use Rattle.std.specs.Prelude.{◌≡◌, ◌+◌, ◌<◌, ◌≤◌, ◌^◌, ◌++◌, ◌∷◌, [], ℕ, List, OnOk, OnErr, IsErr, IfOk, take, true, false, None, Some, length};
ghost use Rattle.token_scanner.specs.Widths.{width};
ghost use Rattle.turtle_tokens.specs.Scanning.{items_of, front_items};
ghost use Rattle.token_scanner.specs.declared.front.Front.TheVariants.{Token as FrontToken};
ghost use Rattle.turtle_lexer.specs.Streams.{tokens};
ghost use Rattle.turtle_lexer.specs.Lexing as spec;

use crate::token::{Next, Token};
use crate::values::put_value;
use crm_outside::Text;
use rdf_chars::Utf8Steps;
use rdf_terms::{Code, Refusal};
use std::alloc::{AllocError, Global};
use std::marker::Model;
use token_scanner::{Cutter, Front};
use turtle_tokens::{TokenKind, Turtle};

/// Reads the tokens of Turtle from bytes that come in pieces, fewer than 2^32 in all.
///
/// What was fed and not yet given is kept by its characters; where `next` has answered `More`, that is the open token alone.
#[derive(Drop)]
pub struct Lexer {
    alloc: Global,
    steps: Utf8Steps,
    bad: Option<u64>,
    cutter: Cutter<Turtle>,
    begun: u8,
    value: String,
    finished: bool,
    refusal: Option<Refusal>,
    starved: bool,
}

impl Model for Lexer {
    ghost use Rattle.std.specs.Prelude.{◌≡◌, ◌≤◌};
    ghost use Rattle.turtle_lexer.specs.Lexing.{Lexing, HasRoom, IsEmptied, Knows};

    ghost Value = { Lexing };

    ghost view = { λ l. record { fed = l.steps; kept = l.cutter; begun = l.begun; bad = l.bad; finished = l.finished; refusal = l.refusal; starved = l.starved } };

    ghost invariant = { λ l. HasRoom l.cutter l.steps × IsEmptied l.refusal l.cutter × (l.begun ≤ 3) × Knows l.bad l.finished l.steps };
}

impl Lexer {
    /// A lexer to which nothing was fed.
    pub fn new(alloc: Global) -> Result<Lexer, AllocError>
        ensures count { IfOk result (λ l. l.fed.count ≡ 0) }
        ensures finished { IfOk result (λ l. l.finished ≡ false) }
        ensures starved { IfOk result (λ l. l.starved ≡ false) }
        ensures refusal { IfOk result (λ l. l.refusal ≡ None) }
        ensures ahead { IfOk result (λ l. (bytes : List ℕ) → spec.ahead l bytes ≡ tokens bytes) }
        ensures nothing { IfOk result (λ l. spec.IsFed l []) }
    {
        Ok(Lexer {
            alloc,
            steps: Utf8Steps::new(),
            bad: None,
            cutter: Cutter::new(alloc),
            begun: 0,
            value: String::new(alloc),
            finished: false,
            refusal: None,
            starved: false,
        })
    }

    // Takes a byte.
    fn take(&mut self, byte: u8) -> Result<(), AllocError>
        requires room { self.old.fed.count + 1 < 2 ^ 32 }
        requires fed { self.old.starved ≡ false }
        requires before { self.old.finished ≡ false }
        ensures count { OnOk result (self.new.fed.count ≡ self.old.fed.count + 1) }
        ensures finished { self.new.finished ≡ false }
        ensures starved { OnOk result (self.new.starved ≡ false) }
        ensures hungry { OnErr result (self.new.starved ≡ true) }
        ensures refusal { self.new.refusal ≡ self.old.refusal }
        ensures ahead { OnOk result ((more : List ℕ) → spec.ahead self.new more ≡ spec.ahead self.old (byte ∷ more)) }
        ensures bytes { OnOk result ((bytes : List ℕ) → spec.IsFed self.old bytes → spec.IsFed self.new (bytes ++ byte ∷ [])) }
    {
        match self.steps.push(byte) {
            Ok(Some(c)) => {
                self.begun = 0;
                if self.refusal.is_some() {
                    return Ok(());
                }
                if self.cutter.push(c).is_err() {
                    self.starved = true;
                    return Err(AllocError);
                }
                Ok(())
            }
            Ok(None) => {
                self.begun = (self.begun + 1).min(3);
                Ok(())
            }
            Err(bad) => {
                self.begun = 0;
                self.bad = Some(bad.at);
                Ok(())
            }
        }
    }

    /// Takes the next piece. After want of memory each call answers want of memory; after a refusal nothing is kept of the piece.
    pub fn feed(&mut self, piece: &[u8]) -> Result<(), AllocError>
        requires room { self.old.fed.count + length piece.now < 2 ^ 32 }
        requires before { self.old.finished ≡ false }
        ensures count { OnOk result (self.new.fed.count ≡ self.old.fed.count + length piece.now) }
        ensures finished { self.new.finished ≡ false }
        ensures starved { OnErr result (self.new.starved ≡ true) }
        ensures fed { OnOk result (self.new.starved ≡ false) }
        ensures refusal { self.new.refusal ≡ self.old.refusal }
        ensures still { self.old.starved ≡ true → IsErr result }
        ensures ahead { OnOk result ((more : List ℕ) → spec.ahead self.new more ≡ spec.ahead self.old (piece.now ++ more)) }
        ensures bytes { OnOk result ((bytes : List ℕ) → spec.IsFed self.old bytes → spec.IsFed self.new (bytes ++ piece.now)) }
    {
        if self.starved {
            return Err(AllocError);
        }
        for byte in piece {
            self.take(*byte)?;
        }
        Ok(())
    }

    /// Says that no more bytes come.
    pub fn finish(&mut self)
        ensures same { self.new ≡ record self.old { bad = self.new.bad; finished = true } }
        ensures fed { (bytes : List ℕ) → spec.IsFed self.old bytes → spec.IsFed self.new bytes }
    {
        self.finished = true;
        if let Err(bad) = self.steps.finish() {
            self.bad = Some(bad.at);
        }
    }

    // Refuses, from here on always, and keeps nothing.
    fn refuse(&mut self, code: Code, at: u64) -> Next
        ensures refused { self.new ≡ record self.old { refusal = Some (record { code = code; at = at }); kept = record self.old.kept { chars = [] } } }
        ensures said { result ≡ Next.Refused (record { code = code; at = at }) }
    {
        self.cutter.clear();
        let refusal = Refusal { code, at };
        self.refusal = Some(refusal);
        Next::Refused(refusal)
    }

    // Takes the token of n characters at the front.
    fn token(&mut self, kind: TokenKind, n: usize) -> Result<Token, AllocError>
        requires some { 0 < n }
        requires within { n ≤ length self.old.kept.chars }
        requires narrow { width (take n self.old.kept.chars) ≤ 65536 }
        requires fed { self.old.starved ≡ false }
        requires refusal { self.old.refusal ≡ None }
        ensures same { OnOk result (self.new ≡ record self.old { kept = self.new.kept }) }
        ensures token { IfOk result (λ t. (chars : List ℕ) → spec.IsGiven t (front_items (FrontToken kind n) (self.old.kept.chars ++ chars) self.old.kept.at) (items_of self.new.kept chars)) }
        ensures rest { OnErr result ((self.new.fed ≡ self.old.fed) × (self.new.bad ≡ self.old.bad) × (self.new.finished ≡ self.old.finished)) }
        ensures hungry { OnErr result (self.new.starved ≡ true) }
    {
        let from = self.cutter.at();
        let Ok(cut) = put_value(kind, self.cutter.chars(n), &mut self.value) else {
            self.starved = true;
            return Err(AllocError);
        };
        let Ok(text) = Text::from_str(self.alloc, self.value.as_str()) else {
            self.starved = true;
            return Err(AllocError);
        };
        let to = from + self.cutter.cut(n);
        Ok(Token {
            kind,
            text,
            cut,
            from,
            to,
        })
    }

    // What stands at the front, where no refusal was said.
    fn settle(&mut self) -> Result<Next, AllocError>
        requires fed { self.old.starved ≡ false }
        requires refusal { self.old.refusal ≡ None }
        requires good { self.old.bad ≡ None }
        ensures count { self.new.fed ≡ self.old.fed }
        ensures bad { self.new.bad ≡ self.old.bad }
        ensures finished { self.new.finished ≡ self.old.finished }
        ensures hungry { OnErr result (self.new.starved ≡ true) }
        ensures starved { OnOk result (self.new.starved ≡ false) }
        ensures says { IfOk result (λ n. spec.Says self.old self.new n) }
    {
        match self.cutter.front(self.finished) {
            Some(Front::Token(kind, n)) => Ok(Next::Token(self.token(kind, n)?)),
            Some(Front::Nothing) => {
                let at = self.cutter.at();
                Ok(self.refuse(Code::G1, at))
            }
            Some(Front::Long) => {
                let at = self.cutter.at();
                Ok(self.refuse(Code::L2, at))
            }
            None => {
                if self.finished {
                    return Ok(Next::End);
                }
                self.cutter.compact();
                Ok(Next::More)
            }
        }
    }

    /// The next token, or why none is given.
    ///
    /// `More` comes only before `finish`, where the open token may go on; `End` comes after it, where no token is left. Bytes that
    /// are no UTF-8 are refused as soon as they were fed. A refusal is answered always from then on, and want of memory too.
    pub fn next(&mut self) -> Result<Next, AllocError>
        ensures count { self.new.fed ≡ self.old.fed }
        ensures bad { self.new.bad ≡ self.old.bad }
        ensures finished { self.new.finished ≡ self.old.finished }
        ensures starved { OnErr result (self.new.starved ≡ true) }
        ensures fed { OnOk result (self.new.starved ≡ false) }
        ensures still { self.old.starved ≡ true → IsErr result }
        ensures says { IfOk result (λ n. spec.Says self.old self.new n) }
    {
        if self.starved {
            return Err(AllocError);
        }
        if let Some(refusal) = self.refusal {
            return Ok(Next::Refused(refusal));
        }
        if let Some(at) = self.bad {
            return Ok(self.refuse(Code::U1, at));
        }
        self.settle()
    }

    /// The length of the longest front of the bytes that is UTF-8, where they are no UTF-8; before `finish`, where no UTF-8 begins
    /// with them.
    pub fn bad_utf8(&self) -> Option<u64>
        ensures bad { result ≡ self.now.bad }
        ensures fed { (bytes : List ℕ) → spec.IsFed self.now bytes → spec.IsBad self.now.finished bytes result }
        ensures known { spec.Knows result self.now.finished self.now.fed }
    {
        self.bad
    }

    /// How many bytes the characters take that are held and were not given, with those of a character that has begun: at most 65,539
    /// where `next` has answered `More`.
    pub fn kept(&self) -> u32
        ensures kept { width self.now.kept.chars < 2 ^ 31 → result ≡ width self.now.kept.chars + self.now.begun }
        ensures begun { self.now.begun ≤ 3 }
    {
        u32::try_from(self.cutter.width() + u64::from(self.begun)).unwrap_or(u32::MAX)
    }
}
