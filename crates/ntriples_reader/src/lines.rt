// Names and triples from characters.
ghost use Rattle.std.specs.Prelude.{◌≡◌, ℕ, ◌+◌, ◌<◌, ◌≤◌, ◌^◌, List, [], ◌∷◌, ◌++◌, OnOk, IfOk, IfErr, true, None, Some, length, take, ⊤};
ghost use Rattle.std.specs.Char.{len_utf8};
ghost use Rattle.std.specs.Str.{IsAscii};
ghost use Rattle.token_scanner.specs.Widths.{width};
ghost use Rattle.ntriples_tokens.specs.Scanning.{items_of, front_items};
ghost use Rattle.rdf_reading.specs.Answers.{Answer, IsRefusal};
ghost use Rattle.ntriples_reader.specs.Answers as spec;

use crate::line::Line;
use crate::store::Held;
use ntriples_tokens::{Kind, NTriples};
use rdf_reading::ReadRefusal;
use rdf_terms::{Code, Records, Refusal};
use std::alloc::{AllocError, Global};
use token_scanner::{Cutter, Front};

/// What was read of a text.
#[derive(Drop)]
pub(crate) struct LinesReader {
    pub alloc: Global,
    pub cutter: Cutter<NTriples>,
    pub line: Line,
    pub held: Held,
    pub refusal: Option<Refusal>,
}

impl LinesReader {
    pub(crate) fn new(alloc: Global) -> LinesReader
        ensures answer { (more : List ℕ) → spec.answer_of result more ≡ spec.text_answer more }
        ensures place { result.cutter.at + width result.cutter.chars ≡ 0 }
    {
        LinesReader {
            alloc,
            cutter: Cutter::new(alloc),
            line: Line::new(alloc),
            held: Held::new(alloc),
            refusal: None,
        }
    }

    /// Takes the next character.
    pub(crate) fn take(&mut self, c: char) -> Result<(), AllocError>
        requires { self.old.cutter.at + width self.old.cutter.chars < 2 ^ 40 }
        ensures answer { OnOk result ((more : List ℕ) → spec.answer_of self.new more ≡ spec.answer_of self.old (c ∷ more)) }
        ensures place { OnOk result (self.new.cutter.at + width self.new.cutter.chars ≤ self.old.cutter.at + width self.old.cutter.chars + len_utf8 c) }
    {
        if self.refusal.is_some() {
            return Ok(());
        }
        if self.cutter.take(c)? {
            self.settle(false)?;
        }
        Ok(())
    }

    /// Takes those of the first bytes that are ASCII and only lengthen the open token, and says how many these are.
    pub(crate) fn take_run(&mut self, bytes: &[u8]) -> Result<usize, AllocError>
        ensures within { IfOk result (λ n. n ≤ length bytes.now) }
        ensures ascii { IfOk result (λ n. IsAscii (take n bytes.now)) }
        ensures answer { IfOk result (λ n. (more : List ℕ) → spec.answer_of self.new more ≡ spec.answer_of self.old (take n bytes.now ++ more)) }
        ensures place { IfOk result (λ n. self.new.cutter.at + width self.new.cutter.chars ≡ self.old.cutter.at + width self.old.cutter.chars + n) }
    {
        if self.refusal.is_some() {
            return Ok(0);
        }
        self.cutter.take_run(bytes)
    }

    // Takes the token at the front.
    fn token(&mut self, kind: Kind, n: usize) -> Result<(), AllocError>
        requires none { self.old.refusal ≡ None }
        requires some { 0 < n }
        requires within { n ≤ length self.old.cutter.chars }
        requires room { self.old.cutter.at + width self.old.cutter.chars < 2 ^ 41 }
        ensures answer { OnOk result ((more : List ℕ) → spec.answer_of self.new more
            ≡ spec.judge self.old.line self.old.held (spec.token_items kind n (self.old.cutter.chars ++ more) self.old.cutter.at)) }
        ensures shorter { OnOk result (length self.new.cutter.chars + n ≡ length self.old.cutter.chars) }
        ensures place { OnOk result (self.new.cutter.at + width self.new.cutter.chars ≡ self.old.cutter.at + width self.old.cutter.chars) }
    {
        let at = self.cutter.at();
        let taken = self.line.take(kind, self.cutter.chars(n), at)?;
        self.cutter.cut(n);
        if let Some(code) = taken {
            self.refusal = Some(Refusal { code, at });
            return Ok(());
        }
        self.held.add_behind(self.alloc, kind, &self.line)
    }

    // Takes the tokens that are certain.
    fn settle(&mut self, whole: bool) -> Result<(), AllocError>
        requires { self.old.cutter.at + width self.old.cutter.chars < 2 ^ 41 }
        ensures answer { OnOk result ((more : List ℕ) → (whole ≡ true → more ≡ []) → spec.answer_of self.new more ≡ spec.answer_of self.old more) }
        ensures place { OnOk result (self.new.cutter.at + width self.new.cutter.chars ≡ self.old.cutter.at + width self.old.cutter.chars) }
        ensures none { OnOk result (whole ≡ true → self.new.refusal ≡ None → self.new.cutter.chars ≡ []) }
    {
        'tokens: while self.refusal.is_none() {
            let Some(front) = self.cutter.front(whole) else {
                self.cutter.compact();
                return Ok(());
            };
            match front {
                Front::Token(kind, n) => self.token(kind, n)?,
                Front::Nothing => {
                    self.refuse(Code::G1);
                    return Ok(());
                }
                Front::Long => {
                    self.refuse(Code::L2);
                    return Ok(());
                }
            }
        }
        Ok(())
    }

    // Refuses what stands at the front.
    fn refuse(&mut self, code: Code)
        ensures { self.new ≡ record self.old { refusal = Some (record { code = code; at = self.old.cutter.at }) } }
    {
        self.refusal = Some(Refusal {
            code,
            at: self.cutter.at(),
        });
    }

    // Why the whole text is refused, if it is.
    fn judged(&mut self) -> Result<Option<Refusal>, AllocError>
        requires { self.old.cutter.at + width self.old.cutter.chars < 2 ^ 41 }
        ensures { IfOk result (λ o. spec.Judges o self.new.held.store (spec.answer_of self.old [])) }
    {
        self.settle(true)?;
        if self.refusal.is_some() {
            return Ok(self.refusal);
        }
        if !self.line.is_between() {
            return Ok(Some(Refusal {
                code: Code::G3,
                at: self.cutter.at(),
            }));
        }
        Ok(self.held.limit)
    }

    /// What was read of the whole text.
    pub(crate) fn finish(mut self) -> Result<Records, ReadRefusal>
        requires { self.cutter.at + width self.cutter.chars < 2 ^ 41 }
        ensures ok { IfOk result (λ r. spec.answer_of self [] ≡ Answer.Read r) }
        ensures refused { IfErr result (λ e. IsRefusal e (spec.answer_of self [])) }
    {
        match self.judged() {
            Ok(None) => Ok(self.held.into_records()),
            Ok(Some(refusal)) => Err(ReadRefusal::Refused(refusal)),
            Err(_) => Err(ReadRefusal::Memory),
        }
    }
}
