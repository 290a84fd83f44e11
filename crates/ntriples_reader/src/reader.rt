// The reader of bytes that come in pieces.
ghost use Rattle.std.specs.Prelude.{◌≡◌, ℕ, ◌+◌, ◌^◌, ◌<◌, List, [], ◌∷◌, ◌++◌, OnOk, OnErr, IfOk, IfErr, IsErr, Err, true, false, length, take, ◌≤◌};
ghost use Rattle.ntriples_reader.specs.Feeding.{promised, answer};
ghost use Rattle.rdf_reading.specs.Answers.{Answer, IsRefusal};

use crate::lines::LinesReader;
use rdf_chars::Utf8Steps;
use rdf_reading::ReadRefusal;
use rdf_terms::{Code, Records, Refusal};
use std::alloc::{AllocError, Global};
use std::marker::Model;

/// Reads N-Triples from bytes that come in pieces, fewer than 2^32 in all.
#[derive(Drop)]
pub struct NtReader {
    steps: Utf8Steps,
    lines: LinesReader,
    starved: bool,
}

impl Model for NtReader {
    ghost use Rattle.ntriples_reader.specs.Feeding.{Feeding, HasRoom};

    ghost Value = { Feeding };

    ghost view = { λ r. record { fed = r.steps; lines = r.lines; starved = r.starved } };

    ghost invariant = { λ r. HasRoom r.starved r.lines r.steps };
}

impl NtReader {
    /// A reader to which nothing was fed.
    pub fn new(alloc: Global) -> Result<NtReader, AllocError>
        ensures count { IfOk result (λ r. r.fed.count ≡ 0) }
        ensures starved { IfOk result (λ r. r.starved ≡ false) }
        ensures answer { IfOk result (λ r. (bytes : List ℕ) → promised r bytes ≡ answer bytes) }
    {
        Ok(NtReader {
            steps: Utf8Steps::new(),
            lines: LinesReader::new(alloc),
            starved: false,
        })
    }

    // Takes a byte.
    fn take(&mut self, byte: u8) -> Result<(), AllocError>
        requires room { self.old.fed.count + 1 < 2 ^ 32 }
        requires fed { self.old.starved ≡ false }
        ensures count { OnOk result (self.new.fed.count ≡ self.old.fed.count + 1) }
        ensures starved { OnOk result (self.new.starved ≡ false) }
        ensures hungry { OnErr result (self.new.starved ≡ true) }
        ensures answer { OnOk result ((more : List ℕ) → promised self.new more ≡ promised self.old (byte ∷ more)) }
    {
        match self.steps.push(byte) {
            Ok(Some(c)) => {
                if self.lines.take(c).is_err() {
                    self.starved = true;
                    return Err(AllocError);
                }
                Ok(())
            }
            Ok(None) => Ok(()),
            Err(_) => Ok(()),
        }
    }

    // Takes those of the first bytes that only lengthen the open token, and says how many these are.
    fn take_run(&mut self, bytes: &[u8]) -> Result<usize, AllocError>
        requires room { self.old.fed.count + length bytes.now < 2 ^ 32 }
        requires fed { self.old.starved ≡ false }
        ensures within { IfOk result (λ n. n ≤ length bytes.now) }
        ensures count { IfOk result (λ n. self.new.fed.count ≡ self.old.fed.count + n) }
        ensures starved { OnOk result (self.new.starved ≡ false) }
        ensures hungry { OnErr result (self.new.starved ≡ true) }
        ensures answer { IfOk result (λ n. (more : List ℕ) → promised self.new more ≡ promised self.old (take n bytes.now ++ more)) }
    {
        if !self.steps.is_between() {
            return Ok(0);
        }
        let Ok(count) = self.lines.take_run(bytes) else {
            self.starved = true;
            return Err(AllocError);
        };
        if count > 0 {
            self.steps.pass(&bytes[..count]);
        }
        Ok(count)
    }

    // Takes the first bytes, at least one, and says how many these are.
    fn take_some(&mut self, bytes: &[u8]) -> Result<usize, AllocError>
        requires some { 0 < length bytes.now }
        requires room { self.old.fed.count + length bytes.now < 2 ^ 32 }
        requires fed { self.old.starved ≡ false }
        ensures some { IfOk result (λ n. 0 < n) }
        ensures within { IfOk result (λ n. n ≤ length bytes.now) }
        ensures count { IfOk result (λ n. self.new.fed.count ≡ self.old.fed.count + n) }
        ensures starved { OnOk result (self.new.starved ≡ false) }
        ensures hungry { OnErr result (self.new.starved ≡ true) }
        ensures answer { IfOk result (λ n. (more : List ℕ) → promised self.new more ≡ promised self.old (take n bytes.now ++ more)) }
    {
        let count = self.take_run(bytes)?;
        if count == 0 {
            self.take(bytes[0])?;
            return Ok(1);
        }
        Ok(count)
    }

    /// Takes the next piece. After want of memory each call answers want of memory.
    pub fn feed(&mut self, piece: &[u8]) -> Result<(), AllocError>
        requires { self.old.fed.count + length piece.now < 2 ^ 32 }
        ensures count { OnOk result (self.new.fed.count ≡ self.old.fed.count + length piece.now) }
        ensures answer { OnOk result ((more : List ℕ) → promised self.new more ≡ promised self.old (piece.now ++ more)) }
        ensures starved { OnErr result (self.new.starved ≡ true) }
        ensures still { self.old.starved ≡ true → IsErr result }
    {
        if self.starved {
            return Err(AllocError);
        }
        let mut taken = 0;
        'bytes: while taken < piece.len() {
            taken += self.take_some(&piece[taken..])?;
        }
        Ok(())
    }

    /// The names and triples of all that was fed, or the first refusal.
    pub fn finish(self) -> Result<Records, ReadRefusal>
        ensures ok { IfOk result (λ r. promised self [] ≡ Answer.Read r) }
        ensures refused { IfErr result (λ e. IsRefusal e (promised self [])) }
        ensures still { self.starved ≡ true → result ≡ Err ReadRefusal.Memory }
    {
        if self.starved {
            return Err(ReadRefusal::Memory);
        }
        match self.steps.finish() {
            Ok(()) => self.lines.finish(),
            Err(bad) => Err(ReadRefusal::Refused(Refusal {
                code: Code::U1,
                at: bad.at,
            })),
        }
    }
}
