// Files that are joined one behind another.
ghost use Rattle.std.specs.Prelude.{◌≡◌, IfOk, Err};
ghost use Rattle.rdf_terms.specs.declared.terms.Refusal.{Refusal};
ghost use Rattle.archive_join.specs.Limits.{AreFew, IsFirstPast};
ghost use Rattle.archive_join.specs.Joining.{nothing, triples_behind};
ghost use Rattle.archive_join.specs.Archives.{contents, with_file};

use crate::JoinFault;
use crate::joining::{Shift, add_records};
use crm_core::Archive;
use rdf_terms::{Names, Records, Triples};
use std::alloc::Global;
use std::marker::Model;

/// Files that are joined one behind another.
#[derive(Drop)]
pub struct Joiner {
    alloc: Global,
    records: Records,
    length: u64,
    blanks: u32,
    count: u64,
}

impl Model for Joiner {
    ghost use Rattle.archive_join.specs.Joining.{Joined};
    ghost use Rattle.archive_join.specs.Limits.{AreFew};

    ghost Value = { Joined };

    ghost view = { λ j. record { records = j.records; length = j.length; blanks = j.blanks; count = j.count } };

    ghost invariant = { λ j. AreFew j.records };
}

impl Joiner {
    /// No files.
    pub fn new(alloc: Global) -> Joiner
        ensures { result ≡ nothing }
    {
        Joiner {
            alloc,
            records: Records {
                names: Names::new(alloc),
                triples: Triples::new(alloc),
            },
            length: 0,
            blanks: 0,
            count: 0,
        }
    }

    /// Adds a file behind those before it: its places are counted on, its blank nodes are told from theirs, and a triple
    /// that is there is not added again.
    ///
    /// `Refused` at the first triple, by its place among all files, with which there are more than 262,144 IRIs and
    /// literals (`L5`) or else triples (`L4`). On a fault the files so far are lost.
    pub fn add(self, archive: Archive) -> Result<Joiner, JoinFault>
        ensures joined { IfOk result (λ j. j ≡ with_file self archive) }
        ensures few { IfOk result (λ j. AreFew j.records) }
        ensures refused { (f : Refusal) → result ≡ Err (JoinFault.Refused f) → IsFirstPast self.records (triples_behind self.blanks self.length archive.records) f }
    {
        let shift = Shift {
            blanks: self.blanks,
            bytes: self.length,
        };
        let mut records = self.records;
        let more = add_records(self.alloc, shift, archive.records(), &mut records)?;
        let Some(blanks) = shift.blanks.checked_add(more) else {
            return Err(JoinFault::Memory);
        };
        let Some(length) = shift.bytes.checked_add(archive.len()) else {
            return Err(JoinFault::Memory);
        };
        Ok(Joiner {
            alloc: self.alloc,
            records,
            length,
            blanks,
            count: self.count.saturating_add(1),
        })
    }

    /// How many files were added.
    pub fn count(&self) -> u64
        ensures { result ≡ self.now.count }
    {
        self.count
    }

    /// The files as one.
    pub fn finish(self) -> Archive
        ensures { result ≡ contents self }
    {
        Archive::from_records(self.records, self.length)
    }
}
