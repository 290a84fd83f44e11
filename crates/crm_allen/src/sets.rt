// Sets of relations.
ghost use Rattle.std.specs.Prelude.{◌≡◌};
ghost use Rattle.std.specs.List.{filter};
ghost use Rattle.crm_allen.specs.Names.{all_relations, is_among};

use crate::Allen;
use std::marker::Model;

/// A set of relations.
///
/// Contracts see the list of the relations that it has, in their sequence.
#[derive(Drop)]
pub struct AllenSet {
    pub(crate) before: bool,
    pub(crate) meets: bool,
    pub(crate) overlaps: bool,
    pub(crate) finished: bool,
    pub(crate) contains: bool,
    pub(crate) starts: bool,
    pub(crate) equal: bool,
    pub(crate) started: bool,
    pub(crate) during: bool,
    pub(crate) finishes: bool,
    pub(crate) overlapped: bool,
    pub(crate) met: bool,
    pub(crate) after: bool,
}

impl Model for AllenSet {
    ghost use Rattle.std.specs.Prelude.{List};
    ghost use Rattle.std.specs.List.{filter};
    ghost use Rattle.crm_allen.specs.declared.relations.Allen.{Allen};
    ghost use Rattle.crm_allen.specs.Names.{all_relations};
    ghost use Rattle.crm_allen.specs.Possible.{truth_of};

    ghost Value = { List Allen };

    ghost view = { λ s. filter (truth_of s.before s.meets s.overlaps s.finished s.contains s.starts s.equal s.started s.during s.finishes s.overlapped s.met s.after) all_relations };
}

impl AllenSet {
    /// Whether it has the relation.
    pub fn has(&self, r: Allen) -> bool
        ensures { result ≡ is_among self.now r }
    {
        match r {
            Allen::Before => self.before,
            Allen::Meets => self.meets,
            Allen::Overlaps => self.overlaps,
            Allen::Finished => self.finished,
            Allen::Contains => self.contains,
            Allen::Starts => self.starts,
            Allen::Equal => self.equal,
            Allen::Started => self.started,
            Allen::During => self.during,
            Allen::Finishes => self.finishes,
            Allen::Overlapped => self.overlapped,
            Allen::Met => self.met,
            Allen::After => self.after,
        }
    }

    /// Does nothing; its contract says that each relation is listed at most once and in its place.
    pub fn conditions(&self)
        ensures { filter (is_among self.now) all_relations ≡ self.now }
    {
        let _before = self.before;
    }
}
