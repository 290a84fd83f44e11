// The labels of blank nodes.
ghost use Rattle.std.specs.Prelude.{◌≡◌, [], IfOk, OnOk};
ghost use Rattle.ntriples_reader.specs.Storing.{label_number, with_label};

use indexmap::IndexSet;
use std::alloc::{AllocError, Global};
use std::marker::Model;

/// The labels of blank nodes in the order of first coming, each numbered from 0.
#[derive(Drop)]
pub(crate) struct Labels {
    alloc: Global,
    set: IndexSet<String>,
}

impl Model for Labels {
    ghost use Rattle.std.specs.Prelude.{List, ℕ, map, string_bytes};

    ghost Value = { List (List ℕ) };

    ghost view = { λ l. map string_bytes l.set.keys };
}

impl Labels {
    pub(crate) fn new(alloc: Global) -> Labels
        ensures { result ≡ [] }
    {
        Labels {
            alloc,
            set: IndexSet::new(alloc),
        }
    }

    /// The number of a label, a new one last.
    #[tactic(auto, using(crate::proofs::Numbered::list_any_map, crate::proofs::Numbered::position_map, crate::proofs::Numbered::map_push, std::proofs::lemmas::Grind::common_steps))]
    pub(crate) fn number(&mut self, text: &str) -> Result<u32, AllocError>
        ensures number { IfOk result (λ n. n ≡ label_number self.old text.now) }
        ensures labels { OnOk result (self.new ≡ with_label self.old text.now) }
    {
        let n = match self.set.get_index_of(text) {
            Some(n) => n,
            None => {
                let label = String::from_str(self.alloc, text)?;
                let (n, _) = self.set.insert_full(label)?;
                n
            }
        };
        match u32::try_from(n) {
            Ok(n) => Ok(n),
            Err(_) => Err(AllocError),
        }
    }
}
