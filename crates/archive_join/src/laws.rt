// Laws over the definitions: each is the contract of a function with nothing to do.
ghost use Rattle.std.specs.Prelude.{List};
ghost use Rattle.rdf_terms.specs.declared.terms.Refusal.{Refusal};
ghost use Rattle.rdf_terms.specs.declared.triples.Records.{Records};
ghost use Rattle.joined_names.specs.Values.{ValueTriple, with_all};
ghost use Rattle.archive_join.specs.Limits.{AreFew, IsFirstPast};

/// Files that are within the limits together are not refused.
pub fn files_within_the_limits_are_joined()
    ensures { (start : Records) (xs : List ValueTriple) (f : Refusal) → AreFew (with_all start xs) → IsFirstPast start xs f → ⊥ }
{}
