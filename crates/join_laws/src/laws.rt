// Laws over the definitions: each is the contract of a function with nothing to do.
ghost use Rattle.std.specs.Prelude.{ℕ, List, Option};
ghost use Rattle.std.specs.List.{filter_map};
ghost use Rattle.std.specs.List.Sorted.{IsPermutation};
ghost use Rattle.rdf_terms.specs.declared.terms.Term.{Term};
ghost use Rattle.crm_core.specs.Contents.{Contents};
ghost use Rattle.archive_join.specs.Archives.{joined};
ghost use Rattle.archive_join.specs.Limits.{AreFew};
ghost use Rattle.record_laws.specs.Renaming.{Same};
ghost use Rattle.join_laws.specs.Agreeing.{AgreeUpTo};

/// The same files in any order say the same as one, but for the numbers of names and of blank nodes.
pub fn files_in_another_order_say_the_same()
    ensures { (files others : List Contents) → IsPermutation files others →
        (m : Term → Term) × (back : Term → Term) × Same (joined files).records (joined others).records m back }
{}

/// So what is faulty, an extent, consistent or following in them is the same, renamed.
pub fn what_is_found_is_the_same_in_any_order()
    ensures { (files others : List Contents) → IsPermutation files others → (m : Term → Term) × AgreeUpTo m (joined files).records (joined others).records }
{}

/// And they are within the limits together in the one order as in the other.
pub fn files_are_as_few_in_any_order()
    ensures { (files others : List Contents) → IsPermutation files others → AreFew (joined files).records → AreFew (joined others).records }
{}

/// Names in another order give the same files in another order, where a name that can't be read gives none.
pub fn parts_of_names_in_another_order()
    ensures { (part : List ℕ → Option Contents) (names others : List (List ℕ)) → IsPermutation names others →
        IsPermutation (filter_map part names) (filter_map part others) }
{}
