// Laws over the definitions: each is the contract of a function with nothing to do.
ghost use Rattle.std.specs.Prelude.{◌≡◌, ℕ, List, true, is_some, map};
ghost use Rattle.std.specs.List.{All};
ghost use Rattle.rdf_terms.specs.declared.terms.Triple.{Triple};
ghost use Rattle.rdf_terms.specs.Naming.{NameLists};
ghost use Rattle.rdf_terms.specs.Fitting.{AllFit};
ghost use Rattle.crm_type_check.specs.Relations.{faults_of};
ghost use Rattle.boundary_orders.specs.Statements.{is_dated, statements_of};
ghost use Rattle.boundary_orders.specs.Orders.{instant_of};

/// A dated statement has its date, where the triples fit the names and no fault is left out.
pub fn dates_are_known()
    ensures { (names : NameLists) (triples : List (ℕ × Triple)) → AllFit names (map (λ p. p.1) triples) →
        All (λ s. is_dated s.1.code ≡ true → is_some (instant_of names s.1) ≡ true) (statements_of names triples (faults_of names triples)) }
{}
