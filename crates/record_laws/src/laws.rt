// Laws over the definitions: each is the contract of a function with nothing to do.
ghost use Rattle.std.specs.Prelude.{◌≡◌, ◌↔◌, Bool, true};
ghost use Rattle.rdf_terms.specs.declared.terms.Term.{Term};
ghost use Rattle.rdf_terms.specs.declared.terms.Triple.{Triple};
ghost use Rattle.rdf_terms.specs.declared.triples.Records.{Records};
ghost use Rattle.triple_pool.specs.Pool.{number_from};
ghost use Rattle.crm_type_check.specs.Relations.{kinds_of};
ghost use Rattle.boundary_orders.specs.Extents.{kind_of, standings_of};
ghost use Rattle.boundary_orders.specs.Orders.{extent_number, is_numbered};
ghost use Rattle.order_laws.specs.Chains.{Follows};
ghost use Rattle.order_laws.specs.Placings.{IsConsistent};
ghost use Rattle.report_base.specs.Reports.{faults_in, findings_from};
ghost use Rattle.record_laws.specs.Renaming.{IsRenamed, Same, boundary};

/// A triple has the same kinds of faults in the one as, renamed, in the other.
pub fn faults_are_of_what_is_said()
    ensures { (r q : Records) (m back : Term → Term) → Same r q m back →
        (t u : Triple) → IsRenamed m t u → kinds_of q.names (number_from 0 q.triples) u ≡ kinds_of r.names (number_from 0 r.triples) t }
{}

/// The same nodes, renamed, are extents, and the same are periods.
pub fn extents_are_of_what_is_said()
    ensures { (r q : Records) (m back : Term → Term) → Same r q m back → (node : Term) →
        kind_of (standings_of q.names (number_from 0 q.triples) (faults_in q)) (m node)
        ≡ kind_of (standings_of r.names (number_from 0 r.triples) (faults_in r)) node }
{}

/// The orders of the one are consistent exactly where those of the other are.
pub fn consistency_is_of_what_is_said()
    ensures { (r q : Records) (m back : Term → Term) → Same r q m back → let ours = (findings_from r).orders in let theirs = (findings_from q).orders in
        IsConsistent ours.list ours.dates ours.extents ↔ IsConsistent theirs.list theirs.dates theirs.extents }
{}

/// From a boundary of an extent to one of another the same follows; so a primitive holds between two periods in both or
/// in neither.
pub fn what_follows_is_of_what_is_said()
    ensures { (r q : Records) (m back : Term → Term) → Same r q m back → (a b : Term) → let ours = findings_from r in let theirs = findings_from q in
        is_numbered ours.extents a ≡ true → is_numbered ours.extents b ≡ true → (i j strict : Bool) →
        Follows ours.orders.list (boundary i (extent_number ours.extents a)) (boundary j (extent_number ours.extents b)) strict
        ↔ Follows theirs.orders.list (boundary i (extent_number theirs.extents (m a))) (boundary j (extent_number theirs.extents (m b))) strict }
{}
