// Laws over what is printed: each is the contract of a function that does nothing.
ghost use Rattle.std.specs.Prelude.{◌<◌, ◌++◌, ℕ, ℤ, List, length};
ghost use Rattle.std.specs.List.{All};
ghost use Rattle.rdf_terms.specs.declared.triples.Records.{Records};
ghost use Rattle.order_laws.specs.declared.Order.{Order};
ghost use Rattle.order_laws.specs.Tables.{IsOrderSet};
ghost use Rattle.order_core.specs.Sets.{Orders, AreExtents, completed};
ghost use Rattle.order_core.specs.declared.primitives.Primitive.{Primitive};
ghost use Rattle.reason_report.specs.Answers.{answer_text};
ghost use Rattle.reason_report.specs.Reason.{report_text};
ghost use Rattle.allen_reports.specs.Relations.{examples_text};
ghost use Rattle.allen_reports.specs.Reports.{consistent_text as table_text, text_by as relations_by};
ghost use Rattle.order_analysis.specs.Subjects.{cycle_of};
ghost use Rattle.order_conflicts.specs.Conflicts.{conflicts_in};
ghost use Rattle.order_conflicts.specs.Tangles.{set_of};
ghost use Rattle.conflict_reports.specs.Texts.{outcome_text};
ghost use Rattle.boundary_orders.specs.Dossiers.{AreFew};
ghost use Rattle.report_base.specs.Reports.{findings_from};
ghost use Rattle.dating_reports.specs.Bounds.{around_report};
ghost use Rattle.dating_reports.specs.When.{at_report};
ghost use Rattle.crm_run.specs.Headline.{IsBounded, IsStated, IsTrueAnswer, IsTrueConflicts, IsTrueList, IsTrueReason, IsTrueTable, IsUnderWayAt};

use crm_core::orders_of_records_are_a_set;
use dating_reports::laws as dating;
use order_conflicts::laws as conflicts;
use reason_report::laws;

/// What is reported of orders is true of every placing.
pub(crate) fn reports_are_true()
    ensures { (set : Orders) (periods front : List ℕ) → IsOrderSet set.list set.extents set.dates → AreExtents set.extents periods →
        IsTrueReason set periods front (front ++ report_text set periods) }
{
    laws::reports_are_consistent_where_some_placing_satisfies();
    laws::listed_primitives_always_hold();
    laws::listed_relations_have_their_chains();
    laws::answers_hold_where_every_placing_does();
}

/// What is answered of a primitive is true of every placing.
pub(crate) fn answers_are_true()
    ensures { (set : Orders) (a : ℕ) (p : Primitive) (b : ℕ) (front : List ℕ) → IsOrderSet set.list set.extents set.dates →
        a < set.extents → b < set.extents → IsTrueAnswer set a p b front (front ++ answer_text set a p b) }
{
    laws::reports_are_consistent_where_some_placing_satisfies();
    laws::listed_primitives_always_hold();
    laws::listed_relations_have_their_chains();
    laws::answers_hold_where_every_placing_does();
}

/// What is listed of Allen's relations between each two periods is true of every placing.
pub(crate) fn tables_are_true()
    ensures { (set : Orders) (periods front : List ℕ) → IsOrderSet set.list set.extents set.dates → AreExtents set.extents periods →
        IsTrueTable set periods front (front ++ relations_by (cycle_of set) (table_text set periods)) }
{
    laws::reports_are_consistent_where_some_placing_satisfies();
}

/// So it is with the relations of two periods, and their examples.
pub(crate) fn lists_are_true()
    ensures { (set : Orders) (a b : ℕ) (front : List ℕ) → IsOrderSet set.list set.extents set.dates → a < set.extents → b < set.extents →
        IsTrueList set a b front (front ++ relations_by (cycle_of set) (examples_text set a b)) }
{
    laws::reports_are_consistent_where_some_placing_satisfies();
}

/// So it is with the dates around the boundaries of records within the limits.
pub(crate) fn bounds_are_true()
    ensures { (r : Records) → AreFew (findings_from r) → IsBounded r (around_report r.names (findings_from r)).text }
{
    orders_of_records_are_a_set();
    laws::reports_are_consistent_where_some_placing_satisfies();
    dating::printed_bounds_hold_in_every_placing();
}

/// And with their periods at an instant.
pub(crate) fn moments_are_true()
    ensures { (r : Records) (t : ℤ) → AreFew (findings_from r) → IsUnderWayAt t r (at_report r.names (findings_from r) t).text }
{
    orders_of_records_are_a_set();
    laws::reports_are_consistent_where_some_placing_satisfies();
    dating::printed_periods_are_under_way_in_placings();
}

/// And with what contradicts itself in orders.
pub(crate) fn conflicts_are_true()
    ensures { (extents : ℕ) (dates : List ℤ) (statements : List Order) (front : List ℕ) →
        All IsStated statements → IsOrderSet (completed extents (length dates) statements) extents dates →
        IsTrueConflicts (set_of extents dates statements) front (front ++ outcome_text (conflicts_in (set_of extents dates statements))) }
{
    conflicts::conflicts_are_found_where_no_placing_is();
    conflicts::suspects_alone_can_be_wrong();
    conflicts::orders_beside_tangles_are_consistent();
}
