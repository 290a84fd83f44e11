// A law over what is found of records: the contract of a function with nothing to do.
ghost use Rattle.order_laws.specs.Tables.{IsOrderSet};
ghost use Rattle.order_core.specs.Sets.{AreExtents};
ghost use Rattle.rdf_terms.specs.declared.triples.Records.{Records};
ghost use Rattle.report_base.specs.Reports.{findings_from};

/// The orders of records lie between the boundaries of their extents and ascending dates, each extent starts before it
/// ends, and the periods are extents.
pub fn orders_of_records_are_a_set()
    ensures orders { (r : Records) → IsOrderSet (findings_from r).orders.list (findings_from r).orders.extents (findings_from r).orders.dates }
    ensures periods { (r : Records) → AreExtents (findings_from r).orders.extents (findings_from r).periods }
{}
