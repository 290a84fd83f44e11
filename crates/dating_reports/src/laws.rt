// What is printed, in terms of every placing that satisfies the orders: each is the contract of a function with nothing to do.
ghost use Rattle.std.specs.Prelude.{◌≡◌, ℕ, ℤ};
ghost use Rattle.order_laws.specs.declared.Point.{Point};
ghost use Rattle.dating_bounds.specs.declared.extremes.Bound.{Bound};
ghost use Rattle.dating_bounds.specs.declared.moments.During.{During};
ghost use Rattle.rdf_terms.specs.declared.triples.Records.{Records};
ghost use Rattle.report_base.specs.declared.status.Status.TheVariants.{Done};
ghost use Rattle.report_base.specs.Reports.{findings_from};
ghost use Rattle.dating_reports.specs.Bounds.{bounds_report};
ghost use Rattle.dating_reports.specs.Headlines.{AreBounds, AreDuring, text_of_bounds, text_of_during};
ghost use Rattle.dating_reports.specs.When.{when_report};

/// The low bound that `bounds` prints of a boundary is the last date that every satisfying placing has at or before it, and
/// the high bound the first that every one has at or after it.
pub fn printed_bounds_hold_in_every_placing()
    ensures { (r : Records) → (bounds_report r).status ≡ Done →
        (bounds : Point → Bound) × (AreBounds (findings_from r).orders bounds × ((bounds_report r).text ≡ text_of_bounds r bounds)) }
{}

/// The periods that `when` prints as surely, never and maybe under way are those that every satisfying placing has under way
/// at the instant, that none has, and that one has and another has not.
pub fn printed_periods_are_under_way_in_placings()
    ensures { (r : Records) (t : ℤ) → (when_report r t).status ≡ Done →
        (during : ℕ → During) × (AreDuring (findings_from r).orders t during × ((when_report r t).text ≡ text_of_during r t during)) }
{}
