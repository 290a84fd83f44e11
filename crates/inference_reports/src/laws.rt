// A law over explanations: the contract of a function with nothing to do.
ghost use Rattle.std.specs.Prelude.{◌≡◌, ◌↔◌, ◌⊎◌, ℕ, List, None};
ghost use Rattle.rdf_terms.specs.declared.triples.Records.{Records};
ghost use Rattle.order_core.specs.declared.primitives.Primitive.{Primitive};
ghost use Rattle.boundary_orders.specs.Dossiers.{AreFew};
ghost use Rattle.report_base.specs.declared.status.Status.TheVariants.{Usage};
ghost use Rattle.report_base.specs.Reports.{findings_from};
ghost use Rattle.inference_reports.specs.Explained.{explain_report, period_named};

/// An explanation is one of usage exactly where the records are within the limits and a word names no period.
pub fn explanations_are_usage_where_no_period_is_named()
    ensures { (r : Records) (a : List ℕ) (p : Primitive) (b : List ℕ) →
        ((explain_report r a p b).status ≡ Usage)
        ↔ (AreFew (findings_from r)
        × ((period_named r.names (findings_from r).extents a ≡ None) ⊎ (period_named r.names (findings_from r).extents b ≡ None))) }
{}
