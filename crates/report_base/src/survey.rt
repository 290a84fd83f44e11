// The faults of triples, and what the others of them say.
ghost use Rattle.std.specs.Prelude.{◌≡◌, IfOk, IfErr};
ghost use Rattle.crm_type_check.specs.Relations.{faults_of};
ghost use Rattle.boundary_orders.specs.Dossiers.{IsPassed, findings_of};
ghost use Rattle.triple_pool.specs.Pool.{number_from};
ghost use Rattle.report_base.specs.Reports.{faults_in, findings_from};
ghost use Rattle.report_base.specs.Surveys.{IsSurveyOf};

use boundary_orders::{BuildFault, Dossier};
use crm_type_check::{Faults, faults};
use rdf_terms::{Names, Records};
use std::alloc::{AllocError, Global};
use triple_pool::TriplePool;

/// The faults of triples, and the extents, dates and orders of those without one, within the limits of their counts.
#[derive(Drop)]
pub struct Survey {
    pub faults: Faults,
    pub dossier: Dossier,
}

/// Surveys the triples of a pool.
pub fn survey_pool(alloc: Global, names: &Names, pool: &TriplePool) -> Result<Survey, BuildFault>
    ensures ok { IfOk result (λ s. IsSurveyOf names.now pool.now.pairs s) }
    ensures err { IfErr result (λ e. IsPassed (findings_of names.now pool.now.pairs (faults_of names.now pool.now.pairs)) e) }
{
    let faults = faults(alloc, names, pool)?;
    let dossier = Dossier::build(alloc, names, pool, &faults)?;
    Ok(Survey { faults, dossier })
}

/// Surveys the triples of records.
pub fn take_survey(alloc: Global, records: &Records) -> Result<Survey, BuildFault>
    ensures ok { IfOk result (λ s. IsSurveyOf records.now.names (number_from 0 records.now.triples) s) }
    ensures err { IfErr result (λ e. IsPassed (findings_from records.now) e) }
{
    let pool = TriplePool::build(alloc, &records.triples)?;
    survey_pool(alloc, &records.names, &pool)
}

/// The faults of records, of which there may be too many extents, dates or orders.
pub fn find_faults(alloc: Global, records: &Records) -> Result<Faults, AllocError>
    ensures { IfOk result (λ fs. fs ≡ faults_in records.now) }
{
    let pool = TriplePool::build(alloc, &records.triples)?;
    faults(alloc, &records.names, &pool)
}
