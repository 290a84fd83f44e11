// The dossier of a pool.
ghost use Rattle.std.specs.Prelude.{◌≡◌, ◌≤◌, ◌<◌, ◌^◌, ◌++◌, true, IfOk, IfErr, OnOk, length, map, position, slice_get, option_map};
ghost use Rattle.std.specs.List.{All};
ghost use Rattle.rdf_terms.specs.Terms.{same_term};
ghost use Rattle.rdf_terms.specs.Fitting.{is_among, AllFit};
ghost use Rattle.boundary_orders.specs.Orders.{AreNumbered};
ghost use Rattle.boundary_orders.specs.Dossiers.{findings_in, findings_of, periods_from, number_where, AreFew, IsPassed, IsSourced, IsWhole};

use crate::dates::find_dates;
use crate::extents::{ExtentTable, find_extents};
use crate::faults::BuildFault;
use crate::listing::list_orders;
use crate::statements::{StatementList, faulty_numbers, find_statements};
use crm_outside::Numbers;
use crm_type_check::{Faults, index_of};
use order_core::{OrderSet, completed_set};
use rdf_terms::{Names, Term};
use std::alloc::{AllocError, Global};
use std::marker::Model;
use triple_pool::TriplePool;

const EXTENT_LIMIT: u32 = 2_048;

const DATE_LIMIT: u32 = 2_048;

const ORDER_LIMIT: u32 = 65_536;

/// An extent: its node, and whether it is a period; any other is a span.
#[derive(Clone, Copy, PartialEq, Eq, Debug)]
pub struct ExtentRow {
    pub node: Term,
    pub period: bool,
}

/// The extents, the periods and the orders of the triples of a pool.
#[derive(Drop)]
pub struct Dossier {
    extents: ExtentTable,
    periods: Numbers,
    orders: OrderSet,
}

impl Model for Dossier {
    ghost use Rattle.std.specs.Prelude.{length, ◌≤◌};
    ghost use Rattle.boundary_orders.specs.Dossiers.{Findings, IsKept};

    ghost Value = { Findings };

    ghost view = { λ d. record { extents = d.extents.entries; periods = d.periods; orders = d.orders } };

    ghost invariant = { λ d. IsKept d.extents.entries d.periods d.orders.extents };
}

impl Dossier {
    /// The dossier of all triples of the pool, of which these are the faults.
    ///
    /// A fault tells the first limit that is passed, of extents, then dates, then orders.
    pub fn build(
        alloc: Global,
        names: &Names,
        pool: &TriplePool,
        faults: &Faults,
    ) -> Result<Dossier, BuildFault>
        ensures ok { IfOk result (λ d. d ≡ findings_of names.now pool.now.pairs faults.now) }
        ensures few { IfOk result (λ d. AreFew d) }
        ensures err { IfErr result (λ e. IsPassed (findings_of names.now pool.now.pairs faults.now) e) }
        ensures fits { AllFit names.now (map (λ p. p.1) pool.now.pairs) → IfOk result (λ d. All (λ e. is_among names.now e.0 ≡ true) d.extents) }
        ensures sources { IfOk result (λ d. All (λ o. IsSourced pool.now.pairs o.by) d.orders.list) }
    {
        // its contract bounds the counts of extents, dates and orders
        let _count = pool.len();
        let index = index_of(alloc, names, pool)?;
        let faulty = faulty_numbers(alloc, faults)?;
        let statements = find_statements(alloc, names, pool, &index, &faulty)?;
        let extents = find_extents(alloc, names, pool, &faulty, &statements)?;
        arrange(alloc, names, extents, &statements)
    }

    /// Does nothing; its contract says what every dossier keeps.
    pub fn conditions(&self)
        ensures { IsWhole self.now }
    {
        let _extents = self.extents.len();
    }

    /// The orders between the boundaries of the extents and the dates.
    pub fn orders(&self) -> &OrderSet
        ensures { result.now ≡ self.now.orders }
    {
        &self.orders
    }

    /// The numbers of the periods, ascending.
    pub fn periods(&self) -> &Numbers
        ensures { result.now ≡ self.now.periods }
    {
        &self.periods
    }

    /// The extent of a number; None where there are no more than `k` extents.
    pub fn extent(&self, k: u32) -> Option<ExtentRow>
        ensures { option_map (λ row. (row.node, row.period)) result ≡ slice_get self.now.extents k }
    {
        match self.extents.get_index(k as usize) {
            Some((node, period)) => Some(ExtentRow {
                node: *node,
                period: *period,
            }),
            None => None,
        }
    }

    /// The number of the extent that the node is; None where it is none.
    #[tactic(auto, using(crate::proofs::Finding::place_found))]
    pub fn find(&self, node: Term) -> Option<u32>
        ensures { result ≡ position (λ e. same_term node e.0) self.now.extents }
    {
        match self.extents.get_index_of(&node) {
            Some(k) => Some(k as u32),
            None => None,
        }
    }
}

fn push_period(periods: &mut Numbers, extents: &ExtentTable, k: usize) -> Result<(), AllocError>
    requires few { length extents.now.entries ≤ 2048 }
    requires within { k < length extents.now.entries }
    ensures { OnOk result (periods.new ≡ periods.old ++ number_where k (slice_get extents.now.entries k)) }
{
    if let Some((_, period)) = extents.get_index(k)
        && *period
    {
        return periods.push(k as u32);
    }
    Ok(())
}

fn find_periods(alloc: Global, extents: &ExtentTable) -> Result<Numbers, AllocError>
    requires few { length extents.now.entries ≤ 2048 }
    ensures { IfOk result (λ periods. periods ≡ periods_from 0 extents.now.entries) }
{
    let mut periods = Numbers::new(alloc);
    for k in 0..extents.len() {
        push_period(&mut periods, extents, k)?;
    }
    Ok(periods)
}

// The dossier of these extents and statements, or the first limit that is passed.
fn arrange(
    alloc: Global,
    names: &Names,
    extents: ExtentTable,
    statements: &StatementList,
) -> Result<Dossier, BuildFault>
    requires numbered { All (λ s. AreNumbered extents.entries s.1) statements.now }
    requires few_extents { length extents.entries ≤ 2 ^ 20 }
    requires few_statements { length statements.now ≤ 2 ^ 20 }
    ensures ok { IfOk result (λ d. d ≡ findings_in names.now extents.entries statements.now) }
    ensures few { IfOk result (λ d. AreFew d) }
    ensures err { IfErr result (λ e. IsPassed (findings_in names.now extents.entries statements.now) e) }
{
    let extent_count = extents.len() as u32;
    if extent_count > EXTENT_LIMIT {
        return Err(BuildFault::Extents(extent_count));
    }
    let dates = find_dates(alloc, names, statements)?;
    let date_count = dates.len() as u32;
    if date_count > DATE_LIMIT {
        return Err(BuildFault::Dates(date_count));
    }
    let list = list_orders(alloc, names, &extents, dates.as_slice(), statements)?;
    let order_count = list.len() as u32 + extent_count + date_count.saturating_sub(1);
    if order_count > ORDER_LIMIT {
        return Err(BuildFault::Orders(order_count));
    }
    let periods = find_periods(alloc, &extents)?;
    let orders = completed_set(extent_count, dates, list)?;
    Ok(Dossier {
        extents,
        periods,
        orders,
    })
}
