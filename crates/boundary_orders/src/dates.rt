// The dates of statements.
ghost use Rattle.std.specs.Prelude.{◌≡◌, ◌≤◌, [], true, Some, length, IfOk, IfSome, OnOk};
ghost use Rattle.std.specs.BTreeSet.{insert_key};
ghost use Rattle.std.specs.List.{All, cons_option, fold};
ghost use Rattle.std.specs.List.Sorted.{IsStrictlySortedBy};
ghost use Rattle.std.specs.Ordering.{int_cmp};
ghost use Rattle.boundary_orders.specs.Orders as spec;
ghost use Rattle.boundary_orders.specs.Orders.{IsInstant, instant_of, dates_of, is_held};

use crate::statements::{Statement, StatementList, is_date};
use crm_type_check::date_side;
use order_core::Dates;
use rdf_terms::{Names, Term};
use std::alloc::{AllocError, Global};
use std::collections::BTreeSet;
use time_primitive::read_date;

/// The date of a statement that has one, in nanoseconds from 1970-01-01T00:00:00 in UTC.
pub fn date_in(names: &Names, statement: &Statement) -> Option<i128>
    ensures value { result ≡ instant_of names.now statement.now }
    ensures range { IfSome result IsInstant }
{
    if !is_date(statement.code) {
        return None;
    }
    let Term::Lit(number) = statement.range else {
        return None;
    };
    let Some(literal) = names.get_literal(number) else {
        return None;
    };
    read_date(
        literal.lexical.as_str(),
        literal.datatype.as_str(),
        date_side(statement.code),
    )
    .ok()
}

fn add_date(found: &mut BTreeSet<i128>, date: Option<i128>) -> Result<(), AllocError>
    requires { IfSome date IsInstant }
    ensures keys { OnOk result (found.new.keys ≡ fold (insert_key int_cmp) found.old.keys (cons_option date [])) }
    ensures instants { OnOk result (All IsInstant found.old.keys → All IsInstant found.new.keys) }
{
    if let Some(date) = date {
        found.insert(date)?;
    }
    Ok(())
}

fn collect_dates(
    alloc: Global,
    names: &Names,
    statements: &StatementList,
) -> Result<BTreeSet<i128>, AllocError>
    ensures dates { IfOk result (λ found. found.keys ≡ dates_of names.now statements.now) }
    ensures instants { IfOk result (λ found. All IsInstant found.keys) }
{
    let mut found = BTreeSet::new(alloc);
    for statement in statements.as_slice() {
        add_date(&mut found, date_in(names, &statement.1))?;
    }
    Ok(found)
}

/// The distinct dates of the statements, ascending.
pub fn find_dates(
    alloc: Global,
    names: &Names,
    statements: &StatementList,
) -> Result<Dates, AllocError>
    ensures dates { IfOk result (λ dates. dates ≡ dates_of names.now statements.now) }
    ensures ascending { IfOk result (λ dates. IsStrictlySortedBy int_cmp dates) }
    ensures instants { IfOk result (λ dates. All IsInstant dates) }
{
    let found = collect_dates(alloc, names, statements)?;
    let mut dates = Vec::with_capacity(alloc, found.len())?;
    for date in found {
        dates.push(date)?;
    }
    Ok(Dates::from_vec(dates))
}

/// The number of a date that is one of these ascending ones.
pub fn date_number(dates: &[i128], date: &i128) -> u32
    requires ascending { IsStrictlySortedBy int_cmp dates.now }
    requires few { length dates.now ≤ 2048 }
    requires held { is_held dates.now (Some date.now) ≡ true }
    ensures { result ≡ spec.date_number dates.now date.now }
{
    match dates.binary_search(date) {
        Ok(k) => k as u32,
        Err(_) => unreachable!(),
    }
}
