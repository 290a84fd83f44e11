// The lines of the relations of one period to each.
ghost use Rattle.std.specs.Prelude.{◌≡◌, ◌++◌, ◌<◌, [], ◌∷◌, length, OnOk};
ghost use Rattle.std.specs.List.{flat_map};
ghost use Rattle.order_laws.specs.declared.Point.TheVariants.{Start, End};
ghost use Rattle.order_laws.specs.Closure.{reach_between};
ghost use Rattle.order_laws.specs.Tables.{IsPoint, is_strict};
ghost use Rattle.chain_certificate.specs.Routes.{IsRoutesOf};
ghost use Rattle.crm_outside.specs.Printing.{Prints};
ghost use Rattle.order_core.specs.Sides.{left_point, right_point};
ghost use Rattle.order_analysis.specs.Reasons.{reach_at};
ghost use Rattle.reason_report.specs.Relations.{relation_at};
ghost use Rattle.reason_report.specs.Reason as spec;

use chain_certificate::Routes;
use crm_outside::{PrintFault, Sink, print_text};
use itoa::Buffer;
use order_analysis::Analysis;
use order_closure::Reach;
use order_core::{Point, Primitive, Side};
use order_texts::append_chain;
use std::alloc::AllocError;

/// A relation of two periods that follows from a set of orders: the boundary of the left one is at or
/// before that of the right one, or before it where `strict` is set.
#[derive(Clone, Copy, Debug, PartialEq, Eq)]
pub struct Relation {
    pub left: u32,
    pub right: u32,
    pub side: Side,
    pub strict: bool,
}

// A period, and the chains from its boundaries.
#[derive(Drop)]
struct Row {
    period: u32,
    from_start: Routes,
    from_end: Routes,
}

fn append_codes(side: Side, strict: bool, line: &mut Vec<u8>) -> Result<(), AllocError>
    ensures { OnOk result (line.new.items ≡ line.old.items ++ spec.side_codes side strict) }
{
    line.extend_from_slice(Primitive::of(side, false).code().as_bytes())?;
    if strict {
        line.push(b' ')?;
        line.extend_from_slice(Primitive::of(side, true).code().as_bytes())?;
    }
    Ok(())
}

fn append_period(k: u32, line: &mut Vec<u8>) -> Result<(), AllocError>
    ensures { OnOk result (line.new.items ≡ line.old.items ++ spec.period_text k) }
{
    line.extend_from_slice(b" x")?;
    line.extend_from_slice(Buffer::new().format(k).as_bytes())
}

/// Appends the chain from the source of the routes to a target, one that shows `<` where `strict` is set.
pub fn append_reason(
    analysis: &Analysis,
    routes: &Routes,
    source: Point,
    target: Point,
    strict: bool,
    line: &mut Vec<u8>,
) -> Result<(), AllocError>
    requires routes { IsRoutesOf analysis.now.set source routes.now }
    requires target { IsPoint analysis.now.set.extents (length analysis.now.set.dates) target }
    requires strict { strict ≡ is_strict (reach_between analysis.now.set.list source target) }
    ensures { OnOk result (line.new.items ≡ line.old.items ++ spec.reason_text analysis.now.set.list source target) }
{
    match routes.chain(analysis.alloc(), target, strict)? {
        Some(chain) => append_chain(chain.as_slice(), line),
        None => Ok(()),
    }
}

#[tactic(auto, unfolding(crate::specs::Reason::relation_line))]
fn append_relation(
    analysis: &Analysis,
    routes: &Routes,
    relation: Relation,
    line: &mut Vec<u8>,
) -> Result<(), AllocError>
    requires routes { IsRoutesOf analysis.now.set (left_point relation.side relation.left) routes.now }
    requires right { relation.right < analysis.now.set.extents }
    requires strict { relation.strict ≡ is_strict (reach_at analysis.now.set.list relation.left relation.right relation.side) }
    ensures { OnOk result (line.new.items ≡ line.old.items ++ spec.relation_line analysis.now.set.list relation) }
{
    append_codes(relation.side, relation.strict, line)?;
    append_period(relation.left, line)?;
    append_period(relation.right, line)?;
    line.extend_from_slice(b" by")?;
    let left = relation.side.left(relation.left);
    let right = relation.side.right(relation.right);
    append_reason(analysis, routes, left, right, relation.strict, line)?;
    line.push(b'\n')?;
    Ok(())
}

fn append_side(
    analysis: &Analysis,
    routes: &Routes,
    left: u32,
    right: u32,
    side: Side,
    line: &mut Vec<u8>,
) -> Result<(), AllocError>
    requires routes { IsRoutesOf analysis.now.set (left_point side left) routes.now }
    requires right { right < analysis.now.set.extents }
    ensures { OnOk result (line.new.items ≡ line.old.items
        ++ flat_map (spec.relation_line analysis.now.set.list) (relation_at analysis.now.set.list left right side)) }
{
    let strict = match analysis.between(side.left(left), side.right(right)) {
        Reach::None => return Ok(()),
        Reach::Le => false,
        Reach::Lt => true,
    };
    let relation = Relation {
        left,
        right,
        side,
        strict,
    };
    append_relation(analysis, routes, relation, line)
}

// The lines of the relations of two periods, side by side.
fn append_pair(analysis: &Analysis, row: &Row, b: u32, line: &mut Vec<u8>) -> Result<(), AllocError>
    requires start { IsRoutesOf analysis.now.set (Start row.now.period) row.now.from_start }
    requires end { IsRoutesOf analysis.now.set (End row.now.period) row.now.from_end }
    requires right { b < analysis.now.set.extents }
    ensures { OnOk result (line.new.items ≡ line.old.items ++ spec.pair_text analysis.now.set.list row.now.period b) }
{
    let a = row.period;
    if a == b {
        return Ok(());
    }
    append_side(analysis, &row.from_start, a, b, Side::StartEnd, line)?;
    append_side(analysis, &row.from_start, a, b, Side::StartStart, line)?;
    append_side(analysis, &row.from_end, a, b, Side::EndStart, line)?;
    append_side(analysis, &row.from_end, a, b, Side::EndEnd, line)
}

fn print_pair<W: Sink>(
    analysis: &Analysis,
    row: &Row,
    b: u32,
    line: &mut Vec<u8>,
    out: &mut W,
) -> Result<(), PrintFault>
    requires start { IsRoutesOf analysis.now.set (Start row.now.period) row.now.from_start }
    requires end { IsRoutesOf analysis.now.set (End row.now.period) row.now.from_end }
    requires right { b < analysis.now.set.extents }
    ensures { Prints W.written W.faults W.sure out.old out.new (spec.pair_text analysis.now.set.list row.now.period b) result }
{
    line.clear();
    let Ok(()) = append_pair(analysis, row, b, line) else {
        return Err(PrintFault::Memory);
    };
    print_text(out, line.as_slice())
}

fn print_row<W: Sink>(
    analysis: &Analysis,
    row: &Row,
    line: &mut Vec<u8>,
    out: &mut W,
) -> Result<(), PrintFault>
    requires start { IsRoutesOf analysis.now.set (Start row.now.period) row.now.from_start }
    requires end { IsRoutesOf analysis.now.set (End row.now.period) row.now.from_end }
    ensures { Prints W.written W.faults W.sure out.old out.new (spec.row_text analysis.now.set.list analysis.now.periods row.now.period) result }
{
    for i in 0..analysis.len() {
        let Some(b) = analysis.period(i) else {
            unreachable!()
        };
        print_pair(analysis, row, b, line, out)?;
    }
    Ok(())
}

fn print_period<W: Sink>(
    analysis: &Analysis,
    a: u32,
    line: &mut Vec<u8>,
    out: &mut W,
) -> Result<(), PrintFault>
    requires { a < analysis.now.set.extents }
    ensures { Prints W.written W.faults W.sure out.old out.new (spec.row_text analysis.now.set.list analysis.now.periods a) result }
{
    let Ok(from_start) = analysis.routes(Point::Start(a)) else {
        return Err(PrintFault::Memory);
    };
    let Ok(from_end) = analysis.routes(Point::End(a)) else {
        return Err(PrintFault::Memory);
    };
    let row = Row {
        period: a,
        from_start,
        from_end,
    };
    print_row(analysis, &row, line, out)
}

/// Prints the lines of all relations that follow, by the numbers of the left and then of the right period.
/// `line` is a buffer that is written over.
pub fn print_relations<W: Sink>(
    analysis: &Analysis,
    line: &mut Vec<u8>,
    out: &mut W,
) -> Result<(), PrintFault>
    ensures { Prints W.written W.faults W.sure out.old out.new (flat_map (spec.row_text analysis.now.set.list analysis.now.periods) analysis.now.periods) result }
{
    for i in 0..analysis.len() {
        let Some(a) = analysis.period(i) else {
            unreachable!()
        };
        print_period(analysis, a, line, out)?;
    }
    Ok(())
}
