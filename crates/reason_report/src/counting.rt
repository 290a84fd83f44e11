// How many primitives are listed.
ghost use Rattle.std.specs.Prelude.{◌≡◌, ◌≤◌, ◌<◌, ◌^◌};
ghost use Rattle.reason_report.specs.Relations as spec;

use order_analysis::Analysis;
use order_closure::Reach;
use order_core::Side;

fn count_side(analysis: &Analysis, a: u32, b: u32, side: Side) -> u64
    requires left { a < analysis.now.set.extents }
    requires right { b < analysis.now.set.extents }
    ensures count { result ≡ spec.count_primitives (spec.relation_at analysis.now.set.list a b side) }
    ensures few { result ≤ 2 }
{
    match analysis.between(side.left(a), side.right(b)) {
        Reach::None => 0,
        Reach::Le => 1,
        Reach::Lt => 2,
    }
}

fn count_pair(analysis: &Analysis, a: u32, b: u32) -> u64
    requires left { a < analysis.now.set.extents }
    requires right { b < analysis.now.set.extents }
    ensures count { result ≡ spec.count_primitives (spec.relations_between analysis.now.set.list a b) }
    ensures few { result ≤ 8 }
{
    if a == b {
        return 0;
    }
    count_side(analysis, a, b, Side::StartEnd)
        + (count_side(analysis, a, b, Side::StartStart)
            + (count_side(analysis, a, b, Side::EndStart)
                + count_side(analysis, a, b, Side::EndEnd)))
}

fn count_row(analysis: &Analysis, a: u32) -> u64
    requires left { a < analysis.now.set.extents }
    ensures count { result ≡ spec.count_primitives (spec.relations_from analysis.now.set.list analysis.now.periods a) }
    ensures few { result ≤ 2 ^ 23 }
{
    let mut count = 0;
    for i in 0..analysis.len() {
        let Some(b) = analysis.period(i) else {
            unreachable!()
        };
        count += count_pair(analysis, a, b);
    }
    count
}

/// How many primitives are listed between any two of the periods.
pub fn count_relations(analysis: &Analysis) -> u64
    ensures { result ≡ spec.count_primitives (spec.relations_of analysis.now.set.list analysis.now.periods) }
{
    let mut count = 0;
    for i in 0..analysis.len() {
        let Some(a) = analysis.period(i) else {
            unreachable!()
        };
        count += count_row(analysis, a);
    }
    count
}
