// The lines of the placings that delay the boundaries of periods.
ghost use Rattle.std.specs.Prelude.{◌≡◌, ◌++◌, ◌<◌, length, OnOk};
ghost use Rattle.std.specs.List.{flat_map};
ghost use Rattle.order_laws.specs.Tables.{IsPoint};
ghost use Rattle.crm_outside.specs.Printing.{Prints};
ghost use Rattle.order_texts.specs.Texts.{point_text, placing_line};
ghost use Rattle.reason_report.specs.Reason as spec;

use crm_outside::{PrintFault, Sink, print_text};
use order_analysis::Analysis;
use order_core::{Placing, Point};
use order_texts::{append_placing, append_point};
use placing_witness::Placings;
use std::alloc::{AllocError, Global};

/// Appends the line of a placing under the name of the boundary that it delays.
pub fn append_delaying(
    alloc: Global,
    x: Point,
    placing: &Placing,
    line: &mut Vec<u8>,
) -> Result<(), AllocError>
    ensures { OnOk result (line.new.items ≡ line.old.items ++ placing_line (point_text x) placing.now) }
{
    let mut name = Vec::new(alloc);
    append_point(x, &mut name)?;
    append_placing(&name, placing, line)
}

// Appends the line of the placing that delays the boundary.
fn append_delay(
    alloc: Global,
    placings: &Placings,
    x: Point,
    line: &mut Vec<u8>,
) -> Result<(), AllocError>
    requires { IsPoint placings.now.extents (length placings.now.dates) x }
    ensures { OnOk result (line.new.items ≡ line.old.items ++ spec.delay_line placings.now x) }
{
    let placing = placings.delaying(alloc, x)?;
    append_delaying(alloc, x, &placing, line)
}

fn append_both(
    alloc: Global,
    placings: &Placings,
    k: u32,
    line: &mut Vec<u8>,
) -> Result<(), AllocError>
    requires { k < placings.now.extents }
    ensures { OnOk result (line.new.items ≡ line.old.items ++ spec.delay_lines placings.now k) }
{
    append_delay(alloc, placings, Point::Start(k), line)?;
    append_delay(alloc, placings, Point::End(k), line)
}

fn print_both<W: Sink>(
    alloc: Global,
    placings: &Placings,
    k: u32,
    line: &mut Vec<u8>,
    out: &mut W,
) -> Result<(), PrintFault>
    requires { k < placings.now.extents }
    ensures { Prints W.written W.faults W.sure out.old out.new (spec.delay_lines placings.now k) result }
{
    line.clear();
    let Ok(()) = append_both(alloc, placings, k, line) else {
        return Err(PrintFault::Memory);
    };
    print_text(out, line.as_slice())
}

/// Prints the two delaying placings of each period. `line` is a buffer that is written over.
pub fn print_delays<W: Sink>(
    analysis: &Analysis,
    placings: &Placings,
    line: &mut Vec<u8>,
    out: &mut W,
) -> Result<(), PrintFault>
    requires { placings.now ≡ analysis.now.set }
    ensures { Prints W.written W.faults W.sure out.old out.new (flat_map (spec.delay_lines placings.now) analysis.now.periods) result }
{
    for i in 0..analysis.len() {
        let Some(k) = analysis.period(i) else {
            unreachable!()
        };
        print_both(analysis.alloc(), placings, k, line, out)?;
    }
    Ok(())
}
