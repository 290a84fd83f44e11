// Lines printed to a sink.
ghost use Rattle.crm_outside.specs.Printing.{Prints, lines_from};
ghost use Rattle.order_texts.specs.Texts as spec;

use crate::lines::{append_count, append_date, append_order, append_placing};
use crm_outside::{PrintFault, Sink, print_text};
use order_core::{Dates, Order, OrderList, Placing};
use std::alloc::Global;

/// Prints a word and a number on a line. `line` is a buffer that is written over.
pub fn print_count<W: Sink>(
    word: &str,
    n: u64,
    line: &mut Vec<u8>,
    out: &mut W,
) -> Result<(), PrintFault>
    ensures { Prints W.written W.faults W.sure out.old out.new (spec.count_line word.now n) result }
{
    line.clear();
    let Ok(()) = append_count(word, n, line) else {
        return Err(PrintFault::Memory);
    };
    print_text(out, line.as_slice())
}

fn print_order<W: Sink>(
    n: usize,
    order: &Order,
    line: &mut Vec<u8>,
    out: &mut W,
) -> Result<(), PrintFault>
    ensures { Prints W.written W.faults W.sure out.old out.new (spec.order_line n order.now) result }
{
    line.clear();
    let Ok(()) = append_order(n, order, line) else {
        return Err(PrintFault::Memory);
    };
    print_text(out, line.as_slice())
}

fn print_order_lines<W: Sink>(
    orders: &OrderList,
    line: &mut Vec<u8>,
    out: &mut W,
) -> Result<(), PrintFault>
    ensures { Prints W.written W.faults W.sure out.old out.new (lines_from spec.order_line 0 orders.now) result }
{
    for k in 0..orders.len() {
        let Some(order) = orders.get(k) else {
            unreachable!()
        };
        print_order(k, order, line, out)?;
    }
    Ok(())
}

/// Prints `orders N` and the line of each order.
pub fn print_orders<W: Sink>(
    alloc: Global,
    orders: &OrderList,
    out: &mut W,
) -> Result<(), PrintFault>
    ensures { Prints W.written W.faults W.sure out.old out.new (spec.orders_text orders.now) result }
{
    let mut line = Vec::new(alloc);
    print_count("orders", orders.len() as u64, &mut line, out)?;
    print_order_lines(orders, &mut line, out)
}

fn print_date<W: Sink>(
    k: usize,
    instant: &i128,
    line: &mut Vec<u8>,
    out: &mut W,
) -> Result<(), PrintFault>
    ensures { Prints W.written W.faults W.sure out.old out.new (spec.date_line k instant.now) result }
{
    line.clear();
    let Ok(()) = append_date(k, *instant, line) else {
        return Err(PrintFault::Memory);
    };
    print_text(out, line.as_slice())
}

fn print_date_lines<W: Sink>(
    dates: &Dates,
    line: &mut Vec<u8>,
    out: &mut W,
) -> Result<(), PrintFault>
    ensures { Prints W.written W.faults W.sure out.old out.new (lines_from spec.date_line 0 dates.now) result }
{
    for k in 0..dates.len() {
        let Some(instant) = dates.get(k) else {
            unreachable!()
        };
        print_date(k, instant, line, out)?;
    }
    Ok(())
}

/// Prints `dates N` and the line of each date.
pub fn print_dates<W: Sink>(alloc: Global, dates: &Dates, out: &mut W) -> Result<(), PrintFault>
    ensures { Prints W.written W.faults W.sure out.old out.new (spec.dates_text dates.now) result }
{
    let mut line = Vec::new(alloc);
    print_count("dates", dates.len() as u64, &mut line, out)?;
    print_date_lines(dates, &mut line, out)
}

/// Prints the line of a placing with its name. `line` is a buffer that is written over.
pub fn print_placing<W: Sink>(
    name: &[u8],
    placing: &Placing,
    line: &mut Vec<u8>,
    out: &mut W,
) -> Result<(), PrintFault>
    ensures { Prints W.written W.faults W.sure out.old out.new (spec.placing_line name.now placing.now) result }
{
    line.clear();
    let Ok(()) = append_placing(name, placing, line) else {
        return Err(PrintFault::Memory);
    };
    print_text(out, line.as_slice())
}
