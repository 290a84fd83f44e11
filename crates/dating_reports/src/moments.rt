// The lines of the periods at an instant.
ghost use Rattle.std.specs.Prelude.{◌≡◌, ◌++◌, ◌+◌, ◌<◌, ◌^◌, length, OnOk};
ghost use Rattle.order_core.specs.Sets.{AreExtents};
ghost use Rattle.crm_outside.specs.Printing.{Prints, lines_from};
ghost use Rattle.dating_reports.specs.When as spec;

use crm_outside::{Numbers, PrintFault, Sink, print_text};
use dating_bounds::{During, Shares, at_date};
use itoa::Buffer;
use order_closure::Closure;
use order_core::{OrderSet, Placing};
use order_texts::append_placing;
use std::alloc::{AllocError, Global};

#[tactic(auto, unfolding(crate::specs::When::word_line))]
fn append_word(word: &str, k: u32, line: &mut Vec<u8>) -> Result<(), AllocError>
    ensures { OnOk result (line.new.items ≡ line.old.items ++ spec.word_line word.now k) }
{
    line.extend_from_slice(word.as_bytes())?;
    line.extend_from_slice(b" x")?;
    line.extend_from_slice(Buffer::new().format(k).as_bytes())?;
    line.push(b'\n')?;
    Ok(())
}

fn append_maybe(
    k: u32,
    inside: &Placing,
    outside: &Placing,
    line: &mut Vec<u8>,
) -> Result<(), AllocError>
    ensures { OnOk result (line.new.items ≡ line.old.items ++ spec.maybe_lines k inside.now outside.now) }
{
    append_word("maybe", k, line)?;
    append_placing(b"in", inside, line)?;
    append_placing(b"out", outside, line)
}

fn append_during(k: u32, during: &During, line: &mut Vec<u8>) -> Result<(), AllocError>
    ensures { OnOk result (line.new.items ≡ line.old.items ++ spec.during_lines k during.now) }
{
    match during {
        During::Surely => append_word("surely", k, line),
        During::Never => append_word("never", k, line),
        During::Maybe { inside, outside } => append_maybe(k, inside, outside, line),
    }
}

// Appends the instant, in nanoseconds.
#[tactic(auto, unfolding(crate::specs::When::instant_line))]
fn append_instant(t: i128, line: &mut Vec<u8>) -> Result<(), AllocError>
    ensures { OnOk result (line.new.items ≡ line.old.items ++ spec.instant_line t) }
{
    line.extend_from_slice(b"instant ")?;
    line.extend_from_slice(Buffer::new().format(t).as_bytes())?;
    line.push(b'\n')?;
    Ok(())
}

/// Prints the instant. `line` is a buffer that is written over.
pub fn print_instant<W: Sink>(t: i128, line: &mut Vec<u8>, out: &mut W) -> Result<(), PrintFault>
    ensures { Prints W.written W.faults W.sure out.old out.new (spec.instant_line t) result }
{
    line.clear();
    let Ok(()) = append_instant(t, line) else {
        return Err(PrintFault::Memory);
    };
    print_text(out, line.as_slice())
}

fn append_moment(
    alloc: Global,
    shares: &Shares,
    date: u32,
    k: u32,
    line: &mut Vec<u8>,
) -> Result<(), AllocError>
    requires date { date < length shares.now.dates }
    requires extent { k < shares.now.extents }
    ensures { OnOk result (line.new.items ≡ line.old.items ++ spec.moment_lines shares.now date k) }
{
    let during = at_date(alloc, shares, date, k)?;
    append_during(k, &during, line)
}

/// An instant, with a set of orders that has it among its dates, the closure of the set and the number of the date.
#[derive(Drop)]
pub struct Moment<'a> {
    pub set: &'a OrderSet,
    pub closure: &'a Closure,
    pub date: u32,
    pub instant: i128,
}

fn print_moment<W: Sink>(
    alloc: Global,
    shares: &Shares,
    date: u32,
    k: u32,
    line: &mut Vec<u8>,
    out: &mut W,
) -> Result<(), PrintFault>
    requires date { date < length shares.now.dates }
    requires extent { k < shares.now.extents }
    ensures { Prints W.written W.faults W.sure out.old out.new (spec.moment_lines shares.now date k) result }
{
    line.clear();
    let Ok(()) = append_moment(alloc, shares, date, k, line) else {
        return Err(PrintFault::Memory);
    };
    print_text(out, line.as_slice())
}

/// Prints which of the periods are under way at a date. `line` is a buffer that is written over.
pub fn print_moments<W: Sink>(
    alloc: Global,
    shares: &Shares,
    date: u32,
    periods: &Numbers,
    line: &mut Vec<u8>,
    out: &mut W,
) -> Result<(), PrintFault>
    requires date { date < length shares.now.dates }
    requires periods { AreExtents shares.now.extents periods.now }
    ensures { Prints W.written W.faults W.sure out.old out.new (lines_from (λ _ k. spec.moment_lines shares.now date k) 0 periods.now) result }
{
    for i in 0..periods.len() {
        let Some(k) = periods.get(i) else {
            unreachable!()
        };
        print_moment(alloc, shares, date, *k, line, out)?;
    }
    Ok(())
}
