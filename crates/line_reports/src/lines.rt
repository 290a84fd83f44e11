// The triples with their lines and columns.
ghost use Rattle.std.specs.Prelude.{◌≡◌, ◌++◌, OnOk};
ghost use Rattle.std.specs.Fmt.{decimal};
ghost use Rattle.crm_outside.specs.Printing.{Prints};
ghost use Rattle.report_base.specs.Reports.{Writes};
ghost use Rattle.line_reports.specs.Lines as spec;
ghost use Rattle.ntriples_writer.specs.Lines.{canonical_line};

use crm_outside::{PrintFault, Sink, print_text};
use itoa::Buffer;
use ntriples_writer::append_term;
use rdf_terms::{Names, Records, Triple, Triples};
use report_base::{ReportFault, Status};
use std::alloc::{AllocError, Global};
use text_places::{Place, Places};

fn append_number(n: u64, line: &mut Vec<u8>) -> Result<(), AllocError>
    ensures { OnOk result (line.new.items ≡ line.old.items ++ decimal n) }
{
    line.extend_from_slice(Buffer::new().format(n).as_bytes())
}

#[tactic(auto, unfolding(crate::specs::Lines::head_text))]
fn append_head(number: u32, place: Place, line: &mut Vec<u8>) -> Result<(), AllocError>
    ensures { OnOk result (line.new.items ≡ line.old.items ++ spec.head_text number place) }
{
    line.push(b't')?;
    append_number(number as u64, line)?;
    line.push(b' ')?;
    append_number(place.line, line)?;
    line.push(b' ')?;
    append_number(place.column, line)?;
    line.push(b' ')?;
    Ok(())
}

#[tactic(auto, unfolding(ntriples_writer::specs::Lines::canonical_line))]
fn append_triple(names: &Names, t: Triple, line: &mut Vec<u8>) -> Result<(), AllocError>
    ensures { OnOk result (line.new.items ≡ line.old.items ++ canonical_line names.now t) }
{
    append_term(names, t.s, line)?;
    line.push(b' ')?;
    append_term(names, t.p, line)?;
    line.push(b' ')?;
    append_term(names, t.o, line)?;
    line.extend_from_slice(b" .\n")?;
    Ok(())
}

#[tactic(auto, unfolding(crate::specs::Lines::placed_line))]
fn append_line(
    names: &Names,
    number: u32,
    triple: Triple,
    place: Place,
    line: &mut Vec<u8>,
) -> Result<(), AllocError>
    ensures { OnOk result (line.new.items ≡ line.old.items ++ spec.placed_line names.now number triple place) }
{
    append_head(number, place, line)?;
    append_triple(names, triple, line)
}

// Prints the line of a triple. `line` is a buffer that is written over.
fn print_line<W: Sink>(
    names: &Names,
    number: u32,
    triple: Triple,
    places: &mut Places,
    line: &mut Vec<u8>,
    out: &mut W,
) -> Result<(), PrintFault>
    ensures prints { Prints W.written W.faults W.sure out.old out.new (spec.triple_line names.now places.old number triple) result }
    ensures same { places.new ≡ places.old }
{
    let place = places.find(triple.at);
    line.clear();
    let Ok(()) = append_line(names, number, triple, place, line) else {
        return Err(PrintFault::Memory);
    };
    print_text(out, line.as_slice())
}

fn print_lines<W: Sink>(
    alloc: Global,
    names: &Names,
    triples: &Triples,
    bytes: &[u8],
    out: &mut W,
) -> Result<(), PrintFault>
    ensures { Prints W.written W.faults W.sure out.old out.new (spec.lines_text names.now bytes.now triples.now) result }
{
    let mut line = Vec::new(alloc);
    let mut places = Places::new(bytes);
    for k in 0..triples.len() {
        let Some(triple) = triples.get(k) else {
            unreachable!()
        };
        print_line(names, k, triple, &mut places, &mut line, out)?;
    }
    Ok(())
}

/// Prints each triple with the line and the column of its place in the bytes of its file, in document order.
pub fn report_lines<W: Sink>(
    alloc: Global,
    records: &Records,
    bytes: &[u8],
    out: &mut W,
) -> Result<Status, ReportFault>
    ensures { Writes W.written W.faults W.sure out.old out.new (spec.lines_report records.now bytes.now) result }
{
    print_lines(alloc, &records.names, &records.triples, bytes, out)?;
    Ok(Status::Done)
}
