// The lines of triples.
ghost use Rattle.crm_outside.specs.Printing.{Prints, lines_from};
ghost use Rattle.ntriples_writer.specs.Lines.{canonical_line};
ghost use Rattle.record_reports.specs.RecordReports as spec;

use crm_outside::{PrintFault, Sink};
use ntriples_writer::print_triple;
use rdf_terms::{Names, Triples};
use std::alloc::Global;

/// Prints the canonical line of each triple.
pub(crate) fn print_triples<W: Sink>(
    alloc: Global,
    names: &Names,
    triples: &Triples,
    out: &mut W,
) -> Result<(), PrintFault>
    ensures { Prints W.written W.faults W.sure out.old out.new (spec.convert_text names.now triples.now) result }
{
    let mut line = Vec::new(alloc);
    for k in 0..triples.len() {
        let Some(triple) = triples.get(k) else {
            unreachable!()
        };
        print_triple(names, triple, &mut line, out)?;
    }
    Ok(())
}
