// The line of a triple.
ghost use Rattle.std.specs.Prelude.{◌≡◌, ◌++◌, ◌≤◌, ◌<◌, ℕ, true, length, drop, take, IfOk, OnOk};
ghost use Rattle.std.specs.Str.{IsUtf8};
ghost use Rattle.crm_outside.specs.Printing.{Prints};
ghost use Rattle.ntriples_writer.specs.Lines as spec;
ghost use Rattle.ntriples_writer.specs.Lines.{canonical_line};

use crm_outside::{PrintFault, Sink, Text, print_text};
use itoa::Buffer;
use rdf_terms::{Literal, Names, Term, Triple};
use rdf_vocabulary::xsd_string;
use std::alloc::{AllocError, Global};

/// Why a line was not written whole: `Failed` where a call on the sink failed, `Memory` where memory was wanting.
pub type WriteRefusal = PrintFault;

fn escape_letter(byte: u8) -> Option<u8>
    ensures { result ≡ spec.escape_letter byte }
{
    match byte {
        b'"' | b'\\' => Some(byte),
        b'\n' => Some(b'n'),
        b'\r' => Some(b'r'),
        _ => None,
    }
}

// The text with its escapes; what needs none is copied in runs.
fn append_escaped(text: &[u8], out: &mut Vec<u8>) -> Result<(), AllocError>
    ensures { OnOk result (out.new.items ≡ out.old.items ++ spec.escaped text.now) }
{
    let mut start = 0;
    for (i, byte) in text.iter().enumerate() {
        if let Some(letter) = escape_letter(*byte) {
            out.extend_from_slice(&text[start..i])?;
            out.push(b'\\')?;
            out.push(letter)?;
            start = i + 1;
        }
    }
    out.extend_from_slice(&text[start..])
}

fn append_iri(iri: &str, out: &mut Vec<u8>) -> Result<(), AllocError>
    ensures appended { OnOk result (out.new.items ≡ out.old.items ++ spec.iri_text iri.now) }
    ensures utf8 { OnOk result (IsUtf8 (spec.iri_text iri.now)) }
{
    out.push(b'<')?;
    out.extend_from_slice(iri.as_bytes())?;
    out.extend_from_slice(b">")
}

fn is_xsd_string(datatype: &str) -> bool
    ensures { result ≡ spec.is_xsd_string datatype.now }
{
    datatype == xsd_string()
}

fn append_datatype(datatype: &str, out: &mut Vec<u8>) -> Result<(), AllocError>
    ensures appended { OnOk result (out.new.items ≡ out.old.items ++ spec.datatype_text datatype.now) }
    ensures utf8 { OnOk result (IsUtf8 (spec.datatype_text datatype.now)) }
{
    if is_xsd_string(datatype) {
        return Ok(());
    }
    out.extend_from_slice(b"^^")?;
    append_iri(datatype, out)
}

// The tag, or the datatype where there is none.
fn append_ending(literal: &Literal, out: &mut Vec<u8>) -> Result<(), AllocError>
    ensures appended { OnOk result (out.new.items ≡ out.old.items ++ spec.ending_text literal.now) }
    ensures utf8 { OnOk result (IsUtf8 (spec.ending_text literal.now)) }
{
    let tag = literal.tag.as_str();
    if tag.is_empty() {
        return append_datatype(literal.datatype.as_str(), out);
    }
    out.push(b'@')?;
    out.extend_from_slice(tag.as_bytes())
}

fn append_literal(literal: &Literal, out: &mut Vec<u8>) -> Result<(), AllocError>
    ensures appended { OnOk result (out.new.items ≡ out.old.items ++ spec.literal_text literal.now) }
    ensures utf8 { OnOk result (IsUtf8 (spec.literal_text literal.now)) }
{
    out.push(b'"')?;
    append_escaped(literal.lexical.as_str().as_bytes(), out)?;
    out.push(b'"')?;
    append_ending(literal, out)
}

/// Appends a term as a line has it: an IRI in brackets, `_:b` and the number of a blank node, or a literal.
///
/// Of a number that no name has, an IRI is an empty one, and a literal is nothing.
pub fn append_term(names: &Names, term: Term, out: &mut Vec<u8>) -> Result<(), AllocError>
    ensures appended { OnOk result (out.new.items ≡ out.old.items ++ spec.term_text names.now term) }
    ensures utf8 { OnOk result (IsUtf8 (spec.term_text names.now term)) }
{
    match term {
        Term::Iri(n) => match names.get_iri(n) {
            Some(iri) => append_iri(iri, out),
            None => append_iri("", out),
        },
        Term::Blank(n) => {
            out.extend_from_slice(b"_:b")?;
            out.extend_from_slice(Buffer::new().format(n).as_bytes())
        }
        Term::Lit(n) => match names.get_literal(n) {
            Some(literal) => append_literal(literal, out),
            None => Ok(()),
        },
    }
}

#[tactic(auto, unfolding(crate::specs::Lines::canonical_line))]
fn append_line(names: &Names, t: Triple, line: &mut Vec<u8>) -> Result<(), AllocError>
    ensures appended { OnOk result (line.new.items ≡ line.old.items ++ canonical_line names.now t) }
    ensures utf8 { OnOk result (IsUtf8 (canonical_line names.now t)) }
{
    append_term(names, t.s, line)?;
    line.push(b' ')?;
    append_term(names, t.p, line)?;
    line.push(b' ')?;
    append_term(names, t.o, line)?;
    line.extend_from_slice(b" .\n")?;
    Ok(())
}

/// Appends the canonical line of a triple, with its line feed. `line` is a buffer that is written over.
///
/// At an error a front of the line is appended; `Failed` comes only where a call on the sink failed.
pub fn print_triple<W: Sink>(
    names: &Names,
    t: Triple,
    line: &mut Vec<u8>,
    out: &mut W,
) -> Result<(), WriteRefusal>
    ensures { Prints W.written W.faults W.sure out.old out.new (canonical_line names.now t) result }
{
    line.clear();
    let Ok(()) = append_line(names, t, line) else {
        return Err(PrintFault::Memory);
    };
    print_text(out, line.as_slice())
}

/// Appends the canonical line of a triple, with its line feed, as `print_triple` does with a buffer of its own.
pub fn write_triple<W: Sink>(
    alloc: Global,
    names: &Names,
    t: Triple,
    out: &mut W,
) -> Result<(), WriteRefusal>
    ensures { Prints W.written W.faults W.sure out.old out.new (canonical_line names.now t) result }
{
    print_triple(names, t, &mut Vec::new(alloc), out)
}

/// The canonical line of a triple, with its line feed.
pub fn text_of(alloc: Global, names: &Names, t: Triple) -> Result<Text, AllocError>
    ensures { IfOk result (λ text. text ≡ canonical_line names.now t) }
{
    let mut line = Vec::new(alloc);
    append_line(names, t, &mut line)?;
    Text::from_str(alloc, str::from_utf8(line.as_slice()).unwrap())
}
