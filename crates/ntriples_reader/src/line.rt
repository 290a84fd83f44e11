// One line, a token at a time.
ghost use Rattle.std.specs.Prelude.{◌≡◌, [], None, OnOk, IfOk, true, false, map, string_bytes};
ghost use Rattle.std.specs.Char.{to_ascii_lowercase};
ghost use lib.Utf8.{encodes};
ghost use Rattle.ntriples_reader.specs.Lines as spec;
ghost use Rattle.ntriples_reader.specs.Values as values;

use iri_resolve::has_scheme;
use ntriples_tokens::Kind;
use rdf_reading::{behind, inside, put_chars, put_unescaped};
use rdf_terms::Code;
use rdf_vocabulary::{rdf_lang_string, xsd_string};
use std::alloc::{AllocError, Global};
use std::marker::Model;

/// What was read of a line.
#[derive(Clone, Copy)]
pub enum Expect {
    /// Nothing.
    Start,
    /// The subject.
    Subject,
    /// And the predicate.
    Predicate,
    /// And a string.
    Quoted,
    /// And the carets before its datatype.
    Typed,
    /// And the whole object.
    Object,
    /// And the full stop.
    End,
}

/// What a subject or an object is.
#[derive(Clone, Copy)]
pub enum Sort {
    Iri,
    Blank,
    Literal,
}

impl Expect {
    fn next(self, kind: Kind) -> Option<Expect>
        ensures { result ≡ spec.next self kind }
    {
        match (self, kind) {
            (Expect::Start, Kind::IriRef | Kind::Blank) => Some(Expect::Subject),
            (Expect::Start | Expect::End, Kind::Eol) => Some(Expect::Start),
            (Expect::Subject, Kind::IriRef) => Some(Expect::Predicate),
            (Expect::Predicate, Kind::IriRef | Kind::Blank) => Some(Expect::Object),
            (Expect::Predicate, Kind::Str) => Some(Expect::Quoted),
            (Expect::Quoted, Kind::AtWord) => Some(Expect::Object),
            (Expect::Quoted, Kind::Carets) => Some(Expect::Typed),
            (Expect::Typed, Kind::IriRef) => Some(Expect::Object),
            (Expect::Quoted | Expect::Object, Kind::Dot) => Some(Expect::End),
            _ => None,
        }
    }

    fn is_between(self) -> bool
        ensures { result ≡ spec.is_between self }
    {
        matches!(self, Expect::Start | Expect::End)
    }
}

fn put_lowercase(chars: &[char], out: &mut String) -> Result<(), AllocError>
    ensures { OnOk result (string_bytes out.new ≡ encodes (map to_ascii_lowercase chars.now)) }
{
    out.clear();
    for c in chars {
        out.push(c.to_ascii_lowercase())?;
    }
    Ok(())
}

// Puts the value of an IRI into `out`, and says why it is refused, if it is.
fn put_iri(chars: &[char], out: &mut String) -> Result<Option<Code>, AllocError>
    ensures text { OnOk result (string_bytes out.new ≡ values.value_text chars.now) }
    ensures code { IfOk result (λ code. code ≡ spec.iri_code chars.now) }
{
    if put_unescaped(inside(chars, 1), out)? {
        return Ok(Some(Code::G6));
    }
    if has_scheme(out.as_str()) {
        Ok(None)
    } else {
        Ok(Some(Code::G5))
    }
}

/// What was read of a line.
#[derive(Drop)]
pub struct Line {
    expect: Expect,
    subject_sort: Sort,
    subject: String,
    predicate: String,
    object_sort: Sort,
    object: String,
    datatype: String,
    tag: String,
    at: u64,
}

impl Model for Line {
    ghost use Rattle.std.specs.Prelude.{string_bytes};
    ghost use Rattle.ntriples_reader.specs.Lines.{LineState};

    ghost Value = { LineState };

    ghost view = { λ l. record { expect = l.expect; subject_sort = l.subject_sort; subject = string_bytes l.subject; predicate = string_bytes l.predicate; object_sort = l.object_sort; object = string_bytes l.object; datatype = string_bytes l.datatype; tag = string_bytes l.tag; at = l.at } };
}

impl Line {
    /// Nothing of a line.
    pub fn new(alloc: Global) -> Line
        ensures { result ≡ spec.no_line }
    {
        Line {
            expect: Expect::Start,
            subject_sort: Sort::Iri,
            subject: String::new(alloc),
            predicate: String::new(alloc),
            object_sort: Sort::Iri,
            object: String::new(alloc),
            datatype: String::new(alloc),
            tag: String::new(alloc),
            at: 0,
        }
    }

    /// Whether no line is begun, or one is whole.
    pub fn is_between(&self) -> bool
        ensures { result ≡ spec.is_between self.now.expect }
    {
        self.expect.is_between()
    }

    // Keeps an IRI, and says why it is refused, if it is.
    fn keep_iri(&mut self, chars: &[char], at: u64) -> Result<Option<Code>, AllocError>
        ensures code { IfOk result (λ code. code ≡ spec.iri_code chars.now) }
        ensures line { OnOk result (self.new ≡ spec.with_iri self.old.expect self.old (values.value_text chars.now) at) }
    {
        match self.expect {
            Expect::Start => {
                self.subject_sort = Sort::Iri;
                put_iri(chars, &mut self.subject)
            }
            Expect::Subject => put_iri(chars, &mut self.predicate),
            Expect::Predicate => {
                self.object_sort = Sort::Iri;
                self.at = at;
                put_iri(chars, &mut self.object)
            }
            _ => put_iri(chars, &mut self.datatype),
        }
    }

    fn keep_blank(&mut self, chars: &[char], at: u64) -> Result<(), AllocError>
        ensures { OnOk result (self.new ≡ spec.with_blank self.old.expect self.old (values.label_text chars.now) at) }
    {
        match self.expect {
            Expect::Start => {
                self.subject_sort = Sort::Blank;
                put_chars(behind(chars, 2), &mut self.subject)
            }
            _ => {
                self.object_sort = Sort::Blank;
                self.at = at;
                put_chars(behind(chars, 2), &mut self.object)
            }
        }
    }

    fn keep_string(&mut self, chars: &[char], at: u64) -> Result<(), AllocError>
        ensures { OnOk result (self.new ≡ spec.with_token Kind.Str self.old chars.now at) }
    {
        self.object_sort = Sort::Literal;
        self.at = at;
        self.tag.clear();
        self.datatype.clear();
        self.datatype.push_str(xsd_string())?;
        put_unescaped(inside(chars, 1), &mut self.object)?;
        Ok(())
    }

    fn keep_tag(&mut self, chars: &[char]) -> Result<(), AllocError>
        ensures { OnOk result (self.new ≡ spec.with_token Kind.AtWord self.old chars.now 0) }
    {
        self.datatype.clear();
        self.datatype.push_str(rdf_lang_string())?;
        put_lowercase(behind(chars, 1), &mut self.tag)
    }

    /// Takes a token at a byte offset, or says why it is refused.
    pub fn take(&mut self, kind: Kind, chars: &[char], at: u64) -> Result<Option<Code>, AllocError>
        ensures code { IfOk result (λ code. code ≡ spec.code_at self.old kind chars.now) }
        ensures line { OnOk result (spec.code_at self.old kind chars.now ≡ None → self.new ≡ spec.line_after self.old kind chars.now at) }
    {
        let Some(expect) = self.expect.next(kind) else {
            return Ok(Some(Code::G2));
        };
        match kind {
            Kind::IriRef => {
                if let Some(code) = self.keep_iri(chars, at)? {
                    return Ok(Some(code));
                }
            }
            Kind::Blank => self.keep_blank(chars, at)?,
            Kind::Str => self.keep_string(chars, at)?,
            Kind::AtWord => self.keep_tag(chars)?,
            _ => {}
        }
        self.expect = expect;
        Ok(None)
    }

    pub(crate) fn subject_sort(&self) -> Sort
        ensures { result ≡ self.now.subject_sort }
    {
        self.subject_sort
    }

    pub(crate) fn subject(&self) -> &str
        ensures { result.now ≡ self.now.subject }
    {
        self.subject.as_str()
    }

    pub(crate) fn predicate(&self) -> &str
        ensures { result.now ≡ self.now.predicate }
    {
        self.predicate.as_str()
    }

    pub(crate) fn object_sort(&self) -> Sort
        ensures { result ≡ self.now.object_sort }
    {
        self.object_sort
    }

    pub(crate) fn object(&self) -> &str
        ensures { result.now ≡ self.now.object }
    {
        self.object.as_str()
    }

    pub(crate) fn datatype(&self) -> &str
        ensures { result.now ≡ self.now.datatype }
    {
        self.datatype.as_str()
    }

    pub(crate) fn tag(&self) -> &str
        ensures { result.now ≡ self.now.tag }
    {
        self.tag.as_str()
    }

    pub(crate) fn at(&self) -> u64
        ensures { result ≡ self.now.at }
    {
        self.at
    }
}
