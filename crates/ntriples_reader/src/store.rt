// Names, labels and triples.
ghost use Rattle.std.specs.Prelude.{◌≡◌, IfOk, OnOk};
ghost use Rattle.rdf_reading.specs.Room as room;
ghost use Rattle.ntriples_reader.specs.Storing as spec;
ghost use Rattle.ntriples_reader.specs.Answers as answers;

use crate::labels::Labels;
use crate::line::{Line, Sort};
use crm_outside::Text;
use ntriples_tokens::Kind;
use rdf_reading::{add_triple, iri_term, literal_term};
use rdf_terms::{Code, Literal, Names, Records, Refusal, Term, Triple, Triples};
use std::alloc::{AllocError, Global};

/// The names, labels and triples of the lines so far.
#[derive(Drop)]
pub(crate) struct Store {
    pub names: Names,
    pub labels: Labels,
    pub triples: Triples,
}

/// The store, and the first triple that passed a limit.
#[derive(Drop)]
pub(crate) struct Held {
    pub store: Store,
    pub limit: Option<Refusal>,
}

// The term of a literal, if there is room.
fn literal(
    alloc: Global,
    names: &mut Names,
    text: &str,
    line: &Line,
) -> Result<Option<Term>, AllocError>
    ensures term { IfOk result (λ t. t ≡ room.literal_term names.old (spec.literal_of text.now line.now)) }
    ensures names { OnOk result (names.new ≡ room.literal_names names.old (spec.literal_of text.now line.now)) }
{
    if text.len() > 0xFFFF_FFFF {
        return Err(AllocError);
    }
    let lexical = Text::from_str(alloc, text)?;
    let datatype = Text::from_str(alloc, line.datatype())?;
    let tag = Text::from_str(alloc, line.tag())?;
    let value = Literal {
        lexical,
        datatype,
        tag,
    };
    literal_term(names, value)
}

impl Store {
    fn node(
        &mut self,
        alloc: Global,
        sort: Sort,
        text: &str,
        line: &Line,
    ) -> Result<Option<Term>, AllocError>
        ensures term { IfOk result (λ t. t ≡ spec.node_term self.old sort text.now line.now) }
        ensures store { OnOk result (self.new ≡ spec.node_store self.old sort text.now line.now) }
    {
        match sort {
            Sort::Iri => iri_term(&mut self.names, text),
            Sort::Blank => {
                let n = self.labels.number(text)?;
                Ok(Some(Term::Blank(n)))
            }
            Sort::Literal => literal(alloc, &mut self.names, text, line),
        }
    }
}

// Adds the triple of a line: the code of the limit that it passes, if any.
fn add_line(alloc: Global, store: &mut Store, line: &Line) -> Result<Option<Code>, AllocError>
    ensures code { IfOk result (λ c. c ≡ (spec.with_line store.old line.now).0) }
    ensures store { OnOk result (store.new ≡ (spec.with_line store.old line.now).1) }
{
    let Some(s) = store.node(alloc, line.subject_sort(), line.subject(), line)? else {
        return Ok(Some(Code::L5));
    };
    let Some(p) = iri_term(&mut store.names, line.predicate())? else {
        return Ok(Some(Code::L5));
    };
    let Some(o) = store.node(alloc, line.object_sort(), line.object(), line)? else {
        return Ok(Some(Code::L5));
    };
    let at = line.at();
    if add_triple(&mut store.triples, Triple { s, p, o, at })? {
        Ok(None)
    } else {
        Ok(Some(Code::L4))
    }
}

impl Held {
    pub(crate) fn new(alloc: Global) -> Held
        ensures { result ≡ spec.nothing }
    {
        Held {
            store: Store {
                names: Names::new(alloc),
                labels: Labels::new(alloc),
                triples: Triples::new(alloc),
            },
            limit: None,
        }
    }

    /// Adds the triple of a line, unless a limit was passed.
    pub(crate) fn add(&mut self, alloc: Global, line: &Line) -> Result<(), AllocError>
        ensures { OnOk result (self.new ≡ spec.held_after self.old line.now) }
    {
        if self.limit.is_some() {
            return Ok(());
        }
        if let Some(code) = add_line(alloc, &mut self.store, line)? {
            self.limit = Some(Refusal {
                code,
                at: line.at(),
            });
        }
        Ok(())
    }

    /// Adds the triple of a line behind its full stop.
    pub(crate) fn add_behind(
        &mut self,
        alloc: Global,
        kind: Kind,
        line: &Line,
    ) -> Result<(), AllocError>
        ensures { OnOk result (self.new ≡ answers.held_behind kind line.now self.old) }
    {
        match kind {
            Kind::Dot => self.add(alloc, line),
            _ => Ok(()),
        }
    }

    /// The names and triples.
    pub(crate) fn into_records(self) -> Records
        ensures { result ≡ answers.records_of self.store }
    {
        let store = self.store;
        Records {
            names: store.names,
            triples: store.triples,
        }
    }
}
