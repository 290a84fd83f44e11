// Certificates of classes.
use crate::families::{Family, Ways, family_of};
use certificate_checker::{TypeRow, TypeRows, row_of};
use crm_classes::{ClassId, code_of};
use crm_outside::Numbers;
use indexmap::IndexMap;
use order_certificates::{Drafts, append_name};
use rdf_terms::Term;
use std::alloc::{AllocError, Global};

/// The first triple of a node in each family.
#[derive(Clone, Copy)]
struct Firsts {
    temporal: Option<TypeRow>,
    span: Option<TypeRow>,
    item: Option<TypeRow>,
}

fn or_row(first: Option<TypeRow>, row: TypeRow) -> Option<TypeRow> {
    match first {
        Some(kept) => Some(kept),
        None => Some(row),
    }
}

// The row of the lesser triple.
fn lesser(first: Option<TypeRow>, second: Option<TypeRow>) -> Option<TypeRow> {
    match (first, second) {
        (Some(a), Some(b)) => {
            if a.triple < b.triple {
                Some(a)
            } else {
                Some(b)
            }
        }
        (Some(a), None) => Some(a),
        (None, b) => b,
    }
}

impl Firsts {
    fn none() -> Firsts {
        Firsts {
            temporal: None,
            span: None,
            item: None,
        }
    }

    fn with(self, family: Family, row: TypeRow) -> Firsts {
        let mut firsts = self;
        match family {
            Family::Temporal => firsts.temporal = or_row(self.temporal, row),
            Family::Span => firsts.span = or_row(self.span, row),
            Family::Item => firsts.item = or_row(self.item, row),
        }
        firsts
    }

    // The first triple of the node in another family.
    fn other(self, family: Family) -> Option<TypeRow> {
        match family {
            Family::Temporal => lesser(self.span, self.item),
            Family::Span => lesser(self.temporal, self.item),
            Family::Item => lesser(self.temporal, self.span),
        }
    }
}

/// What a line tells: two types of one subject, and their families.
#[derive(Clone, Copy)]
struct Due {
    first: TypeRow,
    second: TypeRow,
    family: Family,
    other: Family,
}

/// What the lines of a certificate of classes are made from.
#[derive(Drop)]
pub struct Types {
    rows: TypeRows,
    firsts: IndexMap<Term, Firsts>,
    temporal: Ways,
    span: Ways,
    item: Ways,
}

fn note(firsts: &mut IndexMap<Term, Firsts>, row: TypeRow) -> Result<(), AllocError> {
    let Some(family) = family_of(row.class) else {
        return Ok(());
    };
    let known = match firsts.get(&row.subject) {
        Some(known) => *known,
        None => Firsts::none(),
    };
    firsts.insert(row.subject, known.with(family, row))?;
    Ok(())
}

fn note_all(alloc: Global, rows: &[TypeRow]) -> Result<IndexMap<Term, Firsts>, AllocError> {
    let mut firsts = IndexMap::new(alloc);
    for row in rows {
        note(&mut firsts, *row)?;
    }
    Ok(firsts)
}

fn append_leaf(low: ClassId, high: ClassId, line: &mut Vec<u8>) -> Result<(), AllocError> {
    line.extend_from_slice(code_of(low).as_bytes())?;
    line.push(b'.')?;
    line.extend_from_slice(code_of(high).as_bytes())
}

// Appends the balanced tree over the steps of a way, or the leaf of its only class with itself.
fn append_way(way: &[ClassId], line: &mut Vec<u8>) -> Result<(), AllocError> {
    if way.len() == 1 {
        return append_leaf(way[0], way[0], line);
    }
    append_steps(way, line)
}

fn append_steps(way: &[ClassId], line: &mut Vec<u8>) -> Result<(), AllocError> {
    if way.len() <= 2 {
        if way.len() == 2 {
            append_leaf(way[0], way[1], line)?;
        }
        return Ok(());
    }
    let half = (way.len() - 1) / 2;
    line.extend_from_slice(b"j(")?;
    append_steps(&way[..half + 1], line)?;
    line.push(b',')?;
    append_steps(&way[half..], line)?;
    line.push(b')')?;
    Ok(())
}

impl Types {
    /// Notes what the rows say of each subject.
    pub fn build(alloc: Global, rows: TypeRows) -> Result<Types, AllocError> {
        let firsts = note_all(alloc, rows.as_slice())?;
        Ok(Types {
            rows,
            firsts,
            temporal: Ways::build(alloc, Family::Temporal)?,
            span: Ways::build(alloc, Family::Span)?,
            item: Ways::build(alloc, Family::Item)?,
        })
    }

    fn ways(&self, family: Family) -> &Ways {
        match family {
            Family::Temporal => &self.temporal,
            Family::Span => &self.span,
            Family::Item => &self.item,
        }
    }

    fn append_tree(
        &self,
        alloc: Global,
        class: ClassId,
        family: Family,
        line: &mut Vec<u8>,
    ) -> Result<(), AllocError> {
        let way = self.ways(family).way(alloc, class)?;
        line.push(b' ')?;
        append_way(&way, line)
    }

    fn append_line(&self, alloc: Global, due: Due, line: &mut Vec<u8>) -> Result<(), AllocError> {
        line.extend_from_slice(b"class ")?;
        append_name(b't', due.first.triple as u64, line)?;
        line.push(b' ')?;
        append_name(b't', due.second.triple as u64, line)?;
        line.push(b' ')?;
        line.extend_from_slice(code_of(due.family.head()).as_bytes())?;
        line.push(b' ')?;
        line.extend_from_slice(code_of(due.other.head()).as_bytes())?;
        self.append_tree(alloc, due.first.class, due.family, line)?;
        self.append_tree(alloc, due.second.class, due.other, line)?;
        line.push(b'\n')?;
        Ok(())
    }

    // The first triple of the row's subject in another family.
    fn other(&self, row: TypeRow) -> Option<TypeRow> {
        match family_of(row.class) {
            Some(family) => match self.firsts.get(&row.subject) {
                Some(firsts) => firsts.other(family),
                None => None,
            },
            None => None,
        }
    }

    // What the line of a triple tells: its row, the row of another family, and both families.
    fn due(&self, triple: u32) -> Option<Due> {
        let first = row_of(self.rows.as_slice(), triple)?;
        let second = self.other(first)?;
        Some(Due {
            first,
            second,
            family: family_of(first.class)?,
            other: family_of(second.class)?,
        })
    }

    // Appends the line of a triple that is due.
    fn append_due(&self, alloc: Global, triple: u32, line: &mut Vec<u8>) -> Result<(), AllocError> {
        match self.due(triple) {
            Some(due) => self.append_line(alloc, due, line),
            None => Ok(()),
        }
    }
}

/// A certificate of classes, of which a part may be printed.
#[derive(Drop)]
pub struct ClassPieces<'a> {
    alloc: Global,
    types: &'a Types,
    due: &'a Numbers,
    stage: ClassStage,
}

/// What comes next of a certificate of classes.
#[derive(Clone, Copy)]
enum ClassStage {
    /// The first line.
    Head,
    /// The line of the triple that is due at a place, or the last line behind all.
    Line(usize),
    /// Nothing.
    Over,
}

impl<'a> ClassPieces<'a> {
    /// The certificate of the triples that are due, of which nothing is printed.
    pub fn new(alloc: Global, types: &'a Types, due: &'a Numbers) -> ClassPieces<'a>
        ensures { ⟦<ClassPieces<'a> as Drafts>⟧.IsReady result }
    {
        ClassPieces {
            alloc,
            types,
            due,
            stage: ClassStage::Head,
        }
    }

    // The line of the triple that is due at a place, or the last line behind all.
    fn next_line(&self, i: usize, line: &mut Vec<u8>) -> Result<ClassStage, AllocError> {
        let numbers = self.due.as_slice();
        if i >= numbers.len() {
            line.extend_from_slice(b"end\n")?;
            return Ok(ClassStage::Over);
        }
        self.types.append_due(self.alloc, numbers[i], line)?;
        Ok(ClassStage::Line(i + 1))
    }

    fn append_next(&self, line: &mut Vec<u8>) -> Result<ClassStage, AllocError> {
        match self.stage {
            ClassStage::Head => {
                line.extend_from_slice(b"crmtime 1 classes\n")?;
                Ok(ClassStage::Line(0))
            }
            ClassStage::Line(i) => self.next_line(i, line),
            ClassStage::Over => Ok(ClassStage::Over),
        }
    }
}

impl<'a> Drafts for ClassPieces<'a> {
    ghost use Rattle.std.specs.Prelude.{⊤};

    ghost IsReady = { λ p. ⊤ };

    fn append_draft(&mut self, line: &mut Vec<u8>) -> Result<bool, AllocError> {
        let next = self.append_next(line)?;
        self.stage = next;
        Ok(!matches!(next, ClassStage::Over))
    }
}
