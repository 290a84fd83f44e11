// The faults of a triple, but for those of relations.
ghost use Rattle.std.specs.Prelude.{◌≡◌, Some};
ghost use Rattle.crm_properties.specs.Names.{row_at};
ghost use Rattle.rdf_terms.specs.Fitting as fitting;
ghost use Rattle.rdf_terms.specs.Fitting.{literal_of};
ghost use Rattle.crm_type_check.specs.Index.{by_marks, set_in};
ghost use Rattle.crm_type_check.specs.Meaning.{property_of};
ghost use Rattle.crm_type_check.specs.Faults.{misfits, misfits_range, domain_end, range_end, is_checked, is_class, is_date, side_of, has_c1, has_c2, has_c3, has_d1, has_r1, has_r2, has_r3, date_fault, fault_in_literal};
ghost use Rattle.crm_type_check.specs.Faults as spec;

use crate::classes::{ClassTable, ClassTest, is_declared};
use crate::meaning::{class_named, gives_type, property_named};
use crm_classes::ClassId;
use crm_properties::{Prop, PropCode, RangeKind, domain, range};
use rdf_terms::{Names, Term, Triple};
use time_primitive::{DateFault, Side, read_date};

/// Which faults a triple has, but for those of relations.
#[derive(Clone, Copy, Debug)]
pub struct OwnFaults {
    pub c1: bool,
    pub c2: bool,
    pub c3: bool,
    pub d1: bool,
    pub r1: bool,
    pub r2: bool,
    pub r3: bool,
    pub r4: Option<DateFault>,
}

impl OwnFaults {
    /// Whether there is none.
    pub fn is_sound(self) -> bool
        ensures { result ≡ spec.is_sound self }
    {
        !(self.c1
            || self.c2
            || self.c3
            || self.d1
            || self.r1
            || self.r2
            || self.r3
            || self.r4.is_some())
    }
}

fn is_literal(term: Term) -> bool
    ensures { result ≡ fitting.is_literal term }
{
    matches!(term, Term::Lit(_))
}

fn has_literal_type(names: &Names, triple: Triple) -> bool
    ensures { result ≡ has_c1 names.now triple }
{
    gives_type(names, triple) && is_literal(triple.o)
}

fn has_incompatible_type(names: &Names, classes: &ClassTable, triple: Triple) -> bool
    ensures { result ≡ has_c2 names.now (by_marks (set_in classes.now)) triple }
{
    if !gives_type(names, triple) {
        return false;
    }
    match class_named(names, triple.o) {
        Some(class) => is_declared(classes, triple.s, &ClassTest::Incompatible(class)),
        None => false,
    }
}

fn has_property_type(names: &Names, triple: Triple) -> bool
    ensures { result ≡ has_c3 names.now triple }
{
    gives_type(names, triple) && property_named(names, triple.o).is_some()
}

// Whether the node has classes, and none is comparable with this one.
fn is_misfit(classes: &ClassTable, node: Term, class: ClassId) -> bool
    ensures { result ≡ misfits (by_marks (set_in classes.now)) node class }
{
    is_declared(classes, node, &ClassTest::Any)
        && !is_declared(classes, node, &ClassTest::Comparable(class))
}

fn domain_node(prop: &Prop, triple: Triple) -> Term
    ensures { result ≡ domain_end prop.now triple }
{
    if prop.inverse { triple.o } else { triple.s }
}

fn range_node(prop: &Prop, triple: Triple) -> Term
    ensures { result ≡ range_end prop.now triple }
{
    if prop.inverse { triple.s } else { triple.o }
}

// AP7 is not checked.
fn is_checked_property(prop: &Prop) -> bool
    ensures { result ≡ is_checked prop.now }
{
    prop.code.number() != 40
}

fn has_class_range(code: PropCode) -> bool
    ensures { result ≡ is_class (row_at code).range }
{
    match range(code) {
        RangeKind::Class(_) => true,
        RangeKind::Text | RangeKind::Date => false,
    }
}

fn misfits_domain(classes: &ClassTable, triple: Triple, prop: &Option<Prop>) -> bool
    ensures { result ≡ has_d1 (by_marks (set_in classes.now)) triple prop.now }
{
    match prop {
        Some(prop) => is_checked_property(prop)
            && is_misfit(classes, domain_node(prop, triple), domain(prop.code)),
        None => false,
    }
}

fn is_range_misfit(classes: &ClassTable, node: Term, range: RangeKind) -> bool
    ensures { result ≡ misfits_range (by_marks (set_in classes.now)) node range }
{
    match range {
        RangeKind::Class(class) => is_misfit(classes, node, class),
        RangeKind::Text | RangeKind::Date => false,
    }
}

fn misfits_its_range(classes: &ClassTable, triple: Triple, prop: &Option<Prop>) -> bool
    ensures { result ≡ has_r1 (by_marks (set_in classes.now)) triple prop.now }
{
    match prop {
        Some(prop) => is_checked_property(prop)
            && is_range_misfit(classes, range_node(prop, triple), range(prop.code)),
        None => false,
    }
}

fn has_literal_object(triple: Triple, prop: &Option<Prop>) -> bool
    ensures { result ≡ has_r2 triple prop.now }
{
    match prop {
        Some(prop) => is_literal(triple.o)
            && is_checked_property(prop)
            && has_class_range(prop.code),
        None => false,
    }
}

fn lacks_literal_object(triple: Triple, prop: &Option<Prop>) -> bool
    ensures { result ≡ has_r3 triple prop.now }
{
    match prop {
        Some(prop) => !is_literal(triple.o) && !has_class_range(prop.code),
        None => false,
    }
}

/// The side of the date that the property asks for.
pub fn date_side(code: PropCode) -> Side
    ensures { result ≡ side_of code }
{
    match code.number() {
        13 | 15 => Side::Lower,
        _ => Side::Upper,
    }
}

fn literal_fault(names: &Names, object: Term, prop: &Prop) -> Option<DateFault>
    ensures { result ≡ fault_in_literal prop.now (literal_of names.now object) }
{
    let Term::Lit(number) = object else {
        return None;
    };
    let Some(literal) = names.get_literal(number) else {
        return None;
    };
    match read_date(
        literal.lexical.as_str(),
        literal.datatype.as_str(),
        date_side(prop.code),
    ) {
        Ok(_) => None,
        Err(fault) => Some(fault),
    }
}

fn date_fault_of(names: &Names, triple: Triple, prop: &Option<Prop>) -> Option<DateFault>
    ensures { result ≡ date_fault names.now triple prop.now }
{
    let Some(prop) = prop else {
        return None;
    };
    match range(prop.code) {
        RangeKind::Date => literal_fault(names, triple.o, prop),
        RangeKind::Class(_) | RangeKind::Text => None,
    }
}

/// The faults of a triple, but for those of relations.
pub fn own_faults(names: &Names, classes: &ClassTable, triple: Triple) -> OwnFaults
    ensures { result ≡ spec.own_faults names.now (by_marks (set_in classes.now)) triple }
{
    let prop = property_named(names, triple.p);
    OwnFaults {
        c1: has_literal_type(names, triple),
        c2: has_incompatible_type(names, classes, triple),
        c3: has_property_type(names, triple),
        d1: misfits_domain(classes, triple, &prop),
        r1: misfits_its_range(classes, triple, &prop),
        r2: has_literal_object(triple, &prop),
        r3: lacks_literal_object(triple, &prop),
        r4: date_fault_of(names, triple, &prop),
    }
}
