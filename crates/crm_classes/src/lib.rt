//! The classes of the profile of CIDOC CRM and CRMarchaeo, and which of them are above which.
//!
//! A class is seen as its number, its place in the profile's table from 0 on.
#![tactic(auto)]

ghost use Rattle.std.specs.Prelude.{◌≡◌, ◌↔◌, ◌<◌, IsTrue};
ghost use Rattle.crm_classes.specs.Classes.{class_of_text, code_text, is_direct, is_below, IsBelow, is_comparable, is_within, is_across, is_incompatible, e2, e52, e77, e92};
ghost use Rattle.crm_classes.specs.Index.{candidate_of, lettered, digit};

use std::marker::Model;

mod table;

/// How many classes the profile has.
const COUNT: u8 = 71;

/// A class by its number.
#[derive(Clone, Copy, PartialEq, Eq, Debug)]
pub struct ClassId {
    number: u8,
}

impl Model for ClassId {
    ghost use Rattle.std.specs.Prelude.{ℕ, ◌<◌};

    ghost Value = { ℕ };

    ghost view = { λ c. c.number };

    ghost invariant = { λ c. c.number < 71 };

    ghost inverse = { λ n. record { number = n } };
}

impl ClassId {
    /// The class with this number, which is below 71.
    pub fn from_number(number: u8) -> Self
        requires { number < 71 }
        ensures { result ≡ number }
    {
        ClassId { number }
    }

    /// The place of the class in the profile's table, from 0.
    pub fn number(self) -> u8
        ensures value { result ≡ self }
        ensures in_range { result < 71 }
    {
        self.number
    }

    /// E2 Temporal Entity.
    pub fn temporal_entity() -> Self
        ensures { result ≡ e2 }
    {
        ClassId { number: 1 }
    }

    /// E52 Time-Span.
    pub fn time_span() -> Self
        ensures { result ≡ e52 }
    {
        ClassId { number: 2 }
    }

    /// E77 Persistent Item.
    pub fn persistent_item() -> Self
        ensures { result ≡ e77 }
    {
        ClassId { number: 5 }
    }

    /// E92 Spacetime Volume.
    pub fn spacetime_volume() -> Self
        ensures { result ≡ e92 }
    {
        ClassId { number: 6 }
    }
}

// The value of an ASCII digit; another byte gives some number below 16.
fn digit_of(byte: u8) -> u8
    ensures value { result ≡ digit byte }
    ensures in_range { result < 16 }
{
    byte % 16
}

#[tactic(auto, using(crate::proofs::Index::e_past, crate::proofs::Index::a_past))]
fn numbered(letter: u8, number: u8) -> u8
    ensures { result ≡ lettered letter number }
{
    match letter {
        b'E' if number < 97 => table::e_class(number),
        b'A' if number < 10 => table::a_class(number),
        _ => COUNT,
    }
}

// The only class whose code the text can be: the number in a code leads to its row.
fn candidate(text: &[u8]) -> u8
    ensures { result ≡ candidate_of text.now }
{
    match text {
        [letter, ones] => numbered(*letter, digit_of(*ones)),
        [letter, tens, ones] => numbered(*letter, digit_of(*tens) * 10 + digit_of(*ones)),
        _ => COUNT,
    }
}

/// The class with this code, such as `E5` or `A4`.
pub fn class_of(code: &str) -> Option<ClassId>
    ensures { result ≡ class_of_text code.now }
{
    class_of_bytes(code.as_bytes())
}

/// The same for a code that is given by its bytes.
pub fn class_of_bytes(code: &[u8]) -> Option<ClassId>
    ensures { result ≡ class_of_text code.now }
{
    let number = candidate(code);
    if number >= COUNT {
        return None;
    }
    if code == table::code(number).as_bytes() {
        Some(ClassId { number })
    } else {
        None
    }
}

/// The code of a class.
pub fn code_of(c: ClassId) -> &'static str
    ensures { result.now ≡ code_text c }
{
    table::code(c.number)
}

/// Whether `d` is a direct parent of `c`.
pub fn direct(c: ClassId, d: ClassId) -> bool
    ensures { result ≡ is_direct c d }
{
    table::parents_of(c.number).contains(&d.number)
}

/// Whether `c` is below `d`: a chain of one or more direct parents leads from `c` to `d`.
pub fn below(c: ClassId, d: ClassId) -> bool
    ensures test { result ≡ is_below c d }
    ensures chain { IsTrue result ↔ IsBelow c d }
{
    table::above_of(c.number).contains(&d.number)
}

/// Whether `c` is `d` or below it.
pub fn within(c: ClassId, d: ClassId) -> bool
    ensures { result ≡ is_within c d }
{
    c == d || below(c, d)
}

/// Whether the classes are equal or one is below the other.
pub fn comparable(c: ClassId, d: ClassId) -> bool
    ensures { result ≡ is_comparable c d }
{
    c == d || below(c, d) || below(d, c)
}

// Whether one class is within the first family and the other within the second.
fn across(first: ClassId, second: ClassId, c: ClassId, d: ClassId) -> bool
    ensures { result ≡ is_across first second c d }
{
    (within(c, first) && within(d, second)) || (within(c, second) && within(d, first))
}

/// Whether the classes are of two different families of E2, E52 and E77, which share no instance.
pub fn incompatible(c: ClassId, d: ClassId) -> bool
    ensures { result ≡ is_incompatible c d }
{
    let temporal = ClassId::temporal_entity();
    let span = ClassId::time_span();
    let item = ClassId::persistent_item();
    across(temporal, item, c, d) || across(temporal, span, c, d) || across(span, item, c, d)
}
