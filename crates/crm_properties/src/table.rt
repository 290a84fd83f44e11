// The table of the properties, by their numbers.
ghost use Rattle.std.specs.Prelude.{◌≡◌, ◌<◌, option_map, slice_index_or};
ghost use Rattle.crm_properties.specs.Names.{row_at};
ghost use Rattle.crm_properties.specs.Index.{low_numbers, middle_numbers, high_numbers};

use crate::{RangeKind, Space};
use crm_classes::ClassId;

/// Where the name is looked for.
#[tactic(auto, unfolding(crate::specs::Table::rows))]
pub fn space(number: u8) -> Space
    requires { number < 44 }
    ensures { result ≡ (row_at number).space }
{
    match number {
        0 => Space::Crm,
        1 => Space::Crm,
        2 => Space::Crm,
        3 => Space::Crm,
        4 => Space::Crm,
        5 => Space::Crm,
        6 => Space::Crm,
        7 => Space::Crm,
        8 => Space::Crm,
        9 => Space::Crm,
        10 => Space::Crm,
        11 => Space::Crm,
        12 => Space::Crm,
        13 => Space::Crm,
        14 => Space::Crm,
        15 => Space::Crm,
        16 => Space::Crm,
        17 => Space::Whole,
        18 => Space::Whole,
        19 => Space::Whole,
        20 => Space::Crm,
        21 => Space::Crm,
        22 => Space::Crm,
        23 => Space::Crm,
        24 => Space::Crm,
        25 => Space::Crm,
        26 => Space::Crm,
        27 => Space::Crm,
        28 => Space::Crm,
        29 => Space::Crm,
        30 => Space::Crm,
        31 => Space::Crm,
        32 => Space::Crm,
        33 => Space::Crm,
        34 => Space::Crm,
        35 => Space::Crm,
        36 => Space::Crm,
        37 => Space::Crm,
        38 => Space::Crm,
        39 => Space::Archaeo,
        40 => Space::Archaeo,
        41 => Space::Whole,
        42 => Space::Whole,
        _ => Space::Whole,
    }
}

/// The code, or the whole IRI.
#[tactic(auto, unfolding(crate::specs::Table::rows))]
pub fn text(number: u8) -> &'static str
    requires { number < 44 }
    ensures { result.now ≡ (row_at number).text }
{
    match number {
        0 => "P173",
        1 => "P174",
        2 => "P175",
        3 => "P176",
        4 => "P182",
        5 => "P183",
        6 => "P184",
        7 => "P185",
        8 => "P4",
        9 => "P160",
        10 => "P9",
        11 => "P10",
        12 => "P86",
        13 => "P82a",
        14 => "P81a",
        15 => "P81b",
        16 => "P82b",
        17 => "urn:crmtime:AP13-before",
        18 => "urn:crmtime:AP13-after",
        19 => "urn:crmtime:AP13-same",
        20 => "P1",
        21 => "P2",
        22 => "P3",
        23 => "P7",
        24 => "P11",
        25 => "P12",
        26 => "P14",
        27 => "P15",
        28 => "P17",
        29 => "P20",
        30 => "P21",
        31 => "P46",
        32 => "P89",
        33 => "P92",
        34 => "P93",
        35 => "P95",
        36 => "P98",
        37 => "P100",
        38 => "P134",
        39 => "AP13",
        40 => "AP7",
        41 => "urn:crmtime:relation-from",
        42 => "urn:crmtime:relation-to",
        _ => "urn:crmtime:relation-type",
    }
}

/// The code of the inverse.
#[tactic(auto, unfolding(crate::specs::Table::rows))]
pub fn inverse(number: u8) -> Option<&'static str>
    requires { number < 44 }
    ensures { option_map (λ x. x.now) result ≡ (row_at number).inverse }
{
    match number {
        0 => Some("P173i"),
        1 => Some("P174i"),
        2 => Some("P175i"),
        3 => Some("P176i"),
        4 => Some("P182i"),
        5 => Some("P183i"),
        6 => Some("P184i"),
        7 => Some("P185i"),
        8 => Some("P4i"),
        9 => Some("P160i"),
        10 => Some("P9i"),
        11 => Some("P10i"),
        12 => Some("P86i"),
        13 => None,
        14 => None,
        15 => None,
        16 => None,
        17 => None,
        18 => None,
        19 => None,
        20 => Some("P1i"),
        21 => Some("P2i"),
        22 => None,
        23 => Some("P7i"),
        24 => Some("P11i"),
        25 => Some("P12i"),
        26 => Some("P14i"),
        27 => Some("P15i"),
        28 => Some("P17i"),
        29 => Some("P20i"),
        30 => Some("P21i"),
        31 => Some("P46i"),
        32 => Some("P89i"),
        33 => Some("P92i"),
        34 => Some("P93i"),
        35 => Some("P95i"),
        36 => Some("P98i"),
        37 => Some("P100i"),
        38 => Some("P134i"),
        39 => Some("AP13i"),
        40 => Some("AP7i"),
        41 => None,
        42 => None,
        _ => None,
    }
}

/// The number of the domain.
#[tactic(auto, unfolding(crate::specs::Table::rows))]
pub fn domain(number: u8) -> u8
    requires { number < 44 }
    ensures value { result ≡ (row_at number).domain }
    ensures in_range { result < 71 }
{
    match number {
        0 => 1,
        1 => 1,
        2 => 1,
        3 => 1,
        4 => 1,
        5 => 1,
        6 => 1,
        7 => 1,
        8 => 1,
        9 => 6,
        10 => 9,
        11 => 6,
        12 => 2,
        13 => 2,
        14 => 2,
        15 => 2,
        16 => 2,
        17 => 1,
        18 => 1,
        19 => 1,
        20 => 0,
        21 => 0,
        22 => 0,
        23 => 9,
        24 => 11,
        25 => 11,
        26 => 12,
        27 => 12,
        28 => 12,
        29 => 12,
        30 => 12,
        31 => 49,
        32 => 3,
        33 => 13,
        34 => 14,
        35 => 36,
        36 => 37,
        37 => 41,
        38 => 12,
        39 => 1,
        40 => 0,
        41 => 0,
        42 => 0,
        _ => 0,
    }
}

/// The range.
#[tactic(auto, unfolding(crate::specs::Table::rows))]
pub fn range(number: u8) -> RangeKind
    requires { number < 44 }
    ensures { result ≡ (row_at number).range }
{
    match number {
        0 => class(1),
        1 => class(1),
        2 => class(1),
        3 => class(1),
        4 => class(1),
        5 => class(1),
        6 => class(1),
        7 => class(1),
        8 => class(2),
        9 => class(2),
        10 => class(9),
        11 => class(6),
        12 => class(2),
        13 => RangeKind::Date,
        14 => RangeKind::Date,
        15 => RangeKind::Date,
        16 => RangeKind::Date,
        17 => class(1),
        18 => class(1),
        19 => class(1),
        20 => class(66),
        21 => class(62),
        22 => RangeKind::Text,
        23 => class(3),
        24 => class(44),
        25 => class(5),
        26 => class(44),
        27 => class(0),
        28 => class(0),
        29 => class(11),
        30 => class(62),
        31 => class(49),
        32 => class(3),
        33 => class(5),
        34 => class(5),
        35 => class(46),
        36 => class(56),
        37 => class(56),
        38 => class(12),
        39 => class(1),
        40 => class(0),
        41 => class(1),
        42 => class(1),
        _ => class(0),
    }
}

fn class(number: u8) -> RangeKind
    requires { number < 71 }
    ensures { result ≡ RangeKind.Class number }
{
    RangeKind::Class(ClassId::from_number(number))
}

/// The properties P0 to P21, and 44 where there is none.
#[tactic(auto, unfolding(crate::specs::Index::low_numbers))]
pub fn low(place: u8) -> u8
    requires { place < 22 }
    ensures { result ≡ slice_index_or low_numbers place 44 }
{
    match place {
        0 => 44,
        1 => 20,
        2 => 21,
        3 => 22,
        4 => 8,
        5 => 44,
        6 => 44,
        7 => 23,
        8 => 44,
        9 => 10,
        10 => 11,
        11 => 24,
        12 => 25,
        13 => 44,
        14 => 26,
        15 => 27,
        16 => 44,
        17 => 28,
        18 => 44,
        19 => 44,
        20 => 29,
        _ => 30,
    }
}

/// The properties P81 to P100; of P81 and P82 those with an `a`.
#[tactic(auto, unfolding(crate::specs::Index::middle_numbers))]
pub fn middle(place: u8) -> u8
    requires { place < 20 }
    ensures { result ≡ slice_index_or middle_numbers place 44 }
{
    match place {
        0 => 14,
        1 => 13,
        2 => 44,
        3 => 44,
        4 => 44,
        5 => 12,
        6 => 44,
        7 => 44,
        8 => 32,
        9 => 44,
        10 => 44,
        11 => 33,
        12 => 34,
        13 => 44,
        14 => 35,
        15 => 44,
        16 => 44,
        17 => 36,
        18 => 44,
        _ => 37,
    }
}

/// The properties P173 to P185.
#[tactic(auto, unfolding(crate::specs::Index::high_numbers))]
pub fn high(place: u8) -> u8
    requires { place < 13 }
    ensures { result ≡ slice_index_or high_numbers place 44 }
{
    match place {
        0 => 0,
        1 => 1,
        2 => 2,
        3 => 3,
        4 => 44,
        5 => 44,
        6 => 44,
        7 => 44,
        8 => 44,
        9 => 4,
        10 => 5,
        11 => 6,
        _ => 7,
    }
}
