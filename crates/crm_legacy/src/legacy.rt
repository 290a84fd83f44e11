// The legacy properties, and what says the same in their place.
ghost use Rattle.std.specs.Prelude.{◌≡◌, IfOk};
ghost use Rattle.crm_legacy.specs.Legacies as spec;

use order_core::Primitive;
use std::alloc::{AllocError, Global};

/// A temporal property of CIDOC CRM before release 7, which has none of them: P114 is equal in time to, P115 finishes,
/// P116 starts, P117 occurs during, P118 overlaps in time with, P119 meets in time with, P120 occurs before.
#[derive(Clone, Copy, PartialEq, Eq, Debug)]
pub enum LegacyProperty {
    P114,
    P115,
    P116,
    P117,
    P118,
    P119,
    P120,
}

/// A legacy property, or its inverse. P114 is symmetric and has none.
#[derive(Clone, Copy, PartialEq, Eq, Debug)]
pub struct Legacy {
    pub property: LegacyProperty,
    pub inverse: bool,
}

/// A primitive from the subject to the object, or from the object to the subject where `inverse` is set.
#[derive(Clone, Copy, PartialEq, Eq, Debug)]
pub struct Direction {
    pub primitive: Primitive,
    pub inverse: bool,
}

fn forward(property: LegacyProperty) -> Legacy
    ensures { result ≡ spec.forward property }
{
    Legacy {
        property,
        inverse: false,
    }
}

fn backward(property: LegacyProperty) -> Legacy
    ensures { result ≡ spec.backward property }
{
    Legacy {
        property,
        inverse: true,
    }
}

/// The legacy property that has the code.
pub fn legacy_of_code(code: &str) -> Option<Legacy>
    ensures { result ≡ spec.legacy_of_code code.now }
{
    match code {
        "P114" => Some(forward(LegacyProperty::P114)),
        "P115" => Some(forward(LegacyProperty::P115)),
        "P116" => Some(forward(LegacyProperty::P116)),
        "P117" => Some(forward(LegacyProperty::P117)),
        "P118" => Some(forward(LegacyProperty::P118)),
        "P119" => Some(forward(LegacyProperty::P119)),
        "P120" => Some(forward(LegacyProperty::P120)),
        "P115i" => Some(backward(LegacyProperty::P115)),
        "P116i" => Some(backward(LegacyProperty::P116)),
        "P117i" => Some(backward(LegacyProperty::P117)),
        "P118i" => Some(backward(LegacyProperty::P118)),
        "P119i" => Some(backward(LegacyProperty::P119)),
        "P120i" => Some(backward(LegacyProperty::P120)),
        _ => None,
    }
}

fn there(primitive: Primitive) -> Direction
    ensures { result ≡ spec.there primitive }
{
    Direction {
        primitive,
        inverse: false,
    }
}

fn back(primitive: Primitive) -> Direction
    ensures { result ≡ spec.back primitive }
{
    Direction {
        primitive,
        inverse: true,
    }
}

/// The primitives that say together what the property says.
pub fn replacements(alloc: Global, property: LegacyProperty) -> Result<Vec<Direction>, AllocError>
    ensures { IfOk result (λ list. list.items ≡ spec.replacements property) }
{
    let list = match property {
        LegacyProperty::P114 => vec![in alloc;
            there(Primitive::P175),
            back(Primitive::P175),
            there(Primitive::P184),
            back(Primitive::P184),
        ]?,
        LegacyProperty::P115 => vec![in alloc;
            back(Primitive::P176),
            there(Primitive::P184),
            back(Primitive::P184),
        ]?,
        LegacyProperty::P116 => vec![in alloc;
            there(Primitive::P175),
            back(Primitive::P175),
            there(Primitive::P185),
        ]?,
        LegacyProperty::P117 => vec![in alloc; back(Primitive::P176), there(Primitive::P185)]?,
        LegacyProperty::P118 => vec![in alloc;
            there(Primitive::P176),
            back(Primitive::P174),
            there(Primitive::P185),
        ]?,
        LegacyProperty::P119 => vec![in alloc; there(Primitive::P182), back(Primitive::P173)]?,
        LegacyProperty::P120 => vec![in alloc; there(Primitive::P183)]?,
    };
    Ok(list)
}
