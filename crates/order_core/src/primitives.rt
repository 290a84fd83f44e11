// The eight primitives.
ghost use Rattle.std.specs.Prelude.{◌≡◌};
ghost use Rattle.order_core.specs.Primitives.{side_of, strict_of, points_of, primitive_of, code_of, primitive_named};

use crate::Side;
use order_laws::Point;

/// A relation of two extents, by one boundary of each: a side, and whether it is strict.
#[derive(Clone, Copy, Debug, PartialEq, Eq)]
pub enum Primitive {
    P173,
    P174,
    P175,
    P176,
    P182,
    P183,
    P184,
    P185,
}

impl Primitive {
    /// The primitive that compares the boundaries of a side, by `<` where `strict` is set, else by `<=`.
    pub fn of(side: Side, strict: bool) -> Primitive
        ensures { result ≡ primitive_of side strict }
    {
        match (side, strict) {
            (Side::StartEnd, false) => Primitive::P173,
            (Side::StartEnd, true) => Primitive::P174,
            (Side::StartStart, false) => Primitive::P175,
            (Side::StartStart, true) => Primitive::P176,
            (Side::EndStart, false) => Primitive::P182,
            (Side::EndStart, true) => Primitive::P183,
            (Side::EndEnd, false) => Primitive::P184,
            (Side::EndEnd, true) => Primitive::P185,
        }
    }

    /// The side whose boundaries it compares.
    pub fn side(self) -> Side
        ensures { result ≡ side_of self }
    {
        match self {
            Primitive::P173 | Primitive::P174 => Side::StartEnd,
            Primitive::P175 | Primitive::P176 => Side::StartStart,
            Primitive::P182 | Primitive::P183 => Side::EndStart,
            Primitive::P184 | Primitive::P185 => Side::EndEnd,
        }
    }

    /// Whether it compares by `<`.
    pub fn is_strict(self) -> bool
        ensures { result ≡ strict_of self }
    {
        match self {
            Primitive::P173 | Primitive::P175 | Primitive::P182 | Primitive::P184 => false,
            Primitive::P174 | Primitive::P176 | Primitive::P183 | Primitive::P185 => true,
        }
    }

    /// Its code in CIDOC CRM.
    pub fn code(self) -> &'static str
        ensures { result.now ≡ code_of self }
    {
        match self {
            Primitive::P173 => "P173",
            Primitive::P174 => "P174",
            Primitive::P175 => "P175",
            Primitive::P176 => "P176",
            Primitive::P182 => "P182",
            Primitive::P183 => "P183",
            Primitive::P184 => "P184",
            Primitive::P185 => "P185",
        }
    }

    /// The primitive of a code.
    pub fn of_code(code: &str) -> Option<Primitive>
        ensures { result ≡ primitive_named code.now }
    {
        match code {
            "P173" => Some(Primitive::P173),
            "P174" => Some(Primitive::P174),
            "P175" => Some(Primitive::P175),
            "P176" => Some(Primitive::P176),
            "P182" => Some(Primitive::P182),
            "P183" => Some(Primitive::P183),
            "P184" => Some(Primitive::P184),
            "P185" => Some(Primitive::P185),
            _ => None,
        }
    }
}

/// The left point, the right point, and whether the primitive is strict.
pub fn points(p: Primitive, a: u32, b: u32) -> (Point, Point, bool)
    ensures { result ≡ points_of p a b }
{
    let side = p.side();
    (side.left(a), side.right(b), p.is_strict())
}
