// The four sides of two extents.
ghost use Rattle.std.specs.Prelude.{◌≡◌};
ghost use Rattle.order_core.specs.Sides.{left_point, right_point, side_name};

use order_laws::Point;

/// Which boundaries of two extents are compared: the start of the first with the end of the second, and so on.
#[derive(Clone, Copy, Debug, PartialEq, Eq)]
pub enum Side {
    StartEnd,
    StartStart,
    EndStart,
    EndEnd,
}

impl Side {
    /// The boundary of the left extent.
    pub fn left(self, a: u32) -> Point
        ensures { result ≡ left_point self a }
    {
        match self {
            Side::StartEnd | Side::StartStart => Point::Start(a),
            Side::EndStart | Side::EndEnd => Point::End(a),
        }
    }

    /// The boundary of the right extent.
    pub fn right(self, b: u32) -> Point
        ensures { result ≡ right_point self b }
    {
        match self {
            Side::StartStart | Side::EndStart => Point::Start(b),
            Side::StartEnd | Side::EndEnd => Point::End(b),
        }
    }

    /// The letters of its two boundaries, the left one first.
    pub fn name(self) -> &'static str
        ensures { result.now ≡ side_name self }
    {
        match self {
            Side::StartEnd => "se",
            Side::StartStart => "ss",
            Side::EndStart => "es",
            Side::EndEnd => "ee",
        }
    }
}
