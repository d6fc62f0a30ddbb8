//! The shapes of two arrays side by side.
ghost use Rattle.std.specs.Prelude.{◌≡◌};
ghost use Rattle.dcx_shape.specs.Shape.{sides_of};
ghost use Rattle.dcx_atom.specs.Arrays.{same_sides};

use dcx_shape::{Shape, Sides};

/// Whether two arrays have the same shape.
pub fn same_shape(a: Shape, b: Shape) -> bool
    ensures { result ≡ same_sides (sides_of a) (sides_of b) }
{
    match (a.sides(), b.sides()) {
        (Sides::Scalar, Sides::Scalar) => true,
        (Sides::Vector(n), Sides::Vector(l)) => n == l,
        (Sides::Matrix(m, n), Sides::Matrix(l, p)) => m == l && n == p,
        _ => false,
    }
}
