//! The shapes of plain arrays, and those of what two or more make together.
ghost use Rattle.std.specs.Prelude.{◌≡◌, ◌≤◌, map, option_and_then};
ghost use Rattle.dcx_shape.specs.Shape.{sides_of};
ghost use Rattle.dcx_array.specs.Shapes.{shape_with, size_fault, allowed_shape, joined_side, with_rank, broadcast_of, common_with, common_of, shared_shape, multiplied_sides, multiplied_shape};

use crate::fault::ArrayFault;
use dcx_shape::{Shape, Sides, broadcast};

/// Why no array has so many entries, which are none or too many.
fn size_fault(count: u32) -> ArrayFault
    ensures { result ≡ size_fault count }
{
    if count == 0 {
        ArrayFault::Empty
    } else {
        ArrayFault::TooMany { count }
    }
}

/// The shape with these sides.
///
/// `Empty` where a side is 0, and `TooMany` where there would be more than 20,000 entries.
pub(crate) fn allowed_shape(sides: Sides) -> Result<Shape, ArrayFault>
    ensures { result ≡ allowed_shape sides }
{
    match sides {
        Sides::Scalar => Ok(Shape::scalar()),
        Sides::Vector(n) => Shape::vector(n).ok_or(size_fault(n)),
        Sides::Matrix(m, n) => Shape::matrix(m, n).ok_or(size_fault(m.saturating_mul(n))),
    }
}

/// The greater of two sides; `None` where they are unequal and neither is 1.
fn joined_side(m: u32, n: u32) -> Option<u32>
    ensures { result ≡ joined_side m n }
{
    if m == n || (m == 1 || n == 1) {
        Some(m.max(n))
    } else {
        None
    }
}

/// So many of these sides, from the right.
fn with_rank(rank: u8, rows: u32, columns: u32) -> Sides
    ensures { result ≡ with_rank rank rows columns }
{
    match rank {
        0 => Sides::Scalar,
        1 => Sides::Vector(columns),
        _ => Sides::Matrix(rows, columns),
    }
}

/// The sides that two arrays share; `None` where a pair of sides is unequal and neither is 1.
fn broadcast_sides(a: Shape, b: Shape) -> Option<Sides>
    ensures { result ≡ broadcast_of (sides_of a) (sides_of b) }
{
    let rows = joined_side(a.rows(), b.rows())?;
    let columns = joined_side(a.cols(), b.cols())?;
    Some(with_rank(a.rank().max(b.rank()), rows, columns))
}

/// The shape to which two plain arrays broadcast.
///
/// `Clash` where a pair of sides is unequal and neither is 1, and then `TooMany` where there would be more than 20,000
/// entries.
pub(crate) fn shared_shape(a: Shape, b: Shape) -> Result<Shape, ArrayFault>
    ensures { result ≡ shared_shape (sides_of a) (sides_of b) }
{
    match broadcast_sides(a, b) {
        Some(sides) => allowed_shape(sides),
        None => Err(ArrayFault::Clash),
    }
}

/// The shape to which all of these broadcast; `None` where there is none of them, two sides that meet are unequal and
/// neither is 1, or there would be more than 20,000 entries.
pub fn common_shape(shapes: &[Shape]) -> Option<Shape>
    ensures { result ≡ option_and_then shape_with (common_of (map sides_of shapes.now)) }
{
    match shapes {
        [] => None,
        [first, others @ ..] => common_with(*first, others),
    }
}

/// The shape to which this one and the others broadcast.
fn common_with(first: Shape, others: &[Shape]) -> Option<Shape>
    ensures { result ≡ option_and_then shape_with (common_with (Some (sides_of first)) (map sides_of others.now)) }
{
    let mut common = first;
    for shape in others {
        common = broadcast(common, *shape)?;
    }
    Some(common)
}

/// The sides of a matrix product; `None` where the inner sides differ, or one of both is a number.
fn multiplied_sides(a: Shape, b: Shape) -> Option<Sides>
    ensures { result ≡ multiplied_sides (sides_of a) (sides_of b) }
{
    match (a.sides(), b.sides()) {
        (Sides::Vector(n), Sides::Vector(l)) if n == l => Some(Sides::Scalar),
        (Sides::Vector(n), Sides::Matrix(l, p)) if n == l => Some(Sides::Vector(p)),
        (Sides::Matrix(m, n), Sides::Vector(l)) if n == l => Some(Sides::Vector(m)),
        (Sides::Matrix(m, n), Sides::Matrix(l, p)) if n == l => Some(Sides::Matrix(m, p)),
        _ => None,
    }
}

/// The shape of the matrix product of two plain arrays.
///
/// `Clash` where the inner sides differ or one of both is a number, and then `TooMany` where there would be more than
/// 20,000 entries.
pub(crate) fn multiplied_shape(a: Shape, b: Shape) -> Result<Shape, ArrayFault>
    ensures { result ≡ multiplied_shape (sides_of a) (sides_of b) }
{
    match multiplied_sides(a, b) {
        Some(sides) => allowed_shape(sides),
        None => Err(ArrayFault::Clash),
    }
}
