//! Shapes as a script asks for them: sides of any size, of which no array may have come yet.
ghost use Rattle.std.specs.Prelude.{◌≡◌, map, option_map, pos};
ghost use Rattle.dcx_shape.specs.Sides.{entries_of};
ghost use Rattle.dcx_array.specs.Shapes.{shape_with, told};
ghost use Rattle.dcx_shape.specs.declared.shape.Sides.TheVariants.{Vector};
ghost use Rattle.dcx_script_values.specs.Kinds.{side_of, two_sides, tuple_sides, is_square, sides_from, axis_from, axis_of};
ghost use Rattle.dcx_script_values.specs.Meant.{meant};
ghost use Rattle.dcx_script_values.specs.View.{extent_sides};

use crate::reading::whole_number;
use crate::value::Value;
use dcx_atom::Axis;
use dcx_shape::{Shape, Sides};

/// How long the sides are that a script asks for.
#[derive(Clone, Copy)]
pub enum Extent {
    /// No side.
    Scalar,
    /// One side.
    Vector(u128),
    /// Two sides.
    Matrix(u128, u128),
}

impl Extent {
    /// How many entries there would be, or more than any type holds.
    pub fn entries(self) -> u128
        ensures { told result ≡ told (entries_of (extent_sides self)) }
    {
        match self {
            Extent::Scalar => 1,
            Extent::Vector(n) => n,
            Extent::Matrix(m, n) => m.saturating_mul(n),
        }
    }

    /// The shape with these sides; None where there are not 1 to 20,000 entries.
    pub fn shape(self) -> Option<Shape>
        ensures { result ≡ shape_with (extent_sides self) }
    {
        match self.told() {
            Sides::Scalar => Some(Shape::scalar()),
            Sides::Vector(n) => Shape::vector(n),
            Sides::Matrix(m, n) => Shape::matrix(m, n),
        }
    }

    /// The same sides, each at most the greatest of its type, which is more than an array may have.
    pub fn told(self) -> Sides
        ensures shape { shape_with result ≡ shape_with (extent_sides self) }
        ensures entries { told (entries_of result) ≡ told (entries_of (extent_sides self)) }
    {
        match self {
            Extent::Scalar => Sides::Scalar,
            Extent::Vector(n) => Sides::Vector(told_side(n)),
            Extent::Matrix(m, n) => Sides::Matrix(told_side(m), told_side(n)),
        }
    }

    /// Whether there are two sides of the same length.
    pub fn is_square(self) -> bool
        ensures { result ≡ is_square (extent_sides self) }
    {
        match self {
            Extent::Matrix(m, n) => m == n,
            _ => false,
        }
    }
}

/// A side, or the greatest of its type.
pub fn told_side(n: u128) -> u32
    ensures { result ≡ told n }
{
    u32::try_from(n).unwrap_or(u32::MAX)
}

/// A whole number that is at least the least.
fn side_of(least: u8, value: &Value) -> Option<u128>
    ensures { result ≡ side_of (pos least) (meant value.now) }
{
    let side = whole_number(value)?;
    if side < least as i128 {
        return None;
    }
    Some(side.unsigned_abs())
}

/// One side, where it is there.
fn one_side(n: Option<u128>) -> Option<Extent>
    ensures { option_map extent_sides result ≡ option_map Vector n }
{
    Some(Extent::Vector(n?))
}

/// Two sides, where both are there.
fn two_sides(m: Option<u128>, n: Option<u128>) -> Option<Extent>
    ensures { option_map extent_sides result ≡ two_sides m n }
{
    Some(Extent::Matrix(m?, n?))
}

/// The sides that at most two items are, each at least the least.
fn tuple_sides(least: u8, items: &[Value]) -> Option<Extent>
    ensures { option_map extent_sides result ≡ tuple_sides (pos least) (map meant items.now) }
{
    match items {
        [] => Some(Extent::Scalar),
        [n] => one_side(side_of(least, n)),
        [m, n] => two_sides(side_of(least, m), side_of(least, n)),
        _ => None,
    }
}

/// The sides that a whole number or a tuple of at most two is, each at least the least.
pub fn sides_from(least: u8, value: &Value) -> Option<Extent>
    ensures { option_map extent_sides result ≡ sides_from (pos least) (meant value.now) }
{
    match value {
        Value::Tuple(items) => tuple_sides(least, items.values()),
        Value::Plain(_) => one_side(side_of(least, value)),
        _ => None,
    }
}

/// The axis that 0 or 1 is.
fn axis_from(whole: i128) -> Option<Axis>
    ensures { result ≡ axis_from whole }
{
    match whole {
        0 => Some(Axis::Zero),
        1 => Some(Axis::One),
        _ => None,
    }
}

/// The axis that None, 0 or 1 is.
pub fn axis_of(value: &Value) -> Option<Axis>
    ensures { result ≡ axis_of (meant value.now) }
{
    match value {
        Value::Nothing => Some(Axis::All),
        Value::Plain(_) => axis_from(whole_number(value)?),
        _ => None,
    }
}
