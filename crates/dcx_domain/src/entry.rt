//! Whether one entry of an array is as an attribute demands.
ghost use Rattle.std.specs.Prelude.{◌<◌, MatchBool, pos};
ghost use Rattle.dcx_math.specs.Rational.{whole, ◌≤ℚ◌, ◌<ℚ◌};
ghost use Rattle.dcx_shape.specs.Shape.{sides_of};
ghost use Rattle.dcx_shape.specs.Sides.{entries_of};
ghost use Rattle.dcx_atom.specs.Arrays.{number_at};
ghost use Rattle.dcx_domain.specs.Entries.{IsItsMirror, IsZeroOffDiagonal, KeepsAt, DiffersFromMirror, IsNonzeroOffDiagonal, LeavesAt};

use dcx_atom::{is_at_most, is_equal, number_at};
use dcx_call::Attribute;
use dcx_frac::Frac;
use dcx_shape::Shape;

/// Whether an entry is as the attribute demands, in an array of this shape with these numbers.
pub(crate) fn keeps_at(attribute: Attribute, shape: Shape, numbers: &[Frac], entry: u32) -> bool
    requires { entry < entries_of (sides_of shape) }
    ensures { MatchBool result (KeepsAt attribute (sides_of shape) (number_at numbers.now) entry) (LeavesAt attribute (sides_of shape) (number_at numbers.now) entry) }
{
    match attribute {
        Attribute::Free => true,
        Attribute::Nonneg => is_at_least_zero(numbers, entry),
        Attribute::Nonpos => is_at_most_zero(numbers, entry),
        Attribute::Symmetric => is_its_mirror(shape, numbers, entry),
        Attribute::Diag => is_zero_off_diagonal(shape, numbers, entry),
    }
}

/// Whether an entry is at least 0.
fn is_at_least_zero(numbers: &[Frac], entry: u32) -> bool
    ensures { MatchBool result (whole (pos 0) ≤ℚ number_at numbers.now entry) (number_at numbers.now entry <ℚ whole (pos 0)) }
{
    is_at_most(&Frac::zero(), &number_at(numbers, entry as usize))
}

/// Whether an entry is at most 0.
fn is_at_most_zero(numbers: &[Frac], entry: u32) -> bool
    ensures { MatchBool result (number_at numbers.now entry ≤ℚ whole (pos 0)) (whole (pos 0) <ℚ number_at numbers.now entry) }
{
    is_at_most(&number_at(numbers, entry as usize), &Frac::zero())
}

/// Whether an entry is its mirror, or is asked at its mirror below the diagonal.
fn is_its_mirror(shape: Shape, numbers: &[Frac], entry: u32) -> bool
    requires { entry < entries_of (sides_of shape) }
    ensures { MatchBool result (IsItsMirror (sides_of shape) (number_at numbers.now) entry) (DiffersFromMirror (sides_of shape) (number_at numbers.now) entry) }
{
    let columns = shape.cols();
    let row = entry / columns;
    let column = entry % columns;
    if row < column && column < shape.rows() {
        return true;
    }
    let mirror = column * columns + row;
    is_equal(
        &number_at(numbers, entry as usize),
        &number_at(numbers, mirror as usize),
    )
}

/// Whether an entry is on the diagonal, or is 0.
fn is_zero_off_diagonal(shape: Shape, numbers: &[Frac], entry: u32) -> bool
    requires { entry < entries_of (sides_of shape) }
    ensures { MatchBool result (IsZeroOffDiagonal (sides_of shape) (number_at numbers.now) entry) (IsNonzeroOffDiagonal (sides_of shape) (number_at numbers.now) entry) }
{
    let columns = shape.cols();
    if entry / columns == entry % columns {
        return true;
    }
    number_at(numbers, entry as usize).is_zero()
}
