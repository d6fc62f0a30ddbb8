//! The first entry at which an array leaves the domain of a variable.
ghost use Rattle.std.specs.Prelude.{◌≡◌, ◌↔◌, IsNone, IfSome};
ghost use Rattle.dcx_shape.specs.Shape.{sides_of};
ghost use Rattle.dcx_atom.specs.Arrays.{number_at};
ghost use Rattle.dcx_call.specs.Attributes.{IsWithin, IsInDomain};
ghost use Rattle.dcx_domain.specs.Entries.{LeavesFirstAt, LeavesDomainFirstAt};

use crate::entry::keeps_at;
use dcx_atom::Array;
use dcx_call::{Attribute, Variable};
use dcx_frac::Frac;
use dcx_shape::Shape;

/// The first entry, in row-major order, at which an array of the variable's shape leaves what is demanded of the variable;
/// `None` where it is in the domain. Of two entries that mirror each other the one below the diagonal is named.
///
/// The array is read by the variable's shape, and numbers past its end count as 0.
pub fn outside(variable: &Variable, array: &Array) -> Option<u32>
    ensures inside { IsNone result ↔ IsInDomain variable.now (number_at array.now.entries) }
    ensures first { IfSome result (LeavesDomainFirstAt variable.now (number_at array.now.entries)) }
{
    first_left(
        variable.demanded(),
        variable.shape,
        array.entries.as_slice(),
    )
}

/// The first entry, in row-major order, of an array of this shape with these numbers that isn't as the attribute demands; `None`
/// where each is. Of two entries that mirror each other the one below the diagonal is named, and a number past the end counts as 0.
pub fn first_left(attribute: Attribute, shape: Shape, numbers: &[Frac]) -> Option<u32>
    ensures inside { IsNone result ↔ IsWithin attribute (sides_of shape) (number_at numbers.now) }
    ensures first { IfSome result (LeavesFirstAt attribute (sides_of shape) (number_at numbers.now)) }
{
    for entry in 0..shape.size() {
        if !keeps_at(attribute, shape, numbers, entry) {
            return Some(entry);
        }
    }
    None
}
