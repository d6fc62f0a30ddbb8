//! Arrays of exact fractions.
ghost use Rattle.std.specs.Prelude.{◌≡◌, length, IfOk};
ghost use Rattle.dcx_shape.specs.Shape.{sides_of};
ghost use Rattle.dcx_shape.specs.Sides.{entries_of};

use dcx_frac::Fracs;
use dcx_shape::Shape;
use std::alloc::{AllocError, Global};

/// The numbers of an array in row-major order, as many as its shape has entries.
#[derive(Drop)]
pub struct Array {
    /// How long the sides are.
    pub shape: Shape,
    /// The numbers, row after row.
    pub entries: Fracs,
    ghost full: { length entries ≡ entries_of (sides_of shape) },
}

/// The same array again. `AllocError` where there is no memory.
pub fn copy_array(alloc: Global, array: &Array) -> Result<Array, AllocError>
    ensures { IfOk result (λ x. x ≡ array.now) }
{
    let entries = Vec::from_slice(alloc, array.entries.as_slice())?;
    Ok(Array {
        shape: array.shape,
        entries: Fracs::from_vec(entries),
    })
}
