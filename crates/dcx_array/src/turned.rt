//! What is made of one plain array: signs turned, and transposes.
ghost use Rattle.std.specs.Prelude.{◌≡◌, ◌<◌, Ok};
ghost use Rattle.dcx_shape.specs.Shape.{sides_of};
ghost use Rattle.dcx_shape.specs.Sides.{entries_of};
ghost use Rattle.dcx_affine.specs.Places.{transposed_sides, transposed_place};
ghost use Rattle.dcx_array.specs.Answers.{Gives};
ghost use Rattle.dcx_array.specs.Shapes.{allowed_shape};
ghost use Rattle.dcx_array.specs.Arrays.{entry};
ghost use Rattle.dcx_array.specs.Operators.{negated, transposed};

use crate::fault::ArrayFault;
use crate::forming::{Entrywise, entry, fill};
use crate::shapes::allowed_shape;
use dcx_affine::transposed_place;
use dcx_atom::Array;
use dcx_frac::{Frac, Fracs, Passes};
use dcx_shape::{Shape, Sides};
use std::alloc::Global;

/// The array with each sign turned. Takes no memory.
pub fn negate(a: Array) -> Array
    ensures { result ≡ negated a }
{
    let mut entries = a.entries.into_vec();
    for k in 0..entries.len() {
        entries[k] = entries[k].neg();
    }
    Array {
        shape: a.shape,
        entries: Fracs::from_vec(entries),
    }
}

/// The entries of an array, at the places of its transpose.
#[derive(Clone, Copy)]
struct Turned<'a> {
    array: &'a Array,
}

impl Entrywise for Turned<'_> {
    ghost can_form = { λ x k. k < entries_of (sides_of x.array.now.shape) };

    ghost formed = { λ x k. Ok (entry x.array.now (transposed_place (sides_of x.array.now.shape) k)) };

    fn form(&self, k: u32) -> Result<Frac, Passes> {
        Ok(entry(self.array, transposed_place(self.array.shape, k)))
    }
}

/// The shape of the transpose.
fn transposed_shape(shape: Shape) -> Result<Shape, ArrayFault>
    ensures { result ≡ allowed_shape (transposed_sides (sides_of shape)) }
{
    match shape.sides() {
        Sides::Matrix(m, n) => allowed_shape(Sides::Matrix(n, m)),
        sides => allowed_shape(sides),
    }
}

/// The matrix turned over its diagonal; a number and a vector stay as they are.
pub fn transpose(alloc: Global, a: &Array) -> Result<Array, ArrayFault>
    ensures { Gives result (transposed a.now) }
{
    let shape = transposed_shape(a.shape)?;
    let turned = Turned { array: a };
    fill(alloc, shape, &turned)
}
