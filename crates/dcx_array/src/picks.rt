//! The entries that indices and slices pick.
ghost use Rattle.std.specs.Prelude.{◌≡◌, ◌<◌, length, slice_index, Ok};
ghost use Rattle.std.specs.List.{All};
ghost use Rattle.dcx_shape.specs.Index.{HasStep};
ghost use Rattle.dcx_array.specs.Answers.{Gives};
ghost use Rattle.dcx_array.specs.Arrays.{entry};
ghost use Rattle.dcx_array.specs.Picks.{indexed, picked_array};

use crate::fault::ArrayFault;
use crate::forming::{Entrywise, entry, fill};
use dcx_affine::Index;
use dcx_atom::Array;
use dcx_frac::{Frac, Passes};
use dcx_shape::{Pick, Shape, index_map};
use std::alloc::Global;

/// The call of the entries that picks take of an array of this shape, from the outer side to the inner one; a side without
/// a pick is taken whole. No slice has the step 0.
///
/// `Clash` where there are more picks than sides. Else the first pick that takes nothing has its fault: `Range` where a
/// whole number is outside, `Empty` where a slice has no place.
pub fn index(alloc: Global, from: Shape, picks: &[Pick]) -> Result<Index, ArrayFault>
    requires { All HasStep picks.now }
    ensures { Gives result (indexed from picks.now) }
{
    let (to, places) = index_map(alloc, from, picks)?;
    Ok(Index { from, to, places })
}

/// The entries of an array at these places.
#[derive(Clone, Copy)]
struct Picked<'a> {
    array: &'a Array,
    places: &'a [u32],
}

impl Entrywise for Picked<'_> {
    ghost can_form = { λ x k. k < length x.places.now };

    ghost formed = { λ x k. Ok (entry x.array.now (slice_index x.places.now k)) };

    fn form(&self, k: u32) -> Result<Frac, Passes> {
        Ok(entry(self.array, self.places[k as usize]))
    }
}

/// The entries that picks take of an array, with the faults of `index`.
pub fn pick(alloc: Global, a: &Array, picks: &[Pick]) -> Result<Array, ArrayFault>
    requires { All HasStep picks.now }
    ensures { Gives result (picked_array a.now picks.now) }
{
    let (shape, places) = index_map(alloc, a.shape, picks)?;
    let picked = Picked {
        array: a,
        places: places.as_slice(),
    };
    fill(alloc, shape, &picked)
}
