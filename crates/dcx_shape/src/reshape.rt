//! Reshaping an array, by rows or by columns.
ghost use Rattle.std.specs.Prelude.{◌≡◌, ◌≢◌, ◌<◌, ◌⊎◌, ◌↔◌, IfOk, IfErr};
ghost use Rattle.std.specs.List.{All};
ghost use Rattle.std.specs.List.Sorted.{IsPermutation};
ghost use Rattle.dcx_shape.specs.Sides.{entries_of};
ghost use Rattle.dcx_shape.specs.Shape.{sides_of};
ghost use Rattle.dcx_shape.specs.Places.{places_below, TurnsPlace};
ghost use Rattle.dcx_shape.specs.Reshape.{IsReshape, IsSource};

use crate::fault::ShapeFault;
use crate::places::Places;
use crate::shape::Shape;
use std::alloc::Global;

/// The places of a reshape from `from` to `to`, which reads and writes the entries row by row, or column by column.
///
/// `Clash` where the sizes differ.
pub fn reshape_map(
    alloc: Global,
    from: Shape,
    to: Shape,
    by_columns: bool,
) -> Result<Places, ShapeFault>
    ensures ok { IfOk result (IsReshape by_columns (sides_of from) (sides_of to)) }
    ensures permutation { IfOk result (IsPermutation (places_below (entries_of (sides_of from)))) }
    ensures within { IfOk result (All (λ p. p < entries_of (sides_of from))) }

    ensures clash { (result ≡ Err ShapeFault.Clash) ↔ (entries_of (sides_of from) ≢ entries_of (sides_of to)) }
    ensures fault { IfErr result (λ e. (e ≡ ShapeFault.Clash) ⊎ (e ≡ ShapeFault.Memory)) }
{
    let size = to.size();
    if from.size() != size {
        return Err(ShapeFault::Clash);
    }
    let mut places = Vec::with_capacity(alloc, size as usize).map_err(|_| ShapeFault::Memory)?;
    for k in 0..size {
        places
            .push(source(from, to, by_columns, k))
            .map_err(|_| ShapeFault::Memory)?;
    }
    Ok(Places::from_vec(places))
}

/// The entry of the source that is entry `k` of the result.
fn source(from: Shape, to: Shape, by_columns: bool, k: u32) -> u32
    requires sizes { entries_of (sides_of from) ≡ entries_of (sides_of to) }
    requires entry { k < entries_of (sides_of to) }
    ensures source { IsSource by_columns (sides_of from) (sides_of to) k result }
{
    if by_columns {
        row_place(from, column_place(to, k))
    } else {
        k
    }
}

/// The place down the columns of the entry that has this place along the rows.
fn column_place(shape: Shape, place: u32) -> u32
    requires { place < entries_of (sides_of shape) }
    ensures turned { TurnsPlace (sides_of shape) place result }
    ensures within { result < entries_of (sides_of shape) }
{
    let cols = shape.cols();
    let row = place / cols;
    let column = place % cols;
    column * shape.rows() + row
}

/// The place along the rows of the entry that has this place down the columns.
fn row_place(shape: Shape, place: u32) -> u32
    requires { place < entries_of (sides_of shape) }
    ensures turned { TurnsPlace (sides_of shape) result place }
    ensures within { result < entries_of (sides_of shape) }
{
    let rows = shape.rows();
    let column = place / rows;
    let row = place % rows;
    row * shape.cols() + column
}
