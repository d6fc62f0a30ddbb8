//! Indices of an array, as NumPy has them.
ghost use Rattle.std.specs.Prelude.{◌≡◌, ◌<◌, ◌≤◌, ◌+◌, ◌*◌, ◌↔◌, ℕ, IfOk, IfErr, IsOkUnless, length, slice_index, slice_index_or, [], ◌∷◌};
ghost use Rattle.std.specs.List.{All};
ghost use Rattle.dcx_shape.specs.Sides.{HasFewEntries, rank_of, rows_of, cols_of, entries_of};
ghost use Rattle.dcx_shape.specs.Shape.{sides_of};
ghost use Rattle.dcx_shape.specs.Places.{HasEntry, row_place};
ghost use Rattle.dcx_shape.specs.Run.{run_place, places_of};
ghost use Rattle.dcx_shape.specs.Index.{HasStep, whole_slice, Takes, IsPickFault, row_pick, column_pick, kept_sides, IsIndex, IsIndexFault, IsFirstFault, TakesBoth, IsCrossed};

use crate::fault::ShapeFault;
use crate::places::Places;
use crate::run::Run;
use crate::shape::{Shape, Sides};
use crate::slice::{Slice, count_on, slice_run};
use std::alloc::Global;

/// What an index picks of one side.
#[derive(Clone, Copy)]
pub enum Pick {
    /// One entry, which drops the side. A negative number counts from the end.
    At(i64),
    /// The entries of a slice, which keeps the side.
    Range(Slice),
}

/// The shape and the places of an index with these picks, from the outer side to the inner one; a side without a pick is
/// taken whole. No slice has the step 0.
///
/// `Clash` where there are more picks than sides. Else the first pick that takes nothing has its fault: `Range` where a
/// whole number is outside, `Empty` where a slice has no place.
pub fn index_map(alloc: Global, from: Shape, picks: &[Pick]) -> Result<(Shape, Places), ShapeFault>
    requires { All HasStep picks.now }
    ensures ok { IfOk result (λ r. IsIndex (sides_of from) picks.now (sides_of r.0) r.1) }
    ensures count { IfOk result (λ r. length r.1 ≡ entries_of (sides_of r.0)) }
    ensures within { IfOk result (λ r. All (λ p. p < entries_of (sides_of from)) r.1) }

    ensures clash { (result ≡ Err ShapeFault.Clash) ↔ (rank_of (sides_of from) < length picks.now) }
    ensures range { (result ≡ Err ShapeFault.Range) ↔ IsFirstFault (sides_of from) picks.now ShapeFault.Range }
    ensures empty { (result ≡ Err ShapeFault.Empty) ↔ IsFirstFault (sides_of from) picks.now ShapeFault.Empty }
{
    let (rows, columns) = picked(from, picks)?;
    let to = kept_shape(
        outer_pick(from, picks),
        rows.count,
        inner_pick(from, picks),
        columns.count,
    );
    let places = crossed(alloc, from, rows, columns)?;
    Ok((to, places))
}

/// The rows and the columns that the picks take.
fn picked(from: Shape, picks: &[Pick]) -> Result<(Run, Run), ShapeFault>
    requires { All HasStep picks.now }
    ensures ok { IfOk result (λ r. TakesBoth (sides_of from) picks.now (places_of r.0) (places_of r.1)) }
    ensures fault { IfErr result (IsIndexFault (sides_of from) picks.now) }
{
    if picks.len() > from.rank() as usize {
        return Err(ShapeFault::Clash);
    }
    let rows = pick_run(from.rows(), outer_pick(from, picks))?;
    let columns = pick_run(from.cols(), inner_pick(from, picks))?;
    Ok((rows, columns))
}

/// The pick of the rows.
fn outer_pick(from: Shape, picks: &[Pick]) -> Pick
    ensures { result ≡ row_pick (sides_of from) picks.now }
{
    match from.sides() {
        Sides::Scalar => Pick::At(0),
        Sides::Vector(_) => Pick::At(0),
        Sides::Matrix(_, _) => pick_or_whole(picks, 0),
    }
}

/// The pick of the columns.
fn inner_pick(from: Shape, picks: &[Pick]) -> Pick
    ensures { result ≡ column_pick (sides_of from) picks.now }
{
    match from.sides() {
        Sides::Scalar => Pick::At(0),
        Sides::Vector(_) => pick_or_whole(picks, 0),
        Sides::Matrix(_, _) => pick_or_whole(picks, 1),
    }
}

/// Pick `k`, or the whole side where there are fewer.
fn pick_or_whole(picks: &[Pick], k: usize) -> Pick
    ensures { result ≡ slice_index_or picks.now k (Pick.Range whole_slice) }
{
    let whole = Slice {
        start: None,
        stop: None,
        step: 1,
    };
    picks.get(k).copied().unwrap_or(Pick::Range(whole))
}

/// The places that a pick takes of a side of `size` entries.
fn pick_run(size: u32, pick: Pick) -> Result<Run, ShapeFault>
    requires { HasStep pick }
    ensures ok { IfOk result (λ run. Takes size pick (places_of run)) }
    ensures fault { IfErr result (IsPickFault size pick) }
{
    match pick {
        Pick::At(i) => {
            let place = count_on(size, i);
            if place < 0 || place >= size as i64 {
                return Err(ShapeFault::Range);
            }
            Ok(Run::one(place as u32))
        }
        Pick::Range(slice) => {
            let run = slice_run(size, slice);
            if run.count == 0 {
                return Err(ShapeFault::Empty);
            }
            Ok(run)
        }
    }
}

/// The shape of so many rows and columns that two picks take.
fn kept_shape(outer: Pick, rows: u32, inner: Pick, columns: u32) -> Shape
    requires { HasFewEntries (kept_sides outer rows inner columns) }
    ensures { sides_of result ≡ kept_sides outer rows inner columns }
{
    match (outer, inner) {
        (Pick::At(_), Pick::At(_)) => Shape::scalar(),
        (Pick::At(_), Pick::Range(_)) => Shape::vector(columns).unwrap(),
        (Pick::Range(_), Pick::At(_)) => Shape::vector(rows).unwrap(),
        (Pick::Range(_), Pick::Range(_)) => Shape::matrix(rows, columns).unwrap(),
    }
}

/// The entries in the rows and the columns that are taken, row by row.
fn crossed(alloc: Global, from: Shape, rows: Run, columns: Run) -> Result<Places, ShapeFault>
    requires rows { All (λ p. p < rows_of (sides_of from)) (places_of rows) }
    requires columns { All (λ p. p < cols_of (sides_of from)) (places_of columns) }
    requires few { rows.count * columns.count ≤ 20000 }
    ensures ok { IfOk result (IsCrossed (sides_of from) (places_of rows) (places_of columns)) }
    ensures fault { IsOkUnless result ShapeFault.Memory }
{
    let count = rows.count * columns.count;
    let mut places = Vec::with_capacity(alloc, count as usize).map_err(|_| ShapeFault::Memory)?;
    for k in 0..count {
        let row = rows.place(k / columns.count);
        let column = columns.place(k % columns.count);
        places
            .push(entry_place(from, row, column))
            .map_err(|_| ShapeFault::Memory)?;
    }
    Ok(Places::from_vec(places))
}

/// The place of an entry.
fn entry_place(shape: Shape, row: u32, column: u32) -> u32
    requires { HasEntry (sides_of shape) row column }
    ensures { result ≡ row_place (sides_of shape) row column }
{
    row * shape.cols() + column
}
