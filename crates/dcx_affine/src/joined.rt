//! Joining arrays side by side, and one below the other.
ghost use Rattle.std.specs.Prelude.{◌≡◌, ◌*◌, ◌/◌, ◌<◌, ◌≤◌, IfOk, length, map, option_map, pos};
ghost use Rattle.std.specs.List.{list_all};
ghost use Rattle.dcx_math.specs.Rational.{whole};
ghost use Rattle.dcx_shape.specs.Shape.{sides_of};
ghost use Rattle.dcx_shape.specs.Sides.{cols_of};
ghost use Rattle.dcx_shape.specs.Places.{row_place};
ghost use Rattle.dcx_atom.specs.Arrays.{sides_list, sides_at, list_below};
ghost use Rattle.dcx_atom.specs.Linear.{linear_term};
ghost use Rattle.dcx_affine.specs.Added.{term};
ghost use Rattle.dcx_affine.specs.Joined.{is_flat, has_rows, has_columns, lined_up, hstack_sides, hstack_term, hstack_meaning, vstack_sides, vstack_term, vstack_meaning};
ghost use Rattle.dcx_affine.specs.JoinedLaws.{hstack_linear, hstack_sign, hstack_trend, vstack_linear, vstack_sign, vstack_trend};

use crate::added::{common_sign, one_term, term};
use crate::slots::{Line, Slot};
use crate::strided::rising;
use dcx_atom::{Frac, LinearOp, Sign, Terms, Trend, Triple};
use dcx_shape::Shape;
use std::alloc::{AllocError, Global};

/// Arrays side by side: scalars and vectors become one vector, matrices one matrix.
#[derive(Clone, Copy, PartialEq, Eq)]
pub struct HStack;

/// Arrays one below the other; a scalar or a vector is a row.
#[derive(Clone, Copy, PartialEq, Eq)]
pub struct VStack;

/// The shape of arrays side by side.
fn hstack_shape(args: &[Shape]) -> Option<Shape>
    ensures { option_map sides_of result ≡ hstack_sides (sides_list args.now) }
{
    let rows = args.first()?.rows();
    let total = Line::Column.total(args)?;
    if are_flat(args) {
        Shape::vector(total)
    } else if have_rows(args, rows) {
        Shape::matrix(rows, total)
    } else {
        None
    }
}

/// The shape of arrays one below the other.
fn vstack_shape(args: &[Shape]) -> Option<Shape>
    ensures { option_map sides_of result ≡ vstack_sides (sides_list args.now) }
{
    let cols = args.first()?.cols();
    let total = Line::Row.total(args)?;
    if have_columns(args, cols) {
        Shape::matrix(total, cols)
    } else {
        None
    }
}

/// Whether a shape is that of a scalar or a vector.
fn is_flat(shape: Shape) -> bool
    ensures { result ≡ is_flat (sides_of shape) }
{
    shape.rank() <= 1
}

/// Whether it is that of a matrix with so many rows.
fn has_rows(shape: Shape, rows: u32) -> bool
    ensures { result ≡ has_rows rows (sides_of shape) }
{
    shape.rank() == 2 && shape.rows() == rows
}

/// Whether it has so many columns.
fn has_columns(shape: Shape, cols: u32) -> bool
    ensures { result ≡ has_columns cols (sides_of shape) }
{
    shape.cols() == cols
}

/// Whether all are scalars and vectors.
fn are_flat(args: &[Shape]) -> bool
    ensures { result ≡ list_all (λ s. is_flat (sides_of s)) args.now }
{
    args.iter().all(|shape| is_flat(*shape))
}

/// Whether all are matrices with so many rows.
fn have_rows(args: &[Shape], rows: u32) -> bool
    ensures { result ≡ list_all (λ s. has_rows rows (sides_of s)) args.now }
{
    args.iter().all(|shape| has_rows(*shape, rows))
}

/// Whether all have so many columns.
fn have_columns(args: &[Shape], cols: u32) -> bool
    ensures { result ≡ list_all (λ s. has_columns cols (sides_of s)) args.now }
{
    args.iter().all(|shape| has_columns(*shape, cols))
}

/// The entry in row `row` and column `column` of an argument.
fn entry_of(args: &[Shape], argument: u32, row: u32, column: u32) -> Triple
    requires argument { argument < length args.now }
    requires row { row ≤ 20000 }
    requires column { column ≤ 20000 }
    ensures { linear_term result ≡ term argument (row_place (sides_at (sides_list args.now) argument) row column) (whole (pos 1)) }
{
    let cols = args[argument as usize].cols();
    term(argument, row * cols + column, Frac::one())
}

/// The term of entry `k` of arrays side by side, from their columns.
fn hstack_term(args: &[Shape], columns: &[Slot], k: u32) -> Triple
    requires columns { columns.now ≡ lined_up Line.Column 0 (sides_list args.now) }
    requires some { 0 < length columns.now }
    requires few { length columns.now ≤ 20000 }
    requires entry { k < 20000 }
    ensures { linear_term result ≡ hstack_term (sides_list args.now) k }
{
    let total = columns.len() as u32;
    let slot = columns[(k % total) as usize];
    entry_of(args, slot.argument, k / total, slot.place)
}

/// The term of entry `k` of arrays one below the other, from their rows.
fn vstack_term(args: &[Shape], rows: &[Slot], cols: u32, k: u32) -> Triple
    requires rows { rows.now ≡ lined_up Line.Row 0 (sides_list args.now) }
    requires columns { cols ≡ cols_of (sides_at (sides_list args.now) 0) }
    requires some { 0 < cols }
    requires few { cols ≤ 20000 }
    requires row { k / cols < length rows.now }
    ensures { linear_term result ≡ vstack_term (sides_list args.now) k }
{
    let slot = rows[(k / cols) as usize];
    entry_of(args, slot.argument, slot.place, k % cols)
}

/// The terms of arrays side by side, from their columns.
fn hstack_terms(
    alloc: Global,
    args: &[Shape],
    columns: &[Slot],
    size: u32,
) -> Result<Terms, AllocError>
    requires columns { columns.now ≡ lined_up Line.Column 0 (sides_list args.now) }
    requires some { 0 < length columns.now }
    requires few { length columns.now ≤ 20000 }
    requires size { size ≤ 20000 }
    ensures { IfOk result (λ t. map (map linear_term) t ≡ list_below size (hstack_meaning.terms (sides_list args.now))) }
{
    let mut lists = Vec::with_capacity(alloc, size as usize)?;
    for k in 0..size {
        lists.push(one_term(alloc, hstack_term(args, columns, k))?)?;
    }
    Ok(Terms::from_vec(lists))
}

/// The terms of arrays one below the other, from their rows.
fn vstack_terms(
    alloc: Global,
    args: &[Shape],
    rows: &[Slot],
    cols: u32,
) -> Result<Terms, AllocError>
    requires rows { rows.now ≡ lined_up Line.Row 0 (sides_list args.now) }
    requires columns { cols ≡ cols_of (sides_at (sides_list args.now) 0) }
    requires some { 0 < cols }
    requires few { cols ≤ 20000 }
    requires size { length rows.now * cols ≤ 20000 }
    ensures { IfOk result (λ t. map (map linear_term) t ≡ list_below (length rows.now * cols) (vstack_meaning.terms (sides_list args.now))) }
{
    let size = rows.len() as u32 * cols;
    let mut lists = Vec::with_capacity(alloc, size as usize)?;
    for k in 0..size {
        lists.push(one_term(alloc, vstack_term(args, rows, cols, k))?)?;
    }
    Ok(Terms::from_vec(lists))
}

impl LinearOp for HStack {
    ghost meaning = { λ _. hstack_meaning };

    ghost linearity = { λ _. hstack_linear };

    ghost sign_law = { λ _. hstack_sign };

    ghost monotonicity = { λ _. hstack_trend };

    fn shape(&self, args: &[Shape]) -> Option<Shape> {
        hstack_shape(args)
    }

    fn trend(&self, _i: usize) -> Trend {
        rising()
    }

    fn sign(&self, args: &[Sign]) -> Sign {
        common_sign(args)
    }

    fn map(&self, alloc: Global, args: &[Shape]) -> Result<Terms, AllocError> {
        let size = hstack_shape(args).unwrap().size();
        let columns = Line::Column.slots(alloc, args)?;
        hstack_terms(alloc, args, &columns, size)
    }
}

impl LinearOp for VStack {
    ghost meaning = { λ _. vstack_meaning };

    ghost linearity = { λ _. vstack_linear };

    ghost sign_law = { λ _. vstack_sign };

    ghost monotonicity = { λ _. vstack_trend };

    fn shape(&self, args: &[Shape]) -> Option<Shape> {
        vstack_shape(args)
    }

    fn trend(&self, _i: usize) -> Trend {
        rising()
    }

    fn sign(&self, args: &[Sign]) -> Sign {
        common_sign(args)
    }

    fn map(&self, alloc: Global, args: &[Shape]) -> Result<Terms, AllocError> {
        let rows = Line::Row.slots(alloc, args)?;
        vstack_terms(alloc, args, &rows, args[0].cols())
    }
}
