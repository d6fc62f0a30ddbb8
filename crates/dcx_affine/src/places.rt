//! Calls whose entries are entries of the argument: indices, reshapes, transposes, diagonals and promotion.
ghost use Rattle.std.specs.Prelude.{◌≡◌, ◌+◌, ◌/◌, ◌%◌, ◌^◌, ◌<◌, ◌≤◌, true, length};
ghost use Rattle.std.specs.List.{All};
ghost use Rattle.dcx_shape.specs.Shape.{sides_of};
ghost use Rattle.dcx_shape.specs.Sides.{cols_of, entries_of};
ghost use Rattle.dcx_shape.specs.Places.{column_place};
ghost use Rattle.dcx_affine.specs.Strided.{one_entry, no_entry, strided_meaning};
ghost use Rattle.dcx_affine.specs.StridedLaws.{strided_linear, strided_sign, strided_trend};
ghost use Rattle.dcx_affine.specs.Places.{limited, stretches, promotes, stretched, promoted_place, place_in_order, transposed_place};
ghost use Rattle.dcx_affine.specs.Places.{index_call, reshape_call, transpose_call, diag_call, promote_call};
ghost use Rattle.dcx_affine.specs.PlaceLaws.{index_is, reshape_is, transpose_is, diag_is, promote_is};

use crate::strided::{Strided, rising, strided_map, strided_shape};
use dcx_atom::{Frac, LinearOp, Sign, Stride, Terms, Trend, first_sign, same_shape};
use dcx_shape::{Places, Shape, Sides};
use std::alloc::{AllocError, Global};

/// One entry alone.
fn one_entry(place: u32) -> Stride
    ensures { result ≡ one_entry place }
{
    Stride {
        first: place,
        step: 1,
        count: 1,
    }
}

/// No entry.
fn no_entry() -> Stride
    ensures { result ≡ no_entry }
{
    Stride {
        first: 0,
        step: 1,
        count: 0,
    }
}

/// The entries at given places of an argument of a given shape.
#[derive(Drop)]
pub struct Index {
    /// The shape of the argument.
    pub from: Shape,
    /// The shape of the result.
    pub to: Shape,
    /// For each entry of the result the place of the argument's entry.
    pub places: Places,
    ghost count: { length places ≡ entries_of (sides_of to) },
    ghost within: { All (λ p. p < entries_of (sides_of from)) places },
}

impl Strided for Index {
    ghost call = { λ x. index_call (sides_of x.from) (sides_of x.to) x.places };

    fn result(&self, from: Shape) -> Option<Shape> {
        if same_shape(from, self.from) {
            Some(self.to)
        } else {
            None
        }
    }

    fn coefficient(&self, _from: Shape) -> Frac {
        Frac::one()
    }

    fn stride(&self, _from: Shape, k: u32) -> Stride {
        one_entry(self.places.as_slice()[k as usize])
    }
}

impl LinearOp for Index {
    ghost meaning = { λ x. strided_meaning (index_call (sides_of x.from) (sides_of x.to) x.places) };

    ghost linearity = { λ x. strided_linear (index_call (sides_of x.from) (sides_of x.to) x.places) (index_is (sides_of x.from) (sides_of x.to) x.places) };

    ghost sign_law = { λ x. strided_sign (index_call (sides_of x.from) (sides_of x.to) x.places) (index_is (sides_of x.from) (sides_of x.to) x.places) };

    ghost monotonicity = { λ x. strided_trend (index_call (sides_of x.from) (sides_of x.to) x.places) (index_is (sides_of x.from) (sides_of x.to) x.places) };

    fn shape(&self, args: &[Shape]) -> Option<Shape> {
        strided_shape(self, args)
    }

    fn trend(&self, _i: usize) -> Trend {
        rising()
    }

    fn sign(&self, args: &[Sign]) -> Sign {
        first_sign(args)
    }

    fn map(&self, alloc: Global, args: &[Shape]) -> Result<Terms, AllocError> {
        strided_map(alloc, self, args)
    }
}

/// The entries in the same order, row by row or column by column, in another shape of as many entries.
#[derive(Clone, Copy, PartialEq, Eq)]
pub struct Reshape {
    /// The shape of the result.
    pub to: Shape,
    /// Whether both shapes are read column by column.
    pub by_columns: bool,
}

/// The place of entry `p` in the order of the columns.
fn place_by_columns(shape: Shape, p: u32) -> u32
    requires { p < entries_of (sides_of shape) }
    ensures place { result ≡ place_in_order true (sides_of shape) p }
    ensures within { result < entries_of (sides_of shape) }
{
    let rows = shape.rows();
    let cols = shape.cols();
    p % rows * cols + p / rows
}

/// The place in the order of the columns of the entry that stands at `k`.
fn column_place(shape: Shape, k: u32) -> u32
    requires { k < entries_of (sides_of shape) }
    ensures place { result ≡ column_place (sides_of shape) (k / cols_of (sides_of shape)) (k % cols_of (sides_of shape)) }
    ensures within { result < entries_of (sides_of shape) }
{
    let rows = shape.rows();
    let cols = shape.cols();
    k % cols * rows + k / cols
}

impl Strided for Reshape {
    ghost call = { λ x. reshape_call (sides_of x.to) x.by_columns };

    fn result(&self, from: Shape) -> Option<Shape> {
        if from.size() == self.to.size() {
            Some(self.to)
        } else {
            None
        }
    }

    fn coefficient(&self, _from: Shape) -> Frac {
        Frac::one()
    }

    fn stride(&self, from: Shape, k: u32) -> Stride {
        if self.by_columns {
            one_entry(place_by_columns(from, column_place(self.to, k)))
        } else {
            one_entry(k)
        }
    }
}

impl LinearOp for Reshape {
    ghost meaning = { λ x. strided_meaning (reshape_call (sides_of x.to) x.by_columns) };

    ghost linearity = { λ x. strided_linear (reshape_call (sides_of x.to) x.by_columns) (reshape_is (sides_of x.to) x.by_columns) };

    ghost sign_law = { λ x. strided_sign (reshape_call (sides_of x.to) x.by_columns) (reshape_is (sides_of x.to) x.by_columns) };

    ghost monotonicity = { λ x. strided_trend (reshape_call (sides_of x.to) x.by_columns) (reshape_is (sides_of x.to) x.by_columns) };

    fn shape(&self, args: &[Shape]) -> Option<Shape> {
        strided_shape(self, args)
    }

    fn trend(&self, _i: usize) -> Trend {
        rising()
    }

    fn sign(&self, args: &[Sign]) -> Sign {
        first_sign(args)
    }

    fn map(&self, alloc: Global, args: &[Shape]) -> Result<Terms, AllocError> {
        strided_map(alloc, self, args)
    }
}

/// Where the entry stands that is entry `k` of the transpose.
pub fn transposed_place(from: Shape, k: u32) -> u32
    requires { k < entries_of (sides_of from) }
    ensures is { result ≡ transposed_place (sides_of from) k }
    ensures fits { result + 1 < 2 ^ 32 }
{
    match from.sides() {
        Sides::Matrix(m, n) => k % m * n + k / m,
        _ => k,
    }
}

/// A matrix turned over its diagonal; a scalar and a vector stay as they are.
#[derive(Clone, Copy, PartialEq, Eq)]
pub struct Transpose;

impl Strided for Transpose {
    ghost call = { λ _. transpose_call };

    fn result(&self, from: Shape) -> Option<Shape> {
        match from.sides() {
            Sides::Matrix(m, n) => Shape::matrix(n, m),
            _ => Some(from),
        }
    }

    fn coefficient(&self, _from: Shape) -> Frac {
        Frac::one()
    }

    fn stride(&self, from: Shape, k: u32) -> Stride {
        one_entry(transposed_place(from, k))
    }
}

impl LinearOp for Transpose {
    ghost meaning = { λ _. strided_meaning transpose_call };

    ghost linearity = { λ _. strided_linear transpose_call transpose_is };

    ghost sign_law = { λ _. strided_sign transpose_call transpose_is };

    ghost monotonicity = { λ _. strided_trend transpose_call transpose_is };

    fn shape(&self, args: &[Shape]) -> Option<Shape> {
        strided_shape(self, args)
    }

    fn trend(&self, _i: usize) -> Trend {
        rising()
    }

    fn sign(&self, args: &[Sign]) -> Sign {
        first_sign(args)
    }

    fn map(&self, alloc: Global, args: &[Shape]) -> Result<Terms, AllocError> {
        strided_map(alloc, self, args)
    }
}

/// The square matrix with a vector on its diagonal and 0 elsewhere, or the diagonal of a square matrix.
#[derive(Clone, Copy, PartialEq, Eq)]
pub struct Diag;

impl Strided for Diag {
    ghost call = { λ _. diag_call };

    fn result(&self, from: Shape) -> Option<Shape> {
        match from.sides() {
            Sides::Vector(n) => Shape::matrix(n, n),
            Sides::Matrix(m, n) if m == n => Shape::vector(n),
            _ => None,
        }
    }

    fn coefficient(&self, _from: Shape) -> Frac {
        Frac::one()
    }

    fn stride(&self, from: Shape, k: u32) -> Stride {
        match from.sides() {
            Sides::Scalar => one_entry(k),
            Sides::Vector(n) => {
                if k / n == k % n {
                    one_entry(k / n)
                } else {
                    no_entry()
                }
            }
            Sides::Matrix(_, n) => one_entry(k * n + k),
        }
    }
}

impl LinearOp for Diag {
    ghost meaning = { λ _. strided_meaning diag_call };

    ghost linearity = { λ _. strided_linear diag_call diag_is };

    ghost sign_law = { λ _. strided_sign diag_call diag_is };

    ghost monotonicity = { λ _. strided_trend diag_call diag_is };

    fn shape(&self, args: &[Shape]) -> Option<Shape> {
        strided_shape(self, args)
    }

    fn trend(&self, _i: usize) -> Trend {
        rising()
    }

    fn sign(&self, args: &[Sign]) -> Sign {
        first_sign(args)
    }

    fn map(&self, alloc: Global, args: &[Shape]) -> Result<Terms, AllocError> {
        strided_map(alloc, self, args)
    }
}

/// An argument broadcast to a shape: its sides of length 1 are repeated.
#[derive(Clone, Copy, PartialEq, Eq)]
pub struct Promote {
    /// The shape of the result.
    pub to: Shape,
}

/// Whether a side is that of the result, or 1.
fn stretches(n: u32, m: u32) -> bool
    ensures { result ≡ stretches n m }
{
    n == m || n == 1
}

/// The row or column of the argument: a side of 1 stands for each.
fn stretched(n: u32, i: u32) -> u32
    ensures is { result ≡ stretched n i }
    ensures below { result ≤ i }
{
    if n == 1 { 0 } else { i }
}

/// Where the entry stands that is entry `k` of the array broadcast to a shape.
pub fn promoted_place(from: Shape, to: Shape, k: u32) -> u32
    requires { k < entries_of (sides_of to) }
    ensures is { result ≡ promoted_place (sides_of from) (sides_of to) k }
    ensures fits { result + 1 < 2 ^ 32 }
{
    let row = stretched(from.rows(), k / to.cols());
    let column = stretched(from.cols(), k % to.cols());
    row * from.cols() + column
}

impl Strided for Promote {
    ghost call = { λ x. promote_call (sides_of x.to) };

    fn result(&self, from: Shape) -> Option<Shape> {
        if from.rank() <= self.to.rank()
            && (stretches(from.rows(), self.to.rows()) && stretches(from.cols(), self.to.cols()))
        {
            Some(self.to)
        } else {
            None
        }
    }

    fn coefficient(&self, _from: Shape) -> Frac {
        Frac::one()
    }

    fn stride(&self, from: Shape, k: u32) -> Stride {
        one_entry(promoted_place(from, self.to, k))
    }
}

impl LinearOp for Promote {
    ghost meaning = { λ x. strided_meaning (promote_call (sides_of x.to)) };

    ghost linearity = { λ x. strided_linear (promote_call (sides_of x.to)) (promote_is (sides_of x.to)) };

    ghost sign_law = { λ x. strided_sign (promote_call (sides_of x.to)) (promote_is (sides_of x.to)) };

    ghost monotonicity = { λ x. strided_trend (promote_call (sides_of x.to)) (promote_is (sides_of x.to)) };

    fn shape(&self, args: &[Shape]) -> Option<Shape> {
        strided_shape(self, args)
    }

    fn trend(&self, _i: usize) -> Trend {
        rising()
    }

    fn sign(&self, args: &[Sign]) -> Sign {
        first_sign(args)
    }

    fn map(&self, alloc: Global, args: &[Shape]) -> Result<Terms, AllocError> {
        strided_map(alloc, self, args)
    }
}
