//! Products and quotients: the shape, and the pairs of entries of which each entry is made.
ghost use Rattle.std.specs.Prelude.{◌≡◌, ◌+◌, ◌*◌, ◌<◌, ◌≤◌, [], ◌∷◌, if◌then◌else◌, IsSome, IfOk, IfSome, option_map};
ghost use Rattle.dcx_shape.specs.Shape.{sides_of};
ghost use Rattle.dcx_shape.specs.Sides.{cols_of, entries_of};
ghost use Rattle.dcx_atom.specs.Arrays.{list_below, same_sides};
ghost use Rattle.dcx_affine.specs.Pairing.{paired_sides, product_sides, pairs_at, product_pair, met_row, met_column, in_column};

use dcx_atom::same_shape;
use dcx_math::List;
use dcx_shape::{Shape, Sides, matmul_shape};
use std::alloc::{AllocError, Global};

/// How two arrays are multiplied or divided.
#[derive(Clone, Copy, PartialEq, Eq)]
pub enum Pairing {
    /// Entry by entry.
    Times,
    /// As matrices.
    MatTimes,
    /// The quotient, entry by entry.
    Over,
}

/// An entry of the left side and one of the right side.
#[derive(Clone, Copy)]
pub struct Pair {
    /// The entry of the left side, in row-major order.
    pub left: u32,
    /// The entry of the right side.
    pub right: u32,
}

/// The pairs of which one entry of a result is made, in the order of the sum.
pub type EntryPairs = List<Pair>;

/// For each entry of a result its pairs.
pub type Pairs = List<EntryPairs>;

impl Pairing {
    /// The shape of the result; `None` where the sides don't fit, or the result would have more than 20,000 entries.
    pub fn shape(&self, a: Shape, b: Shape) -> Option<Shape>
        ensures { option_map sides_of result ≡ paired_sides self.now (sides_of a) (sides_of b) }
    {
        match self {
            Pairing::Times => alike(a, b),
            Pairing::MatTimes => matmul_shape(a, b),
            Pairing::Over => alike(a, b),
        }
    }

    /// For each entry of the result the pairs whose products are summed, or the pair that is divided.
    pub fn pairs(&self, alloc: Global, a: Shape, b: Shape) -> Result<Pairs, AllocError>
        requires { IsSome (paired_sides self.now (sides_of a) (sides_of b)) }
        ensures { IfOk result (λ t. IfSome (paired_sides self.now (sides_of a) (sides_of b)) (λ s. t ≡ list_below (entries_of s) (pairs_at self.now (sides_of a) (sides_of b)))) }
    {
        let size = self.shape(a, b).unwrap().size();
        let mut lists = Vec::with_capacity(alloc, size as usize)?;
        for k in 0..size {
            lists.push(self.entry_pairs(alloc, a, b, k)?)?;
        }
        Ok(Pairs::from_vec(lists))
    }

    /// The pairs of entry `k`.
    fn entry_pairs(
        &self,
        alloc: Global,
        a: Shape,
        b: Shape,
        k: u32,
    ) -> Result<EntryPairs, AllocError>
        requires shape { IsSome (paired_sides self.now (sides_of a) (sides_of b)) }
        requires entry { IfSome (paired_sides self.now (sides_of a) (sides_of b)) (λ s. k < entries_of s) }
        ensures { IfOk result (λ t. t ≡ pairs_at self.now (sides_of a) (sides_of b) k) }
    {
        match self {
            Pairing::Times => one_pair(alloc, k),
            Pairing::MatTimes => product_pairs(alloc, a, b, k),
            Pairing::Over => one_pair(alloc, k),
        }
    }
}

/// The shape of both, where it is the same.
fn alike(a: Shape, b: Shape) -> Option<Shape>
    ensures { option_map sides_of result ≡ (if same_sides (sides_of a) (sides_of b) then Some (sides_of a) else None) }
{
    if same_shape(a, b) { Some(a) } else { None }
}

/// Entry `k` of both sides.
fn one_pair(alloc: Global, k: u32) -> Result<EntryPairs, AllocError>
    ensures { IfOk result (λ t. t ≡ record { left = k; right = k } ∷ []) }
{
    let pairs = vec![in alloc; Pair { left: k, right: k }]?;
    Ok(EntryPairs::from_vec(pairs))
}

/// The pairs of entry `k` of a matrix product.
fn product_pairs(alloc: Global, a: Shape, b: Shape, k: u32) -> Result<EntryPairs, AllocError>
    requires shape { IsSome (product_sides (sides_of a) (sides_of b)) }
    requires entry { IfSome (product_sides (sides_of a) (sides_of b)) (λ s. k < entries_of s) }
    ensures { IfOk result (λ t. t ≡ pairs_at Pairing.MatTimes (sides_of a) (sides_of b) k) }
{
    let inner = a.cols();
    let mut pairs = Vec::with_capacity(alloc, inner as usize)?;
    for t in 0..inner {
        pairs.push(product_pair(a, b, k, t))?;
    }
    Ok(EntryPairs::from_vec(pairs))
}

/// Pair `t` of entry `k` of a matrix product.
pub fn product_pair(a: Shape, b: Shape, k: u32, t: u32) -> Pair
    requires entry { k < 20000 }
    requires pair { t < cols_of (sides_of a) }
    ensures { result ≡ product_pair (sides_of a) (sides_of b) k t }
{
    Pair {
        left: met_row(b, k) * a.cols() + t,
        right: in_column(b, met_column(b, k), t),
    }
}

/// The row of the left side that meets a column of the right side in entry `k`.
fn met_row(b: Shape, k: u32) -> u32
    ensures is { result ≡ met_row (sides_of b) k }
    ensures below { result ≤ k }
{
    match b.sides() {
        Sides::Scalar => 0,
        Sides::Vector(_) => k,
        Sides::Matrix(_, p) => k / p,
    }
}

/// That column.
fn met_column(b: Shape, k: u32) -> u32
    ensures is { result ≡ met_column (sides_of b) k }
    ensures below { result ≤ k }
{
    match b.sides() {
        Sides::Scalar => 0,
        Sides::Vector(_) => 0,
        Sides::Matrix(_, p) => k % p,
    }
}

/// Entry `t` of a column of the right side.
fn in_column(b: Shape, column: u32, t: u32) -> u32
    requires column { column < 20000 }
    requires entry { t ≤ 20000 }
    ensures { result ≡ in_column (sides_of b) column t }
{
    match b.sides() {
        Sides::Scalar => 0,
        Sides::Vector(_) => t,
        Sides::Matrix(_, p) => t * p + column,
    }
}
