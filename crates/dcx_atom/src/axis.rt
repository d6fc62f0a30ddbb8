//! Along which side a call folds its argument, and which entries become one.
ghost use Rattle.std.specs.Prelude.{◌≡◌, ◌+◌, ◌*◌, ◌<◌, ◌≤◌, ◌⊎◌, IfSome, option_map};
ghost use Rattle.dcx_shape.specs.Shape.{sides_of};
ghost use Rattle.dcx_shape.specs.Sides.{entries_of};
ghost use Rattle.dcx_atom.specs.Axis.{folded, folded_stride, folded_count};

use dcx_shape::{Shape, Sides};

/// Along which side a call folds its argument.
#[derive(Clone, Copy, PartialEq, Eq)]
pub enum Axis {
    /// All entries become one.
    All,
    /// The rows become one row: of a matrix each column is folded, of a vector all entries.
    Zero,
    /// The columns become one: of a matrix each row is folded.
    One,
}

/// Entries at equal steps: `first`, `first + step`, .., so many.
#[derive(Clone, Copy)]
pub struct Stride {
    /// The first entry.
    pub first: u32,
    /// From one entry to the next.
    pub step: u32,
    /// How many entries.
    pub count: u32,
}

impl Axis {
    /// The shape that is left of an argument; `None` where it has no such side.
    pub fn folded(self, from: Shape) -> Option<Shape>
        ensures { option_map sides_of result ≡ folded self (sides_of from) }
    {
        match (self, from.sides()) {
            (Axis::All, _) => Some(Shape::scalar()),
            (Axis::Zero, Sides::Vector(_)) => Some(Shape::scalar()),
            (Axis::Zero, Sides::Matrix(_, n)) => Shape::vector(n),
            (Axis::One, Sides::Matrix(m, _)) => Shape::vector(m),
            _ => None,
        }
    }

    /// How many entries of an argument become one.
    pub fn folded_count(self, from: Shape) -> u32
        ensures count { result ≡ folded_count self (sides_of from) }
        ensures some { 0 < result }
        ensures most { result ≤ 20000 }
    {
        match (self, from.sides()) {
            (Axis::Zero, Sides::Matrix(m, _)) => m,
            (Axis::One, Sides::Matrix(_, n)) => n,
            _ => from.size(),
        }
    }

    /// The entries of an argument that become entry `k`.
    pub fn stride(self, from: Shape, k: u32) -> Stride
        requires { IfSome (folded self (sides_of from)) (λ s. k < entries_of s) }
        ensures { result ≡ folded_stride self (sides_of from) k }
    {
        match (self, from.sides()) {
            (Axis::Zero, Sides::Matrix(m, n)) => Stride {
                first: k,
                step: n,
                count: m,
            },
            (Axis::One, Sides::Matrix(_, n)) => Stride {
                first: k * n,
                step: 1,
                count: n,
            },
            _ => Stride {
                first: 0,
                step: 1,
                count: from.size(),
            },
        }
    }
}
