//! The shape of an array of numbers, as NumPy has it.
ghost use Rattle.dcx_shape.specs.Sides.{HasFewEntries};

/// The most entries of an array.
pub const MOST_ENTRIES: u32 = 20_000;

/// How long the sides of an array are, from the outer one to the inner one.
#[derive(Clone, Copy, Debug, PartialEq, Eq)]
pub enum Sides {
    /// One number, with no side.
    Scalar,
    /// A list of so many numbers.
    Vector(u32),
    /// So many rows of so many numbers.
    Matrix(u32, u32),
}

/// The sides of an array of 1 to 20,000 entries.
#[derive(Clone, Copy, Debug, PartialEq, Eq)]
pub struct Shape {
    sides: Sides,
    ghost few: { HasFewEntries sides },
}

impl Shape {
    ghost use Rattle.std.specs.Prelude.{◌≡◌, ◌<◌, ◌≤◌, ◌↔◌, IsSome, IfSome};
    ghost use Rattle.dcx_shape.specs.Sides.{HasFewEntries, rank_of, rows_of, cols_of, entries_of};
    ghost use Rattle.dcx_shape.specs.Shape.{sides_of};

    /// The shape of one number.
    pub fn scalar() -> Shape
        ensures { sides_of result ≡ Sides.Scalar }
    {
        Shape {
            sides: Sides::Scalar,
        }
    }

    /// The shape of a list of `n` numbers; `None` where `n` is 0 or above 20,000.
    pub fn vector(n: u32) -> Option<Shape>
        ensures exists { IsSome result ↔ HasFewEntries (Sides.Vector n) }
        ensures sides { IfSome result (λ s. sides_of s ≡ Sides.Vector n) }
    {
        if n == 0 || n > MOST_ENTRIES {
            return None;
        }
        Some(Shape {
            sides: Sides::Vector(n),
        })
    }

    /// The shape of `m` rows of `n` numbers; `None` where a side is 0 or there are more than 20,000 entries.
    pub fn matrix(m: u32, n: u32) -> Option<Shape>
        ensures exists { IsSome result ↔ HasFewEntries (Sides.Matrix m n) }
        ensures sides { IfSome result (λ s. sides_of s ≡ Sides.Matrix m n) }
    {
        let size = m.checked_mul(n)?;
        if size == 0 || size > MOST_ENTRIES {
            return None;
        }
        Some(Shape {
            sides: Sides::Matrix(m, n),
        })
    }

    /// The sides, from the outer one to the inner one.
    pub fn sides(&self) -> Sides
        ensures { result ≡ sides_of self.now }
    {
        self.sides
    }

    /// How many sides there are: 0 of a scalar, 1 of a vector, 2 of a matrix.
    pub fn rank(&self) -> u8
        ensures { result ≡ rank_of (sides_of self.now) }
    {
        match self.sides {
            Sides::Scalar => 0,
            Sides::Vector(_) => 1,
            Sides::Matrix(_, _) => 2,
        }
    }

    /// The number of rows: 1 of a scalar and of a vector.
    pub fn rows(&self) -> u32
        ensures { result ≡ rows_of (sides_of self.now) }
    {
        match self.sides {
            Sides::Matrix(m, _) => m,
            _ => 1,
        }
    }

    /// The number of columns: 1 of a scalar, n of a vector of n.
    pub fn cols(&self) -> u32
        ensures { result ≡ cols_of (sides_of self.now) }
    {
        match self.sides {
            Sides::Scalar => 1,
            Sides::Vector(n) => n,
            Sides::Matrix(_, n) => n,
        }
    }

    /// The number of entries, from 1 to 20,000.
    pub fn size(&self) -> u32
        ensures value { result ≡ entries_of (sides_of self.now) }
        ensures some { 0 < result }
        ensures most { result ≤ 20000 }
    {
        match self.sides {
            Sides::Scalar => 1,
            Sides::Vector(n) => n,
            Sides::Matrix(m, n) => m * n,
        }
    }
}
