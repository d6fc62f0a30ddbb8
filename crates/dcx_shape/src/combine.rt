//! The shapes that come of two shapes: by broadcasting and by a matrix product.
ghost use Rattle.std.specs.Prelude.{◌≡◌, ◌<◌, ◌≤◌, ◌↔◌, ℕ, IsSome, IfSome};
ghost use Rattle.dcx_shape.specs.declared.shape.Sides.{Sides};
ghost use Rattle.dcx_shape.specs.Sides.{HasFewEntries};
ghost use Rattle.dcx_shape.specs.Shape.{sides_of};
ghost use Rattle.dcx_shape.specs.Broadcast.{IsJoinedSide, IsBroadcast, HasForm};
ghost use Rattle.dcx_shape.specs.Product.{IsProduct};

use crate::shape::{Shape, Sides};

/// The shape to which `a` and `b` broadcast; `None` where a pair of sides is unequal and neither is 1, or where there
/// would be more than 20,000 entries.
pub fn broadcast(a: Shape, b: Shape) -> Option<Shape>
    ensures exists { IsSome result ↔ ((c : Sides) × IsBroadcast (sides_of a) (sides_of b) c × HasFewEntries c) }
    ensures sides { IfSome result (λ c. IsBroadcast (sides_of a) (sides_of b) (sides_of c)) }
{
    let rows = joined_side(a.rows(), b.rows())?;
    let cols = joined_side(a.cols(), b.cols())?;
    shape_of_rank(a.rank().max(b.rank()), rows, cols)
}

/// The shape with so many sides, rows and columns; `None` where a side is 0 or there are more than 20,000 entries.
fn shape_of_rank(rank: u8, rows: u32, cols: u32) -> Option<Shape>
    requires most { rank ≤ 2 }
    requires one_row { rank < 2 → rows ≡ 1 }
    requires one_column { rank < 1 → cols ≡ 1 }
    ensures exists { IsSome result ↔ ((c : Sides) × HasForm rank rows cols c × HasFewEntries c) }
    ensures sides { IfSome result (λ c. HasForm rank rows cols (sides_of c)) }
{
    match rank {
        0 => Some(Shape::scalar()),
        1 => Shape::vector(cols),
        _ => Shape::matrix(rows, cols),
    }
}

/// The greater of two sides; `None` where they are unequal and neither is 1.
fn joined_side(m: u32, n: u32) -> Option<u32>
    ensures exists { IsSome result ↔ ((k : ℕ) × IsJoinedSide m n k) }
    ensures side { IfSome result (IsJoinedSide m n) }
{
    if m == n || m == 1 || n == 1 {
        Some(m.max(n))
    } else {
        None
    }
}

/// The shape of the matrix product `a @ b`; `None` where the inner sides differ, where one of them is a scalar, or where
/// there would be more than 20,000 entries.
pub fn matmul_shape(a: Shape, b: Shape) -> Option<Shape>
    ensures exists { IsSome result ↔ ((c : Sides) × IsProduct (sides_of a) (sides_of b) c × HasFewEntries c) }
    ensures sides { IfSome result (λ c. IsProduct (sides_of a) (sides_of b) (sides_of c)) }
{
    match (a.sides(), b.sides()) {
        (Sides::Vector(n), Sides::Vector(l)) if n == l => Some(Shape::scalar()),
        (Sides::Matrix(m, n), Sides::Vector(l)) if n == l => Shape::vector(m),
        (Sides::Vector(n), Sides::Matrix(l, p)) if n == l => Shape::vector(p),
        (Sides::Matrix(m, n), Sides::Matrix(l, p)) if n == l => Shape::matrix(m, p),
        _ => None,
    }
}
