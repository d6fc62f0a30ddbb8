//! What operators make of plain arrays.
ghost use Rattle.dcx_array.specs.Answers.{Gives as Answers};
ghost use Rattle.dcx_operators.specs.Operators.{plain_added, plain_scaled};

use dcx_array::{ArrayFault, add, divide, matmul, multiply, subtract};
use dcx_atom::Array;
use dcx_syntax::{Scaling, Sign};
use std::alloc::Global;

/// The sum or the difference of two plain arrays.
pub(crate) fn plain_added(
    alloc: Global,
    sign: Sign,
    left: &Array,
    right: &Array,
) -> Result<Array, ArrayFault>
    ensures { Answers result (plain_added sign left.now right.now) }
{
    match sign {
        Sign::Plus => add(alloc, left, right),
        Sign::Minus => subtract(alloc, left, right),
    }
}

/// The product or the quotient of two plain arrays.
pub(crate) fn plain_scaled(
    alloc: Global,
    scaling: Scaling,
    left: &Array,
    right: &Array,
) -> Result<Array, ArrayFault>
    ensures { Answers result (plain_scaled scaling left.now right.now) }
{
    match scaling {
        Scaling::Times => multiply(alloc, left, right),
        Scaling::Over => divide(alloc, left, right),
        Scaling::Matmul => matmul(alloc, left, right),
    }
}
