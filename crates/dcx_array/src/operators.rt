//! Sums, differences, products and quotients of plain arrays, entry by entry.
ghost use Rattle.std.specs.Prelude.{◌≡◌, ◌≢◌, ◌<◌, false, pos};
ghost use Rattle.std.specs.List.{list_any};
ghost use Rattle.dcx_math.specs.Rational.{whole};
ghost use Rattle.dcx_frac.specs.Frac.{value};
ghost use Rattle.dcx_shape.specs.Shape.{sides_of};
ghost use Rattle.dcx_shape.specs.Sides.{entries_of};
ghost use Rattle.dcx_array.specs.Answers.{Gives};
ghost use Rattle.dcx_array.specs.Operators.{entry_beside, operated, entrywise, added, subtracted, multiplied, is_zero, divided};

use crate::fault::ArrayFault;
use crate::forming::{Entrywise, entry, fill};
use crate::shapes::shared_shape;
use dcx_affine::promoted_place;
use dcx_atom::Array;
use dcx_frac::{Frac, Passes};
use dcx_shape::Shape;
use std::alloc::Global;

/// What is formed of two numbers.
#[derive(Clone, Copy)]
pub(crate) enum Operation {
    /// The left one and the right one together.
    Sum,
    /// The left one less the right one.
    Difference,
    /// The left one times the right one.
    Product,
    /// The left one divided by the right one.
    Quotient,
}

impl Operation {
    /// What is formed of two numbers, or that it passes.
    fn of(self, x: Frac, y: Frac) -> Result<Frac, Passes>
        requires { self ≡ Operation.Quotient → value y ≢ whole (pos 0) }
        ensures { result ≡ operated self x y }
    {
        match self {
            Operation::Sum => x.add(y),
            Operation::Difference => x.sub(y),
            Operation::Product => x.mul(y),
            Operation::Quotient => x.div(y),
        }
    }
}

/// Two arrays beside each other, as broadcasting puts them.
#[derive(Clone, Copy)]
struct Beside<'a> {
    operation: Operation,
    left: &'a Array,
    right: &'a Array,
    to: Shape,
}

impl Entrywise for Beside<'_> {
    ghost use Rattle.dcx_array.specs.declared.operators.Operation.TheVariants.{Quotient};

    ghost can_form = { λ x k. (k < entries_of (sides_of x.to)) × (x.operation ≡ Quotient → value (entry_beside x.right.now (sides_of x.to) k) ≢ whole (pos 0)) };

    ghost formed = { λ x k. operated x.operation (entry_beside x.left.now (sides_of x.to) k) (entry_beside x.right.now (sides_of x.to) k) };

    fn form(&self, k: u32) -> Result<Frac, Passes> {
        let x = entry(self.left, promoted_place(self.left.shape, self.to, k));
        let y = entry(self.right, promoted_place(self.right.shape, self.to, k));
        self.operation.of(x, y)
    }
}

/// What an operation forms of each entry of one array and that of the other.
fn entrywise(alloc: Global, operation: Operation, a: &Array, b: &Array) -> Result<Array, ArrayFault>
    requires { operation ≡ Operation.Quotient → list_any is_zero b.now.entries ≡ false }
    ensures { Gives result (entrywise operation a.now b.now) }
{
    let to = shared_shape(a.shape, b.shape)?;
    let beside = Beside {
        operation,
        left: a,
        right: b,
        to,
    };
    fill(alloc, to, &beside)
}

/// `a + b`, entry by entry.
///
/// `Clash` where the shapes don't broadcast, `TooMany` where there would be more than 20,000 entries, and then `Wide` with
/// the first sum that passes 128 bits.
pub fn add(alloc: Global, a: &Array, b: &Array) -> Result<Array, ArrayFault>
    ensures { Gives result (added a.now b.now) }
{
    entrywise(alloc, Operation::Sum, a, b)
}

/// `a - b`, entry by entry.
///
/// `Clash` where the shapes don't broadcast, `TooMany` where there would be more than 20,000 entries, and then `Wide` with
/// the first difference that passes 128 bits.
pub fn subtract(alloc: Global, a: &Array, b: &Array) -> Result<Array, ArrayFault>
    ensures { Gives result (subtracted a.now b.now) }
{
    entrywise(alloc, Operation::Difference, a, b)
}

/// `a * b`, entry by entry.
///
/// `Clash` where the shapes don't broadcast, `TooMany` where there would be more than 20,000 entries, and then `Wide` with
/// the first product that passes 128 bits.
pub fn multiply(alloc: Global, a: &Array, b: &Array) -> Result<Array, ArrayFault>
    ensures { Gives result (multiplied a.now b.now) }
{
    entrywise(alloc, Operation::Product, a, b)
}

/// `a / b`, entry by entry.
///
/// `ZeroDivisor` where an entry of `b` is 0. Else `Clash` where the shapes don't broadcast, `TooMany` where there would be
/// more than 20,000 entries, and then `Wide` with the first quotient that passes 128 bits.
pub fn divide(alloc: Global, a: &Array, b: &Array) -> Result<Array, ArrayFault>
    ensures { Gives result (divided a.now b.now) }
{
    if has_zero(b.entries.as_slice()) {
        return Err(ArrayFault::ZeroDivisor);
    }
    entrywise(alloc, Operation::Quotient, a, b)
}

/// Whether a number is 0.
fn is_zero(number: &Frac) -> bool
    ensures { result ≡ is_zero number.now }
{
    number.is_zero()
}

/// Whether an entry is 0.
fn has_zero(numbers: &[Frac]) -> bool
    ensures { result ≡ list_any is_zero numbers.now }
{
    numbers.iter().any(|number| is_zero(number))
}
