//! Arrays of given numbers, and the whole number that a number is.
ghost use Rattle.std.specs.Prelude.{◌≡◌, ◌<◌, length, Ok, IfOk};
ghost use Rattle.dcx_shape.specs.Sides.{entries_of};
ghost use Rattle.dcx_array.specs.Answers.{Gives};
ghost use Rattle.dcx_array.specs.Arrays.{number, array_with, constant, identity_entry, identity, whole_of};

use crate::fault::ArrayFault;
use crate::forming::{Entrywise, entry, fill};
use crate::shapes::allowed_shape;
use dcx_atom::Array;
use dcx_frac::{Frac, Fracs, Passes};
use dcx_shape::{Shape, Sides};
use std::alloc::{AllocError, Global};

/// The number as an array without a side.
pub fn number(alloc: Global, x: Frac) -> Result<Array, AllocError>
    ensures { IfOk result (λ a. a ≡ number x) }
{
    let entries = vec![in alloc; x]?;
    Ok(Array {
        shape: Shape::scalar(),
        entries: Fracs::from_vec(entries),
    })
}

/// The array of these sides with these numbers, as many as it has entries; `None` where there is none or more than 20,000.
/// Takes no memory.
pub fn array_with(sides: Sides, numbers: Vec<Frac>) -> Option<Array>
    requires { length numbers.items ≡ entries_of sides }
    ensures { result ≡ array_with sides numbers.items }
{
    let shape = allowed_shape(sides).ok()?;
    Some(Array {
        shape,
        entries: Fracs::from_vec(numbers),
    })
}

/// A number that stands everywhere.
#[derive(Clone, Copy)]
struct Everywhere {
    number: Frac,
}

impl Entrywise for Everywhere {
    ghost can_form = { λ _ _. Unit {0} };

    ghost formed = { λ x _. Ok x.number };

    fn form(&self, _k: u32) -> Result<Frac, Passes> {
        Ok(self.number)
    }
}

/// The array of these sides with the same number everywhere, as `np.ones` and `np.zeros` make it.
///
/// `Empty` where a side is 0, and `TooMany` where there would be more than 20,000 entries.
pub fn constant(alloc: Global, sides: Sides, x: Frac) -> Result<Array, ArrayFault>
    ensures { Gives result (constant sides x) }
{
    let shape = allowed_shape(sides)?;
    let everywhere = Everywhere { number: x };
    fill(alloc, shape, &everywhere)
}

/// The entries of a square matrix with 1 on its diagonal and 0 elsewhere.
#[derive(Clone, Copy)]
struct Diagonal {
    size: u32,
}

impl Entrywise for Diagonal {
    ghost can_form = { λ x _. 0 < x.size };

    ghost formed = { λ x k. Ok (identity_entry x.size k) };

    fn form(&self, k: u32) -> Result<Frac, Passes> {
        if k / self.size == k % self.size {
            Ok(Frac::one())
        } else {
            Ok(Frac::zero())
        }
    }
}

/// The square matrix with 1 on its diagonal and 0 elsewhere.
///
/// `Empty` where `n` is 0, and `TooMany` where there would be more than 20,000 entries.
pub fn identity(alloc: Global, n: u32) -> Result<Array, ArrayFault>
    ensures { Gives result (identity n) }
{
    let shape = allowed_shape(Sides::Matrix(n, n))?;
    let diagonal = Diagonal { size: n };
    fill(alloc, shape, &diagonal)
}

/// The whole number that a number is, however it was written; `None` of another number, a vector or a matrix.
pub fn as_whole(a: &Array) -> Option<i128>
    ensures { result ≡ whole_of a.now }
{
    let number = entry(a, 0);
    match a.shape.sides() {
        Sides::Scalar => {
            if number.den() <= 1 {
                Some(number.num())
            } else {
                None
            }
        }
        _ => None,
    }
}
