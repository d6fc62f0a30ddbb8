//! Entries of plain arrays that are formed one after the other, up to the first operation that passes 128 bits.
ghost use Rattle.std.specs.Prelude.{◌≡◌, ℕ, ◌<◌, Result};
ghost use Rattle.dcx_frac.specs.declared.fraction.Frac.{Frac};
ghost use Rattle.dcx_frac.specs.declared.fraction.Passes.{Passes};
ghost use Rattle.dcx_shape.specs.Shape.{sides_of};
ghost use Rattle.dcx_shape.specs.Sides.{entries_of};
ghost use Rattle.dcx_array.specs.Answers.{Gives};
ghost use Rattle.dcx_array.specs.Arrays.{entry, formed_array};

use crate::fault::ArrayFault;
use dcx_atom::{Array, number_at};
use dcx_frac::{Frac, Fracs, Passes};
use dcx_shape::Shape;
use std::alloc::Global;

/// Entry `k` of an array, in row-major order, and 0 past its end.
pub(crate) fn entry(a: &Array, k: u32) -> Frac
    ensures { result ≡ entry a.now k }
{
    number_at(a.entries.as_slice(), k as usize)
}

/// Entries that are formed one by one.
pub(crate) trait Entrywise {
    /// Whether entry `k` may be asked for.
    ghost can_form: { Self → ℕ → Type 0 };

    /// Each entry, as it is formed.
    ghost formed: { Self → ℕ → Result Frac Passes };

    /// Entry `k`, or the operation that passes.
    fn form(&self, k: u32) -> Result<Frac, Passes>
        requires { can_form self.now k }
        ensures { result ≡ formed self.now k };
}

/// The array of these entries, or the first operation that passes.
pub(crate) fn fill<E: Entrywise>(
    alloc: Global,
    shape: Shape,
    entries: &E,
) -> Result<Array, ArrayFault>
    requires { (k : ℕ) → k < entries_of (sides_of shape) → E.can_form entries.now k }
    ensures { Gives result (formed_array shape (E.formed entries.now)) }
{
    let size = shape.size();
    let mut formed = Vec::with_capacity(alloc, size as usize)?;
    for k in 0..size {
        let number = entries.form(k)?;
        formed.push(number)?;
    }
    Ok(Array {
        shape,
        entries: Fracs::from_vec(formed),
    })
}
