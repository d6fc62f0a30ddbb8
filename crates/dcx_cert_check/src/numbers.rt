//! The numbers of an array that may be missing.
ghost use Rattle.std.specs.Prelude.{◌≡◌};
ghost use Rattle.std.specs.Option.{option_copied};
ghost use Rattle.dcx_frac.specs.Frac.{value};
ghost use Rattle.dcx_atom.specs.Arrays.{number_at};
ghost use Rattle.dcx_cert_check.specs.Numbers.{number_if};

use dcx_atom::{Array, number_at};
use dcx_frac::Frac;

/// Entry `entry` of an array; 0 past its end, and where there is no array.
pub(crate) fn number_in(array: Option<&Array>, entry: u32) -> Frac
    ensures { value result ≡ number_if (option_copied array.entry) entry }
{
    match array {
        Some(array) => entry_of(array, entry),
        None => Frac::zero(),
    }
}

/// Entry `entry` of an array, and 0 past its end.
pub(crate) fn entry_of(array: &Array, entry: u32) -> Frac
    ensures { value result ≡ number_at array.now.entries entry }
{
    number_at(array.entries.as_slice(), entry as usize)
}
