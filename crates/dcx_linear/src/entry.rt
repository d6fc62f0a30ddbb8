//! The entries that a setting has for parameters.
ghost use Rattle.std.specs.Prelude.{◌≡◌, Some, IsSome};
ghost use Rattle.dcx_linear.specs.Parameters.{entry_of};

use dcx_frac::Frac;
use dcx_point::Setting;
use dcx_shape::Name;

/// The entry of the array under this name.
pub(crate) fn entry_at(setting: &Setting, name: &Name, entry: u32) -> Frac
    requires { IsSome (entry_of setting.now name.now entry) }
    ensures { entry_of setting.now name.now entry ≡ Some result }
{
    match setting.get(name) {
        None => unreachable!(),
        Some(array) => match array.entries.as_slice().get(entry as usize) {
            None => unreachable!(),
            Some(number) => *number,
        },
    }
}
