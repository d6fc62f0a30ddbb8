//! The entries of a parameter.
ghost use Rattle.std.specs.Prelude.{◌<◌, ℕ, Ok, IfOk};
ghost use Rattle.dcx_entries.specs.Forming.{FormsEach};
ghost use Rattle.dcx_entries.specs.Entries.{ParameterEntry};

use crate::entries::{EntryForms, EntryList};
use dcx_linear::{Coef, Form};
use dcx_point::Setting;
use dcx_shape::Name;
use std::alloc::{AllocError, Global};

/// The entries of a parameter of so many entries, given by its position in order of declaration and its name. Only memory may be
/// wanting.
pub fn parameter_entries<C: Coef>(
    alloc: Global,
    position: u32,
    name: &Name,
    size: u32,
    setting: &Setting,
) -> Result<EntryList<C>, AllocError>
    requires { (j : ℕ) → j < size → C.can_read setting.now name.now j }
    ensures { IfOk result (λ es. FormsEach (ParameterEntry C.parameter_gives position name.now setting.now) size (Ok es)) }
{
    let mut entries = Vec::new(alloc);
    'entries: for j in 0..size {
        let number = C::parameter(alloc, position, name, j, setting)?;
        entries.push(EntryForms::alone(alloc, Form::number(alloc, number)))?;
    }
    Ok(EntryList::from_vec(entries))
}
