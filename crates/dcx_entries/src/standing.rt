//! What stands for a node while a problem is reduced.
ghost use Rattle.std.specs.Prelude.{◌≡◌};
ghost use Rattle.dcx_entries.specs.Standing.{entry_of, found_form};

use crate::entries::EntryList;
use crate::entry::Entry;
use dcx_atom::Array;
use dcx_frac::Frac;
use dcx_linear::Coef;

/// What stands for a node: its value, where it is a number by the rules, and else a form for each entry.
#[derive(Drop)]
pub enum Standing<C: Coef> {
    /// The value.
    Numbers(Array),
    /// The forms, in row-major order.
    Forms(EntryList<C>),
}

/// What stands at an entry of a node, and 0 past its end.
pub fn entry_at<C: Coef>(standing: &Standing<C>, entry: u32) -> Entry<'_, C>
    ensures { found_form C.of_number result ≡ entry_of C.of_number standing.now entry }
{
    match standing {
        Standing::Numbers(array) => match array.entries.as_slice().get(entry as usize) {
            Some(number) => Entry::Number(*number),
            None => Entry::Number(Frac::zero()),
        },
        Standing::Forms(list) => match list.as_slice().get(entry as usize) {
            Some(found) => Entry::Whole(&found.form),
            None => Entry::Number(Frac::zero()),
        },
    }
}
