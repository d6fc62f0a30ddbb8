//! What is demanded of the entries of variables.
use crate::calls::variable;
use crate::lines::{CaseFault, array};
use crate::parts::{put_shown, put_word};
use dcx_atom::Array;
use dcx_domain::outside;
use std::alloc::Global;

/// `ATTRIBUTE WHOLE | ARRAY => ENTRY`: the first entry that leaves what is demanded of a variable, or `inside`.
pub(crate) fn put_demands(
    alloc: Global,
    first: &str,
    rest: &[&str],
    out: &mut String,
) -> Result<(), CaseFault> {
    match *rest {
        [numbers] => {
            let array = array(alloc, numbers)?;
            put_outside(alloc, first, &array, out)
        }
        _ => Err(CaseFault::Unreadable),
    }
}

/// Writes the first entry that leaves what is demanded.
fn put_outside(
    alloc: Global,
    demands: &str,
    array: &Array,
    out: &mut String,
) -> Result<(), CaseFault> {
    let first = outside(&variable(alloc, "x", demands, array.shape)?, array);
    match first {
        Some(entry) => put_shown(out, &entry),
        None => put_word(out, "inside"),
    }
}
