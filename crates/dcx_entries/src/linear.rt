//! The entries of a linear call, from the forms of its arguments.
ghost use Rattle.std.specs.Prelude.{◌≡◌, [], length, map, OnOk, slice_index_or};
ghost use Rattle.dcx_atom.specs.Linear.{linear_term};
ghost use Rattle.dcx_linear.specs.Stops.{Gives};
ghost use Rattle.dcx_entries.specs.Forming.{FormsEach, AtEntry, IsFormed};
ghost use Rattle.dcx_entries.specs.Parts.{zero_form, term_part};
ghost use Rattle.dcx_entries.specs.Entries.{LinearEntry};
ghost use Rattle.dcx_entries.specs.Standing.{args_of};

use crate::arguments::Arguments;
use crate::entries::{EntryForms, EntryList, push_entry};
use crate::stop::stop_at;
use crate::sums::add_terms;
use dcx_atom::{EntryTerms, Triple, ValueStop};
use dcx_linear::{Accumulator, Coef, CoefStop};
use std::alloc::Global;

/// An entry of a linear call. The accumulator is 0 before, and again where there is an answer.
fn linear_entry<C: Coef>(
    alloc: Global,
    sum: &mut Accumulator<C>,
    args: &Arguments<C>,
    terms: &[Triple],
) -> Result<EntryForms<C>, CoefStop>
    requires { sum.old ≡ zero_form C.of_number }
    ensures entry { Gives result (LinearEntry C.of_number C.number_of C.sum_gives C.change_gives (map (term_part (args_of C.of_number args.now)) (map linear_term terms.now))) }
    ensures zero { OnOk result (sum.new ≡ zero_form C.of_number) }
{
    add_terms(alloc, sum, args, terms)?;
    let form = sum.take(alloc)?;
    Ok(EntryForms::alone(alloc, form))
}

/// The entries of a linear call, in row-major order, from the terms of each.
///
/// `Passes` at the first entry where an operation passes 128 bits, with the first such operation.
pub fn linear_entries<C: Coef>(
    alloc: Global,
    args: &Arguments<C>,
    terms: &[EntryTerms],
    size: u32,
) -> Result<EntryList<C>, ValueStop>
    requires { length terms.now ≡ size }
    ensures { IsFormed result (FormsEach
        (λ j. AtEntry j (LinearEntry C.of_number C.number_of C.sum_gives C.change_gives (map (term_part (args_of C.of_number args.now)) (map linear_term (slice_index_or terms.now j []))))) size) }
{
    let mut sum = Accumulator::new(alloc);
    let mut entries = Vec::new(alloc);
    'entries: for j in 0..size {
        match linear_entry(alloc, &mut sum, args, terms[j as usize].as_slice()) {
            Ok(entry) => push_entry(&mut entries, entry)?,
            Err(stop) => return Err(stop_at(j, stop)),
        }
    }
    Ok(EntryList::from_vec(entries))
}
