//! The entries of a variable: its unknowns.
ghost use Rattle.std.specs.Prelude.{◌≡◌, [], ◌∷◌, ◌++◌, map, IfOk, OnOk};
ghost use Rattle.dcx_entries.specs.Parts.{form_of_unknown};
ghost use Rattle.dcx_entries.specs.Entries.{alone};

use crate::entries::{EntryForms, EntryList};
use dcx_linear::{Coef, Form};
use std::alloc::{AllocError, Global};

/// An unknown as a form, and 0 where there is none.
fn form_of_unknown<C: Coef>(alloc: Global, unknown: Option<u32>) -> Result<Form<C>, AllocError>
    ensures { IfOk result (λ f. f ≡ form_of_unknown C.of_number unknown) }
{
    match unknown {
        Some(n) => Form::unknown(alloc, n),
        None => Ok(Form::number(alloc, C::zero(alloc))),
    }
}

/// Puts the entry of an unknown at the end.
fn push_unknown<C: Coef>(
    alloc: Global,
    entries: &mut Vec<EntryForms<C>>,
    unknown: Option<u32>,
) -> Result<(), AllocError>
    ensures { OnOk result (entries.new.items ≡ entries.old.items ++ alone (form_of_unknown C.of_number unknown) ∷ []) }
{
    let form = form_of_unknown(alloc, unknown)?;
    entries.push(EntryForms::alone(alloc, form))?;
    Ok(())
}

/// The entries of a variable, where these unknowns stand for them: 0 where there is none. Only memory may be wanting.
pub fn variable_entries<C: Coef>(
    alloc: Global,
    unknowns: &[Option<u32>],
) -> Result<EntryList<C>, AllocError>
    ensures { IfOk result (λ es. es ≡ map (λ u. alone (form_of_unknown C.of_number u)) unknowns.now) }
{
    let mut entries = Vec::new(alloc);
    'unknowns: for unknown in unknowns {
        push_unknown(alloc, &mut entries, *unknown)?;
    }
    Ok(EntryList::from_vec(entries))
}
