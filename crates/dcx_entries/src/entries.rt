//! The forms of a node's entries, and the rows of their graphs.
ghost use Rattle.std.specs.Prelude.{◌≡◌, [], ◌∷◌, ◌++◌, OnOk, IfErr};
ghost use Rattle.dcx_atom.specs.declared.stops.ValueStop.TheVariants.{Memory};

use dcx_atom::ValueStop;
use dcx_linear::{Coef, Form};
use dcx_math::List;
use std::alloc::Global;

/// Forms, in order.
pub type FormList<C> = List<Form<C>>;

/// An entry of a node: its form, and the rows of its graph.
#[derive(Drop)]
pub struct EntryForms<C: Coef> {
    /// The form.
    pub form: Form<C>,
    /// The forms that are at most 0.
    pub rows: FormList<C>,
}

impl<C: Coef> EntryForms<C> {
    ghost use Rattle.dcx_entries.specs.Entries.{alone};

    /// A form without rows. Takes no memory.
    pub fn alone(alloc: Global, form: Form<C>) -> EntryForms<C>
        ensures { result ≡ alone form }
    {
        EntryForms {
            form,
            rows: FormList::new(alloc),
        }
    }
}

/// Entries of a node, in row-major order.
pub type EntryList<C> = List<EntryForms<C>>;

/// Puts an entry at the end.
pub(crate) fn push_entry<C: Coef>(
    entries: &mut Vec<EntryForms<C>>,
    entry: EntryForms<C>,
) -> Result<(), ValueStop>
    ensures ok { OnOk result (entries.new.items ≡ entries.old.items ++ entry ∷ []) }
    ensures err { IfErr result (λ e. e ≡ Memory) }
{
    match entries.push(entry) {
        Ok(()) => Ok(()),
        Err(_) => Err(ValueStop::Memory),
    }
}
