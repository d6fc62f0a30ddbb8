//! The rows of the graph of a node, which are kept apart from its forms.
ghost use Rattle.std.specs.Prelude.{◌≡◌, ◌<◌, ◌≤◌, ◌+◌, ◌++◌, ◌^◌, [], ◌∷◌, length, IfOk, OnOk};
ghost use Rattle.dcx_shape.specs.declared.shape.Sides.{Sides};
ghost use Rattle.dcx_entries.specs.Entries.{entry_forms};
ghost use Rattle.dcx_entries.specs.Kept.{entry_rows, node_rows};
ghost use Rattle.dcx_entries.specs.Parts.{zero_form};
ghost use Rattle.dcx_entries.specs.Standing.{forms_of};
ghost use Rattle.dcx_nodes.specs.Formed.{IsOfSides, entries_in};

use dcx_atom::ValueStop;
use dcx_entries::{EntryForms, EntryList, FormList, FormedRow, Standing};
use dcx_linear::{Coef, Form};
use dcx_tree::NodeId;
use std::alloc::Global;
use std::mem;

/// The number of the next row. No memory holds 2^32 rows.
fn after(row: u32) -> Result<u32, ValueStop>
    ensures { IfOk result (λ n. n ≡ row + 1) }
{
    match row.checked_add(1) {
        Some(next) => Ok(next),
        None => Err(ValueStop::Memory),
    }
}

/// Adds a row of an entry of a node.
fn push_row<C: Coef>(
    rows: &mut Vec<FormedRow<C>>,
    node: NodeId,
    entry: u32,
    row: u32,
    form: Form<C>,
) -> Result<(), ValueStop>
    ensures { OnOk result (rows.new.items ≡ rows.old.items ++ record { node = node; entry = entry; row = row; form = form } ∷ []) }
{
    let made = FormedRow {
        node,
        entry,
        row,
        form,
    };
    match rows.push(made) {
        Ok(()) => Ok(()),
        Err(_) => Err(ValueStop::Memory),
    }
}

/// Adds the rows of an entry of a node, in order.
fn push_rows<C: Coef>(
    rows: &mut Vec<FormedRow<C>>,
    node: NodeId,
    entry: u32,
    own: FormList<C>,
) -> Result<(), ValueStop>
    ensures { OnOk result (rows.new.items ≡ rows.old.items ++ entry_rows C.of_number node.0 entry (record { form = zero_form C.of_number; rows = own })) }
{
    let mut row = 0u32;
    'rows: for form in own.into_vec() {
        push_row(rows, node, entry, row, form)?;
        row = after(row)?;
    }
    Ok(())
}

/// Takes the rows of entry `j` of a node out and adds them.
fn take_entry<C: Coef>(
    alloc: Global,
    rows: &mut Vec<FormedRow<C>>,
    node: NodeId,
    j: u32,
    entry: &mut EntryForms<C>,
) -> Result<(), ValueStop>
    ensures form { entry.new.form ≡ entry.old.form }
    ensures rows { OnOk result (rows.new.items ≡ rows.old.items ++ entry_rows C.of_number node.0 j entry.old) }
{
    let own = mem::replace(&mut entry.rows, FormList::new(alloc));
    push_rows(rows, node, j, own)
}

/// Takes the rows of the entries of a node out and adds them, by entry.
fn take_rows<C: Coef>(
    alloc: Global,
    rows: &mut Vec<FormedRow<C>>,
    node: NodeId,
    entries: &mut [EntryForms<C>],
) -> Result<(), ValueStop>
    requires { length entries.old < 2 ^ 32 }
    ensures forms { OnOk result (entry_forms entries.new ≡ entry_forms entries.old) }
    ensures rows { OnOk result (rows.new.items ≡ rows.old.items ++ node_rows C.of_number node.0 entries.old) }
{
    'entries: for (j, entry) in entries.iter_mut().enumerate() {
        take_entry(alloc, rows, node, j as u32, entry)?;
    }
    Ok(())
}

/// Takes the rows of a node out and adds them, and gives back what stands for the node without them.
pub(crate) fn keep<C: Coef>(
    alloc: Global,
    rows: &mut Vec<FormedRow<C>>,
    node: NodeId,
    formed: Standing<C>,
) -> Result<Standing<C>, ValueStop>
    requires { length (entries_in C.of_number formed) < 2 ^ 32 }
    ensures forms { IfOk result (λ s. forms_of C.of_number s ≡ forms_of C.of_number formed) }
    ensures sides { IfOk result (λ s. (sides : Sides) → IsOfSides sides formed → IsOfSides sides s) }
    ensures rows { OnOk result (rows.new.items ≡ rows.old.items ++ node_rows C.of_number node.0 (entries_in C.of_number formed)) }
{
    match formed {
        Standing::Numbers(array) => Ok(Standing::Numbers(array)),
        Standing::Forms(list) => {
            let mut entries = list.into_vec();
            take_rows(alloc, rows, node, &mut entries)?;
            Ok(Standing::Forms(EntryList::from_vec(entries)))
        }
    }
}
