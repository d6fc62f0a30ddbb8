//! The sides of constraints, and the objective, among what stands for the nodes.
ghost use Rattle.std.specs.Prelude.{◌≡◌, IfOk};
ghost use Rattle.dcx_linear.specs.declared.change.Change.TheVariants.{Scale};
ghost use Rattle.dcx_linear.specs.Forms.{sum_gives_linear};
ghost use Rattle.dcx_linear.specs.Parts.{adds_part};
ghost use Rattle.dcx_linear.specs.Stops.{Gives};
ghost use Rattle.dcx_entries.specs.Standing.{all_forms, found_form};
ghost use Rattle.dcx_graph.specs.Program.{minus_one, form_at, Least};

use dcx_arena::NodeId;
use dcx_atom::minus_one;
use dcx_entries::{Entry, Standing, changed_entry, entry_at};
use dcx_frac::Frac;
use dcx_linear::{Change, Coef, CoefStop, Form};
use dcx_tree::Sense;
use std::alloc::{AllocError, Global};

/// What stands at an entry of a node, and 0 where there is none.
pub(crate) fn node_entry<'a, C: Coef>(
    standing: &'a [Standing<C>],
    node: NodeId,
    entry: u32,
) -> Entry<'a, C>
    ensures { found_form C.of_number result ≡ form_at C.of_number (all_forms C.of_number standing.now) node.0 entry }
{
    match standing.get(node.0 as usize) {
        Some(found) => entry_at(found, entry),
        None => Entry::Number(Frac::zero()),
    }
}

/// The form of an entry.
fn copied_entry<C: Coef>(alloc: Global, entry: &Entry<C>) -> Result<Form<C>, AllocError>
    ensures { IfOk result (λ f. f ≡ found_form C.of_number entry.now) }
{
    match entry {
        Entry::Number(number) => Ok(Form::number(alloc, C::number(alloc, *number))),
        Entry::Whole(form) => form.copy(alloc),
    }
}

/// The sum of the form of an entry and another one.
///
/// `Passes` where an operation passes 128 bits: the first one.
fn added_to_entry<C: Coef>(
    alloc: Global,
    entry: &Entry<C>,
    form: &Form<C>,
) -> Result<Form<C>, CoefStop>
    ensures { Gives result (sum_gives_linear C.number_of C.sum_gives (found_form C.of_number entry.now) form.now) }
{
    match entry {
        Entry::Number(number) => Form::number(alloc, C::number(alloc, *number)).add(alloc, form),
        Entry::Whole(left) => left.add(alloc, form),
    }
}

/// Left minus right at an entry: the right form is scaled by -1, and added to the left one.
///
/// `Passes` where an operation passes 128 bits: the first one.
pub(crate) fn difference<C: Coef>(
    alloc: Global,
    standing: &[Standing<C>],
    left: NodeId,
    right: NodeId,
    entry: u32,
) -> Result<Form<C>, CoefStop>
    ensures { Gives result (adds_part C.number_of C.sum_gives C.change_gives (form_at C.of_number (all_forms C.of_number standing.now) left.0 entry) (Scale minus_one)
        (form_at C.of_number (all_forms C.of_number standing.now) right.0 entry)) }
{
    let subtracted = node_entry(standing, right, entry);
    let negated = changed_entry(alloc, &subtracted, Change::Scale(minus_one()))?;
    added_to_entry(alloc, &node_entry(standing, left, entry), &negated)
}

/// What is to be small, where the form of the objective stands at an entry: what is to be large is scaled by -1.
///
/// `Passes` where an operation passes 128 bits: the first one.
pub(crate) fn least<C: Coef>(
    alloc: Global,
    sense: Sense,
    entry: &Entry<C>,
) -> Result<Form<C>, CoefStop>
    ensures { Gives result (Least C.number_of C.change_gives sense (found_form C.of_number entry.now)) }
{
    match sense {
        Sense::Minimize => Ok(copied_entry(alloc, entry)?),
        Sense::Maximize => changed_entry(alloc, entry, Change::Scale(minus_one())),
    }
}
