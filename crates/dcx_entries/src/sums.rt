//! Sums of parts: each part is multiplied or divided whole, and added in its turn.
ghost use Rattle.std.specs.Prelude.{◌≡◌, ◌<◌, ◌+◌, ◌^◌, map};
ghost use Rattle.std.specs.List.{All};
ghost use Rattle.dcx_atom.specs.Graph.{row_term, form_term};
ghost use Rattle.dcx_atom.specs.Linear.{linear_term};
ghost use Rattle.dcx_linear.specs.declared.change.Change.TheVariants.{Scale};
ghost use Rattle.dcx_linear.specs.Changes.{IsAllowed};
ghost use Rattle.dcx_linear.specs.Stops.{GivesBy};
ghost use Rattle.dcx_linear.specs.Parts.{adds_part, adds_parts};
ghost use Rattle.dcx_entries.specs.Parts.{unknown_form, term_part, aux_part, row_part};
ghost use Rattle.dcx_entries.specs.Sums.{adds};
ghost use Rattle.dcx_entries.specs.Standing.{args_of, IsOperand};

use crate::arguments::{Arguments, changed_argument};
use dcx_atom::{AuxTerm, GraphTerm, Operand, Triple};
use dcx_frac::Frac;
use dcx_linear::{Accumulator, Change, Coef, CoefStop, Form};
use std::alloc::Global;

/// Adds an entry of an argument, multiplied or divided.
pub(crate) fn add_entry<C: Coef>(
    alloc: Global,
    sum: &mut Accumulator<C>,
    args: &Arguments<C>,
    argument: u32,
    entry: u32,
    change: Change,
) -> Result<(), CoefStop>
    requires { IsAllowed change }
    ensures { GivesBy result (λ _. sum.new) (adds_part C.number_of C.sum_gives C.change_gives sum.old change (args_of C.of_number args.now argument entry)) }
{
    let part = changed_argument(alloc, args, argument, entry, change)?;
    sum.add(alloc, part)
}

/// Adds an unknown times a fraction.
fn add_unknown<C: Coef>(
    alloc: Global,
    sum: &mut Accumulator<C>,
    unknown: u32,
    by: Frac,
) -> Result<(), CoefStop>
    ensures { GivesBy result (λ _. sum.new) (adds_part C.number_of C.sum_gives C.change_gives sum.old (Scale by) (unknown_form C.of_number unknown)) }
{
    let form: Form<C> = Form::unknown(alloc, unknown)?;
    sum.add_changed(alloc, Change::Scale(by), &form)
}

/// Adds a term of a linear call.
fn add_term<C: Coef>(
    alloc: Global,
    sum: &mut Accumulator<C>,
    args: &Arguments<C>,
    term: Triple,
) -> Result<(), CoefStop>
    ensures { GivesBy result (λ _. sum.new) (adds C.number_of C.sum_gives C.change_gives (term_part (args_of C.of_number args.now) (linear_term term)) sum.old) }
{
    let change = Change::Scale(term.coefficient);
    add_entry(alloc, sum, args, term.argument, term.entry, change)
}

/// Adds a term of a result of a graph whose auxiliary unknowns begin with `first`.
fn add_aux<C: Coef>(
    alloc: Global,
    sum: &mut Accumulator<C>,
    first: u32,
    term: AuxTerm,
) -> Result<(), CoefStop>
    requires { first + term.aux < 2 ^ 32 }
    ensures { GivesBy result (λ _. sum.new) (adds C.number_of C.sum_gives C.change_gives (aux_part C.of_number first (form_term term)) sum.old) }
{
    add_unknown(alloc, sum, first + term.aux, term.coefficient)
}

/// Adds a term of a row of a graph whose auxiliary unknowns begin with `first`.
fn add_operand<C: Coef>(
    alloc: Global,
    sum: &mut Accumulator<C>,
    args: &Arguments<C>,
    first: u32,
    term: GraphTerm,
) -> Result<(), CoefStop>
    requires { IsOperand first term.operand }
    ensures { GivesBy result (λ _. sum.new) (adds C.number_of C.sum_gives C.change_gives (row_part C.of_number (args_of C.of_number args.now) first (row_term term)) sum.old) }
{
    match term.operand {
        Operand::Argument { argument, entry } => {
            let change = Change::Scale(term.coefficient);
            add_entry(alloc, sum, args, argument, entry, change)
        }
        Operand::Aux(k) => add_unknown(alloc, sum, first + k, term.coefficient),
    }
}

/// Adds the terms of an entry of a linear call, in order.
pub(crate) fn add_terms<C: Coef>(
    alloc: Global,
    sum: &mut Accumulator<C>,
    args: &Arguments<C>,
    terms: &[Triple],
) -> Result<(), CoefStop>
    ensures { GivesBy result (λ _. sum.new) (adds_parts C.number_of C.sum_gives C.change_gives (map (term_part (args_of C.of_number args.now)) (map linear_term terms.now)) sum.old) }
{
    'terms: for term in terms {
        add_term(alloc, sum, args, *term)?;
    }
    Ok(())
}

/// Adds the terms of a result of a graph whose auxiliary unknowns begin with `first`, in order.
pub(crate) fn add_result<C: Coef>(
    alloc: Global,
    sum: &mut Accumulator<C>,
    first: u32,
    terms: &[AuxTerm],
) -> Result<(), CoefStop>
    requires { All (λ t. first + t.aux < 2 ^ 32) terms.now }
    ensures { GivesBy result (λ _. sum.new) (adds_parts C.number_of C.sum_gives C.change_gives (map (aux_part C.of_number first) (map form_term terms.now)) sum.old) }
{
    'terms: for term in terms {
        add_aux(alloc, sum, first, *term)?;
    }
    Ok(())
}

/// Adds the terms of a row of a graph whose auxiliary unknowns begin with `first`, in order.
pub(crate) fn add_row<C: Coef>(
    alloc: Global,
    sum: &mut Accumulator<C>,
    args: &Arguments<C>,
    first: u32,
    terms: &[GraphTerm],
) -> Result<(), CoefStop>
    requires { All (λ t. IsOperand first t.operand) terms.now }
    ensures { GivesBy result (λ _. sum.new) (adds_parts C.number_of C.sum_gives C.change_gives (map (row_part C.of_number (args_of C.of_number args.now) first) (map row_term terms.now)) sum.old) }
{
    'terms: for term in terms {
        add_operand(alloc, sum, args, first, *term)?;
    }
    Ok(())
}
