//! What stands at an entry of an argument.
ghost use Rattle.std.specs.Prelude.{◌≡◌, IfOk};
ghost use Rattle.dcx_linear.specs.Changes.{IsAllowed};
ghost use Rattle.dcx_linear.specs.Forms.{change_gives_linear};
ghost use Rattle.dcx_linear.specs.Stops.{Gives};
ghost use Rattle.dcx_linear.specs.Multiples.{HasNumbers, multiple_gives};
ghost use Rattle.dcx_entries.specs.Parts.{number_in};
ghost use Rattle.dcx_entries.specs.Standing.{found_form};

use crate::numbers::number_or_zero;
use dcx_frac::Frac;
use dcx_linear::{Change, Coef, CoefStop, Form};
use std::alloc::{AllocError, Global};

/// What stands at an entry: the number of a node that is one by the rules, and else a form.
#[derive(Drop)]
pub enum Entry<'a, C: Coef> {
    /// A number.
    Number(Frac),
    /// A form.
    Whole(&'a Form<C>),
}

/// The form of an entry, multiplied or divided.
///
/// `Passes` where an operation passes 128 bits: the first one.
pub fn changed_entry<C: Coef>(
    alloc: Global,
    entry: &Entry<C>,
    change: Change,
) -> Result<Form<C>, CoefStop>
    requires { IsAllowed change }
    ensures { Gives result (change_gives_linear C.number_of C.change_gives change (found_form C.of_number entry.now)) }
{
    match entry {
        Entry::Number(number) => {
            Form::number(alloc, C::number(alloc, *number)).changed(alloc, change)
        }
        Entry::Whole(form) => form.changed(alloc, change),
    }
}

/// The number that an entry is, and 0 where it is none.
pub fn entry_number<C: Coef>(entry: &Entry<C>) -> Frac
    ensures { result ≡ number_in C.number_of (found_form C.of_number entry.now) }
{
    match entry {
        Entry::Number(number) => *number,
        Entry::Whole(form) => number_or_zero(&form.constant),
    }
}

/// The constant of an entry.
pub(crate) fn entry_constant<C: Coef>(alloc: Global, entry: &Entry<C>) -> Result<C, AllocError>
    ensures { IfOk result (λ c. c ≡ (found_form C.of_number entry.now).constant) }
{
    match entry {
        Entry::Number(number) => Ok(C::number(alloc, *number)),
        Entry::Whole(form) => form.constant.copy(alloc),
    }
}

/// An affine number times an entry, which has numbers.
///
/// `Passes` where an operation passes 128 bits: the first one.
pub(crate) fn multiple_of_entry<C: Coef>(
    alloc: Global,
    entry: &Entry<C>,
    coefficient: &C,
) -> Result<Form<C>, CoefStop>
    requires { HasNumbers C.number_of (found_form C.of_number entry.now) }
    ensures { Gives result (multiple_gives C.number_of C.change_gives coefficient.now (found_form C.of_number entry.now)) }
{
    match entry {
        Entry::Number(number) => {
            Form::number(alloc, C::number(alloc, *number)).multiple(alloc, coefficient)
        }
        Entry::Whole(form) => form.multiple(alloc, coefficient),
    }
}
