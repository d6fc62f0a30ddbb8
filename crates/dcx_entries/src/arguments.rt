//! The arguments of a node, among what stands for the nodes before it.
ghost use Rattle.std.specs.Prelude.{◌≡◌, IfOk};
ghost use Rattle.dcx_linear.specs.Changes.{IsAllowed};
ghost use Rattle.dcx_linear.specs.Forms.{change_gives_linear};
ghost use Rattle.dcx_linear.specs.Stops.{Gives};
ghost use Rattle.dcx_linear.specs.Multiples.{HasNumbers, multiple_gives};
ghost use Rattle.dcx_entries.specs.Parts.{number_in};
ghost use Rattle.dcx_entries.specs.Standing.{args_of, found_form};

use crate::entry::{Entry, changed_entry, entry_constant, entry_number, multiple_of_entry};
use crate::standing::{Standing, entry_at};
use dcx_arena::NodeId;
use dcx_frac::Frac;
use dcx_linear::{Change, Coef, CoefStop, Form};
use std::alloc::{AllocError, Global};

/// What stands for the nodes so far, and which of them are the arguments of a node.
#[derive(Drop)]
pub struct Arguments<'a, C: Coef> {
    /// What stands for the nodes, in order.
    pub standing: &'a [Standing<C>],
    /// The arguments, in order.
    pub ids: &'a [NodeId],
}

/// What stands at an entry of an argument, and 0 where there is no such argument or entry.
pub(crate) fn argument_at<'a, C: Coef>(
    args: &Arguments<'a, C>,
    argument: u32,
    entry: u32,
) -> Entry<'a, C>
    ensures { found_form C.of_number result ≡ args_of C.of_number args.now argument entry }
{
    match args.ids.get(argument as usize) {
        Some(node) => match args.standing.get(node.0 as usize) {
            Some(standing) => entry_at(standing, entry),
            None => Entry::Number(Frac::zero()),
        },
        None => Entry::Number(Frac::zero()),
    }
}

/// The form of an entry of an argument, multiplied or divided.
///
/// `Passes` where an operation passes 128 bits: the first one.
pub(crate) fn changed_argument<C: Coef>(
    alloc: Global,
    args: &Arguments<C>,
    argument: u32,
    entry: u32,
    change: Change,
) -> Result<Form<C>, CoefStop>
    requires { IsAllowed change }
    ensures { Gives result (change_gives_linear C.number_of C.change_gives change (args_of C.of_number args.now argument entry)) }
{
    changed_entry(alloc, &argument_at(args, argument, entry), change)
}

/// The number that an entry of an argument is, and 0 where it is none.
pub(crate) fn argument_number<C: Coef>(args: &Arguments<C>, argument: u32, entry: u32) -> Frac
    ensures { result ≡ number_in C.number_of (args_of C.of_number args.now argument entry) }
{
    entry_number(&argument_at(args, argument, entry))
}

/// The constant of an entry of an argument.
pub(crate) fn argument_constant<C: Coef>(
    alloc: Global,
    args: &Arguments<C>,
    argument: u32,
    entry: u32,
) -> Result<C, AllocError>
    ensures { IfOk result (λ c. c ≡ (args_of C.of_number args.now argument entry).constant) }
{
    entry_constant(alloc, &argument_at(args, argument, entry))
}

/// An affine number times an entry of an argument, which has numbers.
///
/// `Passes` where an operation passes 128 bits: the first one.
pub(crate) fn multiple_of_argument<C: Coef>(
    alloc: Global,
    args: &Arguments<C>,
    argument: u32,
    entry: u32,
    coefficient: &C,
) -> Result<Form<C>, CoefStop>
    requires { HasNumbers C.number_of (args_of C.of_number args.now argument entry) }
    ensures { Gives result (multiple_gives C.number_of C.change_gives coefficient.now (args_of C.of_number args.now argument entry)) }
{
    multiple_of_entry(alloc, &argument_at(args, argument, entry), coefficient)
}
