//! The entries of a product or a quotient, from the forms of its sides.
ghost use Rattle.std.specs.Prelude.{◌≡◌, true, false, [], length, OnOk, slice_index_or};
ghost use Rattle.std.specs.List.{All, list_any};
ghost use Rattle.dcx_linear.specs.Multiples.{HasNumbers};
ghost use Rattle.dcx_linear.specs.Changes.{zero_test};
ghost use Rattle.dcx_linear.specs.Stops.{Gives, GivesBy};
ghost use Rattle.dcx_entries.specs.Forming.{FormsEach, IsFormed};
ghost use Rattle.dcx_entries.specs.Parts.{zero_form, has_zero_divisor};
ghost use Rattle.dcx_entries.specs.Sums.{adds_multiple, adds_pair, adds_each};
ghost use Rattle.dcx_entries.specs.Entries.{PairSum, PairEntry};
ghost use Rattle.dcx_entries.specs.Standing.{args_of, HasNumbersFor};

use crate::arguments::{Arguments, argument_constant, argument_number, multiple_of_argument};
use crate::entries::{EntryForms, EntryList, push_entry};
use crate::scaling::Scaling;
use crate::stop::stop_at;
use crate::sums::add_entry;
use dcx_affine::{EntryPairs, Pair};
use dcx_atom::ValueStop;
use dcx_linear::{Accumulator, Change, Coef, CoefStop};
use std::alloc::Global;

/// Adds an entry of an argument, which has numbers, times the constant of an entry of an argument.
fn add_multiple<C: Coef>(
    alloc: Global,
    sum: &mut Accumulator<C>,
    args: &Arguments<C>,
    scaler: (u32, u32),
    scaled: (u32, u32),
) -> Result<(), CoefStop>
    requires { HasNumbers C.number_of (args_of C.of_number args.now scaled.0 scaled.1) }
    ensures { GivesBy result (λ _. sum.new) (adds_multiple C.number_of C.sum_gives C.change_gives (args_of C.of_number args.now scaler.0 scaler.1).constant
        (args_of C.of_number args.now scaled.0 scaled.1) sum.old) }
{
    let coefficient = argument_constant(alloc, args, scaler.0, scaler.1)?;
    let part = multiple_of_argument(alloc, args, scaled.0, scaled.1, &coefficient)?;
    sum.add(alloc, part)
}

/// Whether a pair is divided by 0.
fn is_divided_by_zero<C: Coef>(args: &Arguments<C>, scaling: Scaling, pair: &Pair) -> bool
    ensures { result ≡ has_zero_divisor C.number_of scaling (args_of C.of_number args.now) pair.now }
{
    match scaling {
        Scaling::Divisor => argument_number(args, 1, pair.right).is_zero(),
        _ => false,
    }
}

/// Adds a pair of a product or a quotient.
fn add_pair<C: Coef>(
    alloc: Global,
    sum: &mut Accumulator<C>,
    args: &Arguments<C>,
    scaling: Scaling,
    pair: &Pair,
) -> Result<(), CoefStop>
    requires numbers { HasNumbersFor C.number_of scaling (args_of C.of_number args.now) pair.now }
    requires nonzero { has_zero_divisor C.number_of scaling (args_of C.of_number args.now) pair.now ≡ false }
    ensures { GivesBy result (λ _. sum.new) (adds_pair C.number_of C.sum_gives C.change_gives scaling (args_of C.of_number args.now) pair.now sum.old) }
{
    match scaling {
        Scaling::LeftNumber => {
            let by = argument_number(args, 0, pair.left);
            add_entry(alloc, sum, args, 1, pair.right, Change::Scale(by))
        }
        Scaling::RightNumber => {
            let by = argument_number(args, 1, pair.right);
            add_entry(alloc, sum, args, 0, pair.left, Change::Scale(by))
        }
        Scaling::LeftAffine => add_multiple(alloc, sum, args, (0, pair.left), (1, pair.right)),
        Scaling::RightAffine => add_multiple(alloc, sum, args, (1, pair.right), (0, pair.left)),
        Scaling::Divisor => {
            let by = argument_number(args, 1, pair.right);
            add_entry(alloc, sum, args, 0, pair.left, Change::Divide(by))
        }
    }
}

/// Whether one of these pairs is divided by 0.
fn have_zero_divisor<C: Coef>(args: &Arguments<C>, scaling: Scaling, pairs: &[Pair]) -> bool
    ensures { result ≡ list_any (has_zero_divisor C.number_of scaling (args_of C.of_number args.now)) pairs.now }
{
    'pairs: for pair in pairs {
        if is_divided_by_zero(args, scaling, pair) {
            return true;
        }
    }
    false
}

/// Adds pairs of a product or a quotient, in order.
fn add_pairs<C: Coef>(
    alloc: Global,
    sum: &mut Accumulator<C>,
    args: &Arguments<C>,
    scaling: Scaling,
    pairs: &[Pair],
) -> Result<(), CoefStop>
    requires numbers { All (HasNumbersFor C.number_of scaling (args_of C.of_number args.now)) pairs.now }
    requires nonzero { list_any (has_zero_divisor C.number_of scaling (args_of C.of_number args.now)) pairs.now ≡ false }
    ensures { GivesBy result (λ _. sum.new) (adds_each (adds_pair C.number_of C.sum_gives C.change_gives scaling (args_of C.of_number args.now)) pairs.now sum.old) }
{
    'pairs: for pair in pairs {
        add_pair(alloc, sum, args, scaling, pair)?;
    }
    Ok(())
}

/// The sum of pairs as an entry. The accumulator is 0 before, and again where there is an answer.
fn pair_sum<C: Coef>(
    alloc: Global,
    sum: &mut Accumulator<C>,
    args: &Arguments<C>,
    scaling: Scaling,
    pairs: &[Pair],
) -> Result<EntryForms<C>, CoefStop>
    requires zero { sum.old ≡ zero_form C.of_number }
    requires numbers { All (HasNumbersFor C.number_of scaling (args_of C.of_number args.now)) pairs.now }
    requires nonzero { list_any (has_zero_divisor C.number_of scaling (args_of C.of_number args.now)) pairs.now ≡ false }
    ensures entry { Gives result (PairSum C.of_number C.number_of C.sum_gives C.change_gives scaling (args_of C.of_number args.now) pairs.now) }
    ensures zero { OnOk result (sum.new ≡ zero_form C.of_number) }
{
    add_pairs(alloc, sum, args, scaling, pairs)?;
    let form = sum.take(alloc)?;
    Ok(EntryForms::alone(alloc, form))
}

/// Entry `j` of a product or a quotient. The accumulator is 0 before, and again where there is an answer.
fn pair_entry<C: Coef>(
    alloc: Global,
    sum: &mut Accumulator<C>,
    args: &Arguments<C>,
    scaling: Scaling,
    pairs: &[Pair],
    j: u32,
) -> Result<EntryForms<C>, ValueStop>
    requires zero { sum.old ≡ zero_form C.of_number }
    requires numbers { All (HasNumbersFor C.number_of scaling (args_of C.of_number args.now)) pairs.now }
    ensures entry { IsFormed result (PairEntry C.of_number C.number_of C.sum_gives C.change_gives scaling (args_of C.of_number args.now) pairs.now j) }
    ensures zero { OnOk result (sum.new ≡ zero_form C.of_number) }
{
    if have_zero_divisor(args, scaling, pairs) {
        return Err(ValueStop::ZeroDivisor { entry: j });
    }
    match pair_sum(alloc, sum, args, scaling, pairs) {
        Ok(entry) => Ok(entry),
        Err(stop) => Err(stop_at(j, stop)),
    }
}

/// The entries of a product or a quotient, in row-major order, from the pairs of each.
///
/// `ZeroDivisor` or `Passes` at the first entry with a pair that is divided by 0, or with an operation that passes 128 bits: the
/// first such operation. A divisor of 0 stops an entry before anything of it is formed.
pub fn pair_entries<C: Coef>(
    alloc: Global,
    args: &Arguments<C>,
    scaling: Scaling,
    pairs: &[EntryPairs],
    size: u32,
) -> Result<EntryList<C>, ValueStop>
    requires size { length pairs.now ≡ size }
    requires numbers { All (λ ps. All (HasNumbersFor C.number_of scaling (args_of C.of_number args.now)) ps) pairs.now }
    ensures { IsFormed result (FormsEach (λ j. PairEntry C.of_number C.number_of C.sum_gives C.change_gives scaling (args_of C.of_number args.now) (slice_index_or pairs.now j []) j) size) }
{
    let mut sum = Accumulator::new(alloc);
    let mut entries = Vec::new(alloc);
    'entries: for j in 0..size {
        let entry = pair_entry(
            alloc,
            &mut sum,
            args,
            scaling,
            pairs[j as usize].as_slice(),
            j,
        )?;
        push_entry(&mut entries, entry)?;
    }
    Ok(EntryList::from_vec(entries))
}
