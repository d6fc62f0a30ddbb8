//! The running maximum of a vector.
ghost use Rattle.std.specs.Prelude.{◌≡◌, ◌<◌, ◌≤◌, ◌+◌, [], ◌∷◌, ◌++◌, length, map, take, drop, pos, IfOk, IfErr, OnOk};
ghost use Rattle.std.specs.Result.{result_err};
ghost use Rattle.dcx_math.specs.Rational.{whole};
ghost use Rattle.dcx_math.specs.Sums.{rat_sum};
ghost use Rattle.dcx_frac.specs.Frac.{value};
ghost use Rattle.dcx_shape.specs.declared.shape.Sides.TheVariants.{Vector};
ghost use Rattle.dcx_atom.specs.declared.flags.Bend.TheVariants.{Convex};
ghost use Rattle.dcx_atom.specs.Arrays.{list_below, number_at};
ghost use Rattle.dcx_atom.specs.Bounding.{bound_row};
ghost use Rattle.dcx_atom.specs.Formed.{sum_in_order};
ghost use Rattle.dcx_atom.specs.Graph.{placed_row, rows_below};
ghost use Rattle.dcx_atom.specs.Steps.{first_stop, AreSlopesOf, IsSlopeStop};
ghost use Rattle.dcx_fold.specs.Running.{greatest_so_far, running_rows, own_weights, next_weights, rows_until, running_weights, running_tests, running_meaning};

use dcx_atom::{
    AuxKind, Bend, GraphRow, GraphRows, GraphTerm, Operand, SlopeStop, bounding_row, check_equal,
    check_weights, greater, sum_all,
};
use dcx_frac::{Frac, Fracs, Passes};
use std::alloc::{AllocError, Global};

/// The greatest of the numbers so far, at each of them.
pub(crate) fn running_greatest(alloc: Global, numbers: &[Frac]) -> Result<Fracs, AllocError>
    requires { 0 < length numbers.now }
    ensures { IfOk result (λ v. map value v ≡ list_below (length numbers.now) (greatest_so_far (number_at numbers.now))) }
{
    let mut far = numbers[0];
    let mut list = Vec::new(alloc);
    for number in numbers {
        far = greater(far, *number);
        list.push(far)?;
    }
    Ok(Fracs::from_vec(list))
}

/// Adds the row that puts an entry's unknown at or above the operand.
fn push_row(
    alloc: Global,
    rows: &mut Vec<GraphRow>,
    entry: u32,
    operand: Operand,
) -> Result<(), AllocError>
    ensures { OnOk result (map placed_row rows.new.items
        ≡ map placed_row rows.old.items ++ record { entry = entry; row = bound_row Convex entry (record { operand = operand; coefficient = whole (pos 1) }) } ∷ []) }
{
    let term = GraphTerm {
        operand,
        coefficient: Frac::one(),
    };
    rows.push(bounding_row(alloc, Bend::Convex, entry, entry, term)?)?;
    Ok(())
}

/// Adds the rows of an entry: its unknown is at least the entry, and at least the unknown before it.
fn push_entry_rows(alloc: Global, rows: &mut Vec<GraphRow>, entry: u32) -> Result<(), AllocError>
    ensures { OnOk result (map placed_row rows.new.items ≡ map placed_row rows.old.items ++ map (λ row. record { entry = entry; row = row }) (running_rows entry)) }
{
    push_row(alloc, rows, entry, Operand::Argument { argument: 0, entry })?;
    if entry > 0 {
        push_row(alloc, rows, entry, Operand::Aux(entry - 1))
    } else {
        Ok(())
    }
}

/// The rows of `size` entries.
pub(crate) fn entry_rows(alloc: Global, size: u32) -> Result<GraphRows, AllocError>
    ensures { IfOk result (λ g. map placed_row g ≡ rows_below size running_rows) }
{
    let mut rows = Vec::new(alloc);
    for entry in 0..size {
        push_entry_rows(alloc, &mut rows, entry)?;
    }
    Ok(GraphRows::from_vec(rows))
}

/// Where the weights of an entry's rows begin: the first entry has one row, and each other one two.
fn first_weight(entry: u32) -> usize
    ensures { result ≡ rows_until entry }
{
    if entry == 0 {
        0
    } else {
        entry as usize * 2 - 1
    }
}

/// How many rows an entry has.
fn rows_of_entry(entry: u32) -> usize
    ensures { result ≡ length (running_rows entry) }
{
    if entry == 0 { 1 } else { 2 }
}

/// So many weights from one on.
fn part(weights: &[Frac], start: usize, count: usize) -> &[Frac]
    requires { start + count ≤ length weights.now }
    ensures { result.now ≡ take count (drop start weights.now) }
{
    &weights[start..start + count]
}

/// The coefficient and the weight that carries the entry's unknown on, in order.
fn right_side(size: u32, entry: u32, coefficient: Frac, weights: &[Frac]) -> Result<Frac, Passes>
    requires entry { entry < size }
    requires weights { length weights.now ≡ rows_until size }
    ensures answer { result ≡ sum_in_order (value coefficient ∷ next_weights size (running_weights weights.now) entry) }
    ensures sum { IfOk result (λ f. value f ≡ rat_sum (value coefficient ∷ next_weights size (running_weights weights.now) entry)) }
{
    if entry + 1 < size {
        let next = weights[first_weight(entry + 1) + 1];
        sum_all(&[coefficient, next])
    } else {
        sum_all(&[coefficient])
    }
}

/// The first stop of the tests of an entry's weights.
fn check_entry(size: u32, entry: u32, coefficient: Frac, weights: &[Frac]) -> Result<(), SlopeStop>
    requires entry { entry < size }
    requires weights { length weights.now ≡ rows_until size }
    ensures { result_err result ≡ first_stop entry (running_tests size (value coefficient) (running_weights weights.now) entry) }
{
    let own = part(weights, first_weight(entry), rows_of_entry(entry));
    check_weights(entry, own)?;
    let left = match sum_all(own) {
        Ok(left) => left,
        Err(passes) => return Err(SlopeStop::Passes(passes)),
    };
    match right_side(size, entry, coefficient, weights) {
        Ok(right) => check_equal(entry, left, right),
        Err(passes) => Err(SlopeStop::Passes(passes)),
    }
}

/// The slopes at a vector of `size` entries, or the first stop.
pub(crate) fn running_slopes(
    alloc: Global,
    size: u32,
    coefficients: &[Frac],
    weights: &[Frac],
) -> Result<Fracs, SlopeStop>
    requires coefficients { length coefficients.now ≡ size }
    requires weights { length weights.now ≡ rows_until size }
    ensures ok { IfOk result (AreSlopesOf running_meaning (Vector size ∷ []) size coefficients.now weights.now) }
    ensures stop { IfErr result (IsSlopeStop running_meaning (Vector size ∷ []) size coefficients.now weights.now) }
{
    let mut slopes = Vec::new(alloc);
    for entry in 0..size {
        check_entry(size, entry, coefficients[entry as usize], weights)?;
        match slopes.push(weights[first_weight(entry)]) {
            Ok(()) => {}
            Err(_) => return Err(SlopeStop::Memory),
        }
    }
    Ok(Fracs::from_vec(slopes))
}
