//! The sum of the largest entries, and of the smallest: what both share.
ghost use Rattle.std.specs.Prelude.{◌≡◌, ◌≤◌, ◌<◌, ◌+◌, ◌^◌, [], ◌∷◌, ◌++◌, Ok, length, map, take, replicate, IfOk, IfErr, pos};
ghost use Rattle.std.specs.Result.{result_err};
ghost use Rattle.std.specs.Ordering.{is_lt};
ghost use Rattle.dcx_math.specs.Rational.{whole, rat_lt};
ghost use Rattle.dcx_math.specs.Sums.{rat_sum};
ghost use Rattle.dcx_frac.specs.Frac.{value};
ghost use Rattle.dcx_shape.specs.declared.shape.Sides.TheVariants.{Scalar};
ghost use Rattle.dcx_shape.specs.Shape.{sides_of};
ghost use Rattle.dcx_atom.specs.declared.graph.AuxKind.TheVariants.{Free, Nonneg};
ghost use Rattle.dcx_atom.specs.Arrays.{list_below, number_at};
ghost use Rattle.dcx_atom.specs.Formed.{sum_in_order};
ghost use Rattle.dcx_atom.specs.Graph.{form_term, placed_row};
ghost use Rattle.dcx_atom.specs.Steps.{test, is_weight, step_stop, first_stop};
ghost use Rattle.dcx_atom.specs.Bounding.{outward};
ghost use Rattle.dcx_fold.specs.Sorted.{falling};
ghost use Rattle.dcx_fold.specs.Largest.{chosen, level_row, level_form, each_condition, sum_condition, level_conditions};
ghost use Rattle.dcx_fold.specs.Stops.{IsStopOfSum};

use dcx_atom::{
    Array, AuxKind, AuxKinds, AuxTerm, Bend, GraphForm, GraphRow, GraphRows, GraphTerm, GraphTerms,
    Operand, SlopeStop, ValueStop, check_at_most, check_equal, check_weights, minus_one,
    outward_of, sum_all,
};
use dcx_frac::{Frac, Fracs};
use dcx_shape::Shape;
use std::alloc::{AllocError, Global};
use std::cmp::Ordering;

/// How two numbers stand in the order from the greatest down, or from the least up for `Bend::Concave`.
fn farther_first(bend: Bend, x: &Frac, y: &Frac) -> Ordering
    ensures { is_lt result ≡ rat_lt (outward bend (value y.now)) (outward bend (value x.now)) }
{
    match bend {
        Bend::Convex => y.cmp_exact(x),
        Bend::Concave => x.cmp_exact(y),
    }
}

/// The numbers from the greatest down, or from the least up for `Bend::Concave`.
fn in_order(alloc: Global, bend: Bend, numbers: &[Frac]) -> Result<Vec<Frac>, AllocError>
    ensures { IfOk result (λ v. map value v.items ≡ map (outward bend) (falling (map (λ x. outward bend (value x)) numbers.now))) }
{
    let mut list: Vec<Frac> = numbers.iter().copied().collect(alloc)?;
    list.sort_unstable_by(|x, y| farther_first(bend, x, y));
    Ok(list)
}

/// The first so many numbers.
fn first_numbers(numbers: &[Frac], k: u32) -> &[Frac]
    requires { k ≤ length numbers.now }
    ensures { result.now ≡ take k numbers.now }
{
    &numbers[..k as usize]
}

/// The sum of the `k` largest numbers from the greatest down, or of the `k` smallest from the least up.
pub(crate) fn chosen_sum(
    alloc: Global,
    bend: Bend,
    k: u32,
    numbers: &[Frac],
) -> Result<Frac, ValueStop>
    requires { k ≤ length numbers.now }
    ensures ok { IfOk result (λ f. Ok f ≡ sum_in_order (chosen bend k (length numbers.now) (number_at numbers.now))) }
    ensures value { IfOk result (λ f. value f ≡ rat_sum (chosen bend k (length numbers.now) (number_at numbers.now))) }
    ensures stop { IfErr result (IsStopOfSum 0 (chosen bend k (length numbers.now) (number_at numbers.now))) }
{
    let list = match in_order(alloc, bend, numbers) {
        Ok(list) => list,
        Err(_) => return Err(ValueStop::Memory),
    };
    match sum_all(first_numbers(list.as_slice(), k)) {
        Ok(sum) => Ok(sum),
        Err(passes) => Err(ValueStop::Passes { entry: 0, passes }),
    }
}

/// The array of one number.
pub(crate) fn scalar(alloc: Global, number: Frac) -> Result<Array, AllocError>
    ensures shape { IfOk result (λ v. sides_of v.shape ≡ Scalar) }
    ensures entries { IfOk result (λ v. v.entries ≡ number ∷ []) }
{
    let numbers = vec![in alloc; number]?;
    Ok(Array {
        shape: Shape::scalar(),
        entries: Fracs::from_vec(numbers),
    })
}

/// A coefficient times an operand.
fn term(operand: Operand, coefficient: Frac) -> GraphTerm
    ensures { result ≡ record { operand = operand; coefficient = coefficient } }
{
    GraphTerm {
        operand,
        coefficient,
    }
}

/// The row of entry `i`, over the entry, the level, and an unknown of its own.
fn entry_row(alloc: Global, bend: Bend, i: u32) -> Result<GraphRow, AllocError>
    requires { i + 1 < 2 ^ 32 }
    ensures { IfOk result (λ r. placed_row r ≡ record { entry = 0; row = level_row bend i }) }
{
    let entry = Operand::Argument {
        argument: 0,
        entry: i,
    };
    let level = Operand::Aux(0);
    let own = Operand::Aux(i + 1);
    let terms = match bend {
        Bend::Convex => vec![in alloc;
            term(entry, Frac::one()),
            term(level, minus_one()),
            term(own, minus_one()),
        ]?,
        Bend::Concave => vec![in alloc;
            term(level, Frac::one()),
            term(own, minus_one()),
            term(entry, minus_one()),
        ]?,
    };
    Ok(GraphRow {
        entry: 0,
        terms: GraphTerms::from_vec(terms),
    })
}

/// The rows of `size` entries.
pub(crate) fn entry_rows(alloc: Global, bend: Bend, size: u32) -> Result<GraphRows, AllocError>
    ensures { IfOk result (λ g. map placed_row g ≡ list_below size (λ i. record { entry = 0; row = level_row bend i })) }
{
    let mut rows = Vec::new(alloc);
    for i in 0..size {
        rows.push(entry_row(alloc, bend, i)?)?;
    }
    Ok(GraphRows::from_vec(rows))
}

/// The level, which is free, and `size` unknowns of at least 0.
pub(crate) fn level_kinds(alloc: Global, size: u32) -> Result<AuxKinds, AllocError>
    ensures { IfOk result (λ kinds. kinds ≡ Free ∷ replicate size Nonneg) }
{
    let mut kinds = Vec::new(alloc);
    kinds.push(AuxKind::Free)?;
    for _unknown in 0..size {
        kinds.push(AuxKind::Nonneg)?;
    }
    Ok(AuxKinds::from_vec(kinds))
}

/// The whole number `k`.
fn whole_number(k: u32) -> Frac
    ensures { value result ≡ whole (pos k) }
{
    Frac::of(i128::from(k), 1).unwrap()
}

/// So many times the level, and all the other unknowns, or without them for `Bend::Concave`.
pub(crate) fn level_result(
    alloc: Global,
    bend: Bend,
    k: u32,
    size: u32,
) -> Result<GraphForm, AllocError>
    requires { size + 1 < 2 ^ 32 }
    ensures { IfOk result (λ f. map form_term f ≡ level_form bend k size) }
{
    let mut terms = Vec::new(alloc);
    terms.push(AuxTerm {
        aux: 0,
        coefficient: whole_number(k),
    })?;
    for i in 0..size {
        terms.push(AuxTerm {
            aux: i + 1,
            coefficient: outward_of(bend, Frac::one()),
        })?;
    }
    Ok(GraphForm::from_vec(terms))
}

/// `Refused` at the first weight that is above the coefficient, or above its negative for `Bend::Concave`.
fn check_each(bend: Bend, coefficient: Frac, weights: &[Frac]) -> Result<(), SlopeStop>
    ensures { result_err result ≡ first_stop 0 (map (λ w. test (each_condition bend (value coefficient) (value w))) weights.now) }
{
    let bound = outward_of(bend, coefficient);
    for weight in weights {
        check_at_most(0, *weight, bound)?;
    }
    Ok(())
}

/// `Refused` where the weights don't sum to so many times the coefficient; `Passes` at the first operation that passes
/// 128 bits, of the sum and then of the product.
fn check_all(bend: Bend, k: u32, coefficient: Frac, weights: &[Frac]) -> Result<(), SlopeStop>
    ensures { result_err result ≡ step_stop 0 (test (sum_condition bend k (value coefficient) (map value weights.now))) }
{
    let sum = match sum_all(weights) {
        Ok(sum) => sum,
        Err(passes) => return Err(SlopeStop::Passes(passes)),
    };
    match outward_of(bend, whole_number(k)).mul(coefficient) {
        Ok(product) => check_equal(0, sum, product),
        Err(passes) => Err(SlopeStop::Passes(passes)),
    }
}

/// The first stop of the tests of the weights.
pub(crate) fn check_chosen(
    bend: Bend,
    k: u32,
    coefficient: Frac,
    weights: &[Frac],
) -> Result<(), SlopeStop>
    ensures { result_err result ≡ first_stop 0 (map (λ w. test (is_weight w)) (map value weights.now) ++ map test (level_conditions bend k (value coefficient) (map value weights.now))) }
{
    check_weights(0, weights)?;
    check_each(bend, coefficient, weights)?;
    check_all(bend, k, coefficient, weights)
}

/// The weights as slopes: turned for `Bend::Concave`.
pub(crate) fn turned(alloc: Global, bend: Bend, weights: &[Frac]) -> Result<Fracs, AllocError>
    ensures { IfOk result (λ g. map value g ≡ map (λ w. outward bend (value w)) weights.now) }
{
    let mut slopes = Vec::new(alloc);
    for weight in weights {
        slopes.push(outward_of(bend, *weight))?;
    }
    Ok(Fracs::from_vec(slopes))
}
