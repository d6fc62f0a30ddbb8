//! The slopes of a fold: the weights of each group are tested, its slopes formed, and all of them put in the order of the
//! argument's entries.
ghost use Rattle.std.specs.Prelude.{◌≡◌, ◌<◌, ◌≤◌, ◌+◌, ◌*◌, ◌++◌, ℕ, [], ◌∷◌, None, length, map, IfOk, IfErr, OnOk};
ghost use Rattle.std.specs.Result.{result_err};
ghost use Rattle.dcx_frac.specs.Frac.{value};
ghost use Rattle.dcx_shape.specs.Shape.{sides_of};
ghost use Rattle.dcx_shape.specs.Sides.{entries_of};
ghost use Rattle.dcx_atom.specs.declared.graph.AuxKind.TheVariants.{Nonneg};
ghost use Rattle.dcx_atom.specs.Arrays.{list_below, joined_below, number_at};
ghost use Rattle.dcx_atom.specs.Axis.{folded_count};
ghost use Rattle.dcx_atom.specs.Formed.{formed, exact};
ghost use Rattle.dcx_atom.specs.Steps.{test, first_stop, weights_of, rows_before, AreSlopesOf, IsSlopeStop};
ghost use Rattle.dcx_atom.specs.Bounding.{total_condition, HaveNoStop};
ghost use Rattle.dcx_fold.specs.Groups.{groups, group_of, member_of};
ghost use Rattle.dcx_fold.specs.Folds.{member_rows, member_weights, member_slope, group_conditions, group_tests, group_steps, fold_meaning};
ghost use Rattle.dcx_fold.specs.Stops.{IsStopAmong};

use crate::folding::{Fold, Folding};
use dcx_atom::{AuxKind, Axis, SlopeStop, check_sum, check_weights, row_weights};
use dcx_frac::{Frac, Fracs, Passes};
use dcx_shape::{Shape, Sides};
use std::alloc::{AllocError, Global};

/// How many rows a member has.
fn rows_of_member(fold: Fold) -> usize
    ensures value { result ≡ member_rows fold }
    ensures few { result ≤ 2 }
{
    match fold {
        Fold::Max => 1,
        Fold::Min => 1,
        Fold::Norm1 => 2,
        Fold::NormInf => 2,
    }
}

/// The first stop of the sums of each member's two weights.
fn check_pairs(
    entry: u32,
    members: u32,
    coefficient: Frac,
    weights: &[Frac],
) -> Result<(), SlopeStop>
    requires { length weights.now ≡ members * 2 }
    ensures { result_err result ≡ first_stop entry (list_below members (λ i. test (total_condition Nonneg (value coefficient) (list_below 2 (λ f. number_at weights.now (i * 2 + f)))))) }
{
    for i in 0..members {
        let pair = row_weights(weights, i as usize, 2);
        check_sum(entry, AuxKind::Nonneg, coefficient, pair)?;
    }
    Ok(())
}

/// The first stop of the conditions on a group's weights.
fn check_conditions(
    fold: Fold,
    entry: u32,
    members: u32,
    coefficient: Frac,
    weights: &[Frac],
) -> Result<(), SlopeStop>
    requires { length weights.now ≡ members * member_rows fold }
    ensures { result_err result ≡ first_stop entry (map test (group_conditions fold members (value coefficient) (number_at weights.now))) }
{
    match fold {
        Fold::Max => check_sum(entry, AuxKind::Free, coefficient, weights),
        Fold::Min => check_sum(entry, AuxKind::Free, coefficient.neg(), weights),
        Fold::Norm1 => check_pairs(entry, members, coefficient, weights),
        Fold::NormInf => check_sum(entry, AuxKind::Nonneg, coefficient, weights),
    }
}

/// The first stop of the tests of a group's weights.
fn check_group(
    fold: Fold,
    entry: u32,
    members: u32,
    coefficient: Frac,
    weights: &[Frac],
) -> Result<(), SlopeStop>
    requires { length weights.now ≡ members * member_rows fold }
    ensures { result_err result ≡ first_stop entry (group_tests fold members (value coefficient) (number_at weights.now)) }
{
    check_weights(entry, weights)?;
    check_conditions(fold, entry, members, coefficient, weights)
}

/// The slope that the weights of a member's rows give.
fn slope(fold: Fold, weights: &[Frac]) -> Result<Frac, Passes>
    requires { length weights.now ≡ member_rows fold }
    ensures answer { result ≡ formed (member_slope fold (number_at weights.now)) }
    ensures exact { IfOk result (λ g. value g ≡ exact (member_slope fold (number_at weights.now))) }
{
    match fold {
        Fold::Max => Ok(weights[0]),
        Fold::Min => Ok(weights[0].neg()),
        Fold::Norm1 => weights[0].sub(weights[1]),
        Fold::NormInf => weights[0].sub(weights[1]),
    }
}

/// Tests the weights of a group and adds the slope of each member.
fn push_group(
    slopes: &mut Vec<Frac>,
    fold: Fold,
    entry: u32,
    members: u32,
    coefficient: Frac,
    weights: &[Frac],
) -> Result<(), SlopeStop>
    requires { length weights.now ≡ members * member_rows fold }
    ensures ok { OnOk result (first_stop entry (group_steps fold members (value coefficient) (number_at weights.now)) ≡ None) }
    ensures slopes { OnOk result (map value slopes.new.items ≡ map value slopes.old.items ++ list_below members (λ i. exact (member_slope fold (member_weights fold (number_at weights.now) i)))) }
    ensures stop { IfErr result (IsStopAmong entry (group_steps fold members (value coefficient) (number_at weights.now))) }
{
    check_group(fold, entry, members, coefficient, weights)?;
    let rows = rows_of_member(fold);
    for i in 0..members {
        match slope(fold, row_weights(weights, i as usize, rows)) {
            Err(passes) => return Err(SlopeStop::Passes(passes)),
            Ok(slope) => {
                match slopes.push(slope) {
                    Ok(()) => {}
                    Err(_) => return Err(SlopeStop::Memory),
                }
            }
        }
    }
    Ok(())
}

/// The slopes of all members, group by group.
fn slopes_by_group(
    alloc: Global,
    folding: Folding,
    from: Shape,
    size: u32,
    coefficients: &[Frac],
    weights: &[Frac],
) -> Result<Vec<Frac>, SlopeStop>
    requires size { size ≡ groups folding.axis (sides_of from) }
    requires coefficients { length coefficients.now ≡ size }
    requires weights { length weights.now ≡ size * (folded_count folding.axis (sides_of from) * member_rows folding.fold) }
    ensures ok { IfOk result (λ v. HaveNoStop (fold_meaning folding.fold folding.axis) (sides_of from ∷ []) size coefficients.now weights.now) }
    ensures slopes { IfOk result (λ v. map value v.items ≡ joined_below size (λ k. list_below (folded_count folding.axis (sides_of from))
        (λ i. exact (member_slope folding.fold (member_weights folding.fold (weights_of (fold_meaning folding.fold folding.axis) (sides_of from ∷ []) weights.now k) i))))) }
    ensures stop { IfErr result (IsSlopeStop (fold_meaning folding.fold folding.axis) (sides_of from ∷ []) size coefficients.now weights.now) }
{
    let members = folding.axis.folded_count(from);
    let rows = members as usize * rows_of_member(folding.fold);
    let mut slopes = Vec::new(alloc);
    for entry in 0..size {
        let place = entry as usize;
        let own = row_weights(weights, place, rows);
        push_group(
            &mut slopes,
            folding.fold,
            entry,
            members,
            coefficients[place],
            own,
        )?;
    }
    Ok(slopes)
}

/// The group of entry `e` of the argument, and which member it is there.
fn group_and_member(axis: Axis, from: Shape, e: u32) -> (u32, u32)
    requires { e < entries_of (sides_of from) }
    ensures group { result.0 ≡ group_of axis (sides_of from) e }
    ensures member { result.1 ≡ member_of axis (sides_of from) e }
{
    match (axis, from.sides()) {
        (Axis::Zero, Sides::Matrix(_, n)) => (e % n, e / n),
        (Axis::One, Sides::Matrix(_, n)) => (e / n, e % n),
        _ => (0, e),
    }
}

/// Where entry `e` of the argument stands, group by group.
fn spot(axis: Axis, from: Shape, e: u32) -> usize
    requires { e < entries_of (sides_of from) }
    ensures { result ≡ group_of axis (sides_of from) e * folded_count axis (sides_of from) + member_of axis (sides_of from) e }
{
    let (group, member) = group_and_member(axis, from, e);
    group as usize * axis.folded_count(from) as usize + member as usize
}

/// The slopes in the order of the argument's entries, from those by groups.
fn by_entry(alloc: Global, axis: Axis, from: Shape, slopes: &[Frac]) -> Result<Fracs, AllocError>
    requires { length slopes.now ≡ groups axis (sides_of from) * folded_count axis (sides_of from) }
    ensures { IfOk result (λ g. map value g ≡ list_below (entries_of (sides_of from)) (λ e. number_at slopes.now
        (group_of axis (sides_of from) e * folded_count axis (sides_of from) + member_of axis (sides_of from) e))) }
{
    let mut ordered = Vec::new(alloc);
    for e in 0..from.size() {
        ordered.push(slopes[spot(axis, from, e)])?;
    }
    Ok(Fracs::from_vec(ordered))
}

/// The slopes that weights give at an argument of this shape, or the first stop.
pub(crate) fn fold_slopes(
    alloc: Global,
    folding: Folding,
    from: Shape,
    size: u32,
    coefficients: &[Frac],
    weights: &[Frac],
) -> Result<Fracs, SlopeStop>
    requires size { size ≡ groups folding.axis (sides_of from) }
    requires coefficients { length coefficients.now ≡ size }
    requires weights { length weights.now ≡ rows_before (fold_meaning folding.fold folding.axis) (sides_of from ∷ []) size }
    ensures ok { IfOk result (AreSlopesOf (fold_meaning folding.fold folding.axis) (sides_of from ∷ []) size coefficients.now weights.now) }
    ensures stop { IfErr result (IsSlopeStop (fold_meaning folding.fold folding.axis) (sides_of from ∷ []) size coefficients.now weights.now) }
{
    let slopes = slopes_by_group(alloc, folding, from, size, coefficients, weights)?;
    match by_entry(alloc, folding.axis, from, slopes.as_slice()) {
        Ok(ordered) => Ok(ordered),
        Err(_) => Err(SlopeStop::Memory),
    }
}
