//! The value of a fold: the parts of each group, and what they become.
ghost use Rattle.std.specs.Prelude.{◌≡◌, ◌<◌, ◌+◌, ◌*◌, ℕ, length, map, take, drop, IfOk, IfErr, IfSome, IsOk, IsSome};
ghost use Rattle.dcx_frac.specs.Frac.{value};
ghost use Rattle.dcx_shape.specs.Shape.{sides_of};
ghost use Rattle.dcx_shape.specs.Sides.{entries_of};
ghost use Rattle.dcx_atom.specs.Arrays.{array_sides, list_below, number_at};
ghost use Rattle.dcx_atom.specs.Axis.{stride_entry};
ghost use Rattle.dcx_atom.specs.Formed.{sum_in_order};
ghost use Rattle.dcx_atom.specs.Farthest.{extreme};
ghost use Rattle.dcx_atom.specs.Value.{IsValueOf, IsValueStop};
ghost use Rattle.dcx_fold.specs.Groups.{groups, fold_sides};
ghost use Rattle.dcx_fold.specs.Folds.{part, parts, fold_of, fold_summands, fold_meaning};
ghost use Rattle.dcx_fold.specs.Stops.{IsStopOfSum, IsFirstOfSums};

use crate::folding::{Fold, Folding};
use dcx_atom::{Array, Bend, Stride, ValueStop, farther_of, magnitude, sum_all};
use dcx_frac::{Frac, Fracs, Passes};
use std::alloc::{AllocError, Global};

/// What an entry goes in as: itself, or its magnitude.
fn part_of(fold: Fold, x: Frac) -> Frac
    ensures { value result ≡ part fold (value x) }
{
    match fold {
        Fold::Max => x,
        Fold::Min => x,
        Fold::Norm1 => magnitude(x),
        Fold::NormInf => magnitude(x),
    }
}

/// The parts of the entries of a stride, in order.
fn parts_of(
    alloc: Global,
    fold: Fold,
    numbers: &[Frac],
    stride: Stride,
) -> Result<Vec<Frac>, AllocError>
    requires { (i : ℕ) → i < stride.count → stride_entry stride i < length numbers.now }
    ensures { IfOk result (λ v. map value v.items ≡ list_below stride.count (λ i. part fold (number_at numbers.now (stride_entry stride i)))) }
{
    let mut parts = Vec::new(alloc);
    for i in 0..stride.count {
        let place = stride.first as usize + i as usize * stride.step as usize;
        parts.push(part_of(fold, numbers[place]))?;
    }
    Ok(parts)
}

/// All numbers but the first.
fn others(numbers: &[Frac]) -> &[Frac]
    requires { 0 < length numbers.now }
    ensures { result.now ≡ drop 1 numbers.now }
{
    &numbers[1..]
}

/// The greatest number, or the least for `Bend::Concave`.
pub(crate) fn extreme_of(bend: Bend, numbers: &[Frac]) -> Frac
    requires { 0 < length numbers.now }
    ensures { value result ≡ extreme bend (map value numbers.now) }
{
    let rest = others(numbers);
    let mut far = numbers[0];
    for number in rest {
        far = farther_of(bend, far, *number);
    }
    far
}

/// What the parts of a group become, or the first addition that passes 128 bits.
fn folded(fold: Fold, parts: &[Frac]) -> Result<Frac, Passes>
    requires { 0 < length parts.now }
    ensures answer { result ≡ sum_in_order (fold_summands fold (map value parts.now)) }
    ensures value { IfOk result (λ f. value f ≡ fold_of fold (map value parts.now)) }
{
    match fold {
        Fold::Max => Ok(extreme_of(Bend::Convex, parts)),
        Fold::Min => Ok(extreme_of(Bend::Concave, parts)),
        Fold::Norm1 => sum_all(parts),
        Fold::NormInf => Ok(extreme_of(Bend::Convex, parts)),
    }
}

/// What group `entry` becomes.
fn group_value(alloc: Global, folding: Folding, x: &Array, entry: u32) -> Result<Frac, ValueStop>
    requires { entry < groups folding.axis (sides_of x.now.shape) }
    ensures ok { IfOk result (λ f. value f ≡ fold_of folding.fold (parts folding.fold folding.axis (sides_of x.now.shape) (number_at x.now.entries) entry)) }
    ensures forms { IfOk result (λ f. IsOk (sum_in_order (fold_summands folding.fold (parts folding.fold folding.axis (sides_of x.now.shape) (number_at x.now.entries) entry)))) }
    ensures stop { IfErr result (IsStopOfSum entry (fold_summands folding.fold (parts folding.fold folding.axis (sides_of x.now.shape) (number_at x.now.entries) entry))) }
{
    let stride = folding.axis.stride(x.shape, entry);
    let parts = match parts_of(alloc, folding.fold, x.entries.as_slice(), stride) {
        Ok(parts) => parts,
        Err(_) => return Err(ValueStop::Memory),
    };
    match folded(folding.fold, parts.as_slice()) {
        Ok(number) => Ok(number),
        Err(passes) => Err(ValueStop::Passes { entry, passes }),
    }
}

/// What each group becomes, in order.
fn group_values(alloc: Global, folding: Folding, x: &Array, size: u32) -> Result<Fracs, ValueStop>
    requires { size ≡ groups folding.axis (sides_of x.now.shape) }
    ensures ok { IfOk result (λ v. map value v ≡ list_below size (λ k. fold_of folding.fold (parts folding.fold folding.axis (sides_of x.now.shape) (number_at x.now.entries) k))) }
    ensures forms { IfOk result (λ v. (k : ℕ) → k < size → IsOk (sum_in_order (fold_summands folding.fold (parts folding.fold folding.axis (sides_of x.now.shape) (number_at x.now.entries) k)))) }
    ensures stop { IfErr result (IsFirstOfSums size (λ k. fold_summands folding.fold (parts folding.fold folding.axis (sides_of x.now.shape) (number_at x.now.entries) k))) }
{
    let mut entries = Vec::new(alloc);
    for entry in 0..size {
        let number = group_value(alloc, folding, x, entry)?;
        match entries.push(number) {
            Ok(()) => {}
            Err(_) => return Err(ValueStop::Memory),
        }
    }
    Ok(Fracs::from_vec(entries))
}

/// The value at the only argument.
pub(crate) fn fold_value(
    alloc: Global,
    folding: Folding,
    args: &[Array],
) -> Result<Array, ValueStop>
    requires { IsSome (fold_sides folding.axis (array_sides args.now)) }
    ensures ok { IfOk result (IsValueOf (fold_meaning folding.fold folding.axis) args.now) }
    ensures stop { IfErr result (λ e. IfSome (fold_sides folding.axis (array_sides args.now)) (λ s. IsValueStop (fold_meaning folding.fold folding.axis) args.now (entries_of s) e)) }
{
    let x = &args[0];
    let shape = folding.axis.folded(x.shape).unwrap();
    let entries = group_values(alloc, folding, x, shape.size())?;
    Ok(Array { shape, entries })
}
