//! The multipliers of rows.
ghost use Rattle.std.specs.Prelude.{◌≡◌, ◌+◌, ◌≤◌, ◌^◌, length, map, slice_range, Ok, IfOk, IfErr};
ghost use Rattle.dcx_lp_answer.specs.Multipliers.{shifted as shifted_of, turned as turned_of, multiplier_of, passing_from, StopsAt};

use crate::answer::{LpAnswer, LpStatus, RowNote};
use crate::stop::MultiplierStop;
use dcx_frac::{Frac, Fracs, Passes};
use dcx_linear::RowKind;
use std::alloc::Global;

/// A reduced cost, less 1 for an equality where the rows can't be solved.
fn shifted(status: LpStatus, kind: RowKind, reduced_cost: Frac) -> Result<Frac, Passes>
    ensures { result ≡ shifted_of status kind reduced_cost }
{
    match status {
        LpStatus::Infeasible => match kind {
            RowKind::Equal => reduced_cost.sub(Frac::one()),
            RowKind::AtMost => Ok(reduced_cost),
        },
        LpStatus::Optimal | LpStatus::Unbounded => Ok(reduced_cost),
    }
}

/// A number, negated where its row is an equality that was negated.
fn turned(kind: RowKind, negated: bool, number: Frac) -> Frac
    ensures { result ≡ turned_of kind negated number }
{
    match kind {
        RowKind::Equal => { if negated { number.neg() } else { number } }
        RowKind::AtMost => number,
    }
}

/// The multiplier of a row of this kind, of which this is kept, in an answer of this status: its reduced cost, less 1 for
/// an equality where the rows can't be solved, times its factor, negated where it is an equality that was negated.
///
/// `Passes` exactly where one of the two operations passes 128 bits: the first one.
pub fn multiplier(status: LpStatus, kind: RowKind, note: &RowNote) -> Result<Frac, Passes>
    ensures { result ≡ multiplier_of status kind note.now }
{
    let shifted = shifted(status, kind, note.reduced_cost)?;
    let scaled = note.factor.mul(shifted)?;
    Ok(turned(kind, note.negated, scaled))
}

/// The multipliers of rows of this kind, the first of which has the number `first`.
fn multipliers_of(
    alloc: Global,
    status: LpStatus,
    kind: RowKind,
    first: u32,
    notes: &[RowNote],
) -> Result<Fracs, MultiplierStop>
    requires { first + length notes.now ≤ 2 ^ 32 }
    ensures made { IfOk result (λ m. map Ok m ≡ map (multiplier_of status kind) notes.now) }
    ensures stops { IfErr result (λ e. StopsAt e (passing_from first (map (multiplier_of status kind) notes.now))) }
{
    let mut found = Vec::with_capacity(alloc, notes.len())?;
    'notes: for (index, note) in notes.iter().enumerate() {
        match multiplier(status, kind, note) {
            Ok(number) => found.push(number)?,
            Err(passes) => {
                return Err(MultiplierStop::Wide {
                    row: first + index as u32,
                    passes,
                });
            }
        }
    }
    Ok(Fracs::from_vec(found))
}

/// The multipliers of the rows from number `from` up to number `to`, that one not included, which are all of this kind.
///
/// `Wide` exactly where one of them passes 128 bits: the first one, with its row and its first operation that passes.
pub fn multipliers(
    alloc: Global,
    answer: &LpAnswer,
    kind: RowKind,
    from: u32,
    to: u32,
) -> Result<Fracs, MultiplierStop>
    requires order { from ≤ to }
    requires rows { to ≤ length answer.now.rows }
    ensures made { IfOk result (λ m. map Ok m ≡ map (multiplier_of answer.now.status kind) (slice_range answer.now.rows from to)) }
    ensures stops { IfErr result (λ e. StopsAt e (passing_from from (map (multiplier_of answer.now.status kind) (slice_range answer.now.rows from to)))) }
{
    let notes = &answer.rows.as_slice()[from as usize..to as usize];
    multipliers_of(alloc, answer.status, kind, from, notes)
}
