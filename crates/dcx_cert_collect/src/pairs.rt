//! What a product or a quotient hands on.
ghost use Rattle.std.specs.Prelude.{◌≡◌, ℕ, List, length, map, Ok, Err, OnOk, IfErr, slice_index_or, [], option_copied};
ghost use Rattle.dcx_frac.specs.Results.{quotient_of};
ghost use Rattle.dcx_arena.specs.Nodes.{positions};
ghost use Rattle.dcx_cert_collect.specs.Shares.{with_shares, with_share};
ghost use Rattle.dcx_cert_collect.specs.Starts.{ArePlaces};
ghost use Rattle.dcx_cert_collect.specs.Calls.{scaling_of, scaling_numbers, pair_share, pairing_shares};

use crate::places::Places;
use crate::shares::add_share;
use dcx_affine::{EntryPairs, Pair, Pairing};
use dcx_atom::number_at;
use dcx_frac::{Frac, Passes};

/// How the numbers of one side of a product or a quotient change the coefficients.
#[derive(Clone, Copy)]
pub enum Scaling {
    /// Those of the right side multiply.
    ByRight,
    /// Those of the left side multiply.
    ByLeft,
    /// Those of the right side divide.
    Divided,
}

/// A coefficient divided by a number; 0 where the number is 0.
fn quotient(coefficient: Frac, number: Frac) -> Result<Frac, Passes>
    ensures { result ≡ quotient_of coefficient number }
{
    if number.is_zero() {
        Ok(Frac::zero())
    } else {
        coefficient.div(number)
    }
}

/// Hands a coefficient on by one pair.
fn hand_pair(
    places: &Places,
    scaling: Scaling,
    numbers: &[Frac],
    coefficient: Frac,
    pair: Pair,
    table: &mut Vec<Frac>,
) -> Result<(), Passes>
    requires { ArePlaces places.now.tree.now places.now.starts.now (positions places.now.args.now) }
    ensures ok { OnOk result (with_share table.old.items (pair_share places.now.tree.now (positions places.now.args.now) scaling numbers.now coefficient pair) ≡ Ok table.new.items) }
    ensures passes { IfErr result (λ p. with_share table.old.items (pair_share places.now.tree.now (positions places.now.args.now) scaling numbers.now coefficient pair) ≡ Err p) }
{
    let left = number_at(numbers, pair.left as usize);
    let right = number_at(numbers, pair.right as usize);
    match scaling {
        Scaling::ByRight => add_share(table, places.place(0, pair.left), coefficient.mul(right)),
        Scaling::ByLeft => add_share(table, places.place(1, pair.right), coefficient.mul(left)),
        Scaling::Divided => add_share(
            table,
            places.place(0, pair.left),
            quotient(coefficient, right),
        ),
    }
}

/// Hands the coefficient of an entry on by its pairs.
fn hand_entry(
    places: &Places,
    scaling: Scaling,
    numbers: &[Frac],
    coefficient: Frac,
    pairs: &[Pair],
    table: &mut Vec<Frac>,
) -> Result<(), Passes>
    requires { ArePlaces places.now.tree.now places.now.starts.now (positions places.now.args.now) }
    ensures ok { OnOk result (with_shares table.old.items (map (pair_share places.now.tree.now (positions places.now.args.now) scaling numbers.now coefficient) pairs.now) ≡ Ok table.new.items) }
    ensures passes { IfErr result (λ p. with_shares table.old.items (map (pair_share places.now.tree.now (positions places.now.args.now) scaling numbers.now coefficient) pairs.now) ≡ Err p) }
{
    for pair in pairs {
        hand_pair(places, scaling, numbers, coefficient, *pair, table)?;
    }
    Ok(())
}

/// Hands the coefficients of all entries on by their pairs.
pub(crate) fn hand_pairs(
    places: &Places,
    scaling: Scaling,
    numbers: &[Frac],
    coefficients: &[Frac],
    pairs: &[EntryPairs],
    table: &mut Vec<Frac>,
) -> Result<(), Passes>
    requires places { ArePlaces places.now.tree.now places.now.starts.now (positions places.now.args.now) }
    requires pairs { length pairs.now ≡ length coefficients.now }
    ensures ok { OnOk result (with_shares table.old.items (pairing_shares places.now.tree.now (positions places.now.args.now) scaling numbers.now coefficients.now
        (λ j. slice_index_or pairs.now j [])) ≡ Ok table.new.items) }
    ensures passes { IfErr result (λ p. with_shares table.old.items (pairing_shares places.now.tree.now (positions places.now.args.now) scaling numbers.now coefficients.now
        (λ j. slice_index_or pairs.now j [])) ≡ Err p) }
{
    for (j, coefficient) in coefficients.iter().enumerate() {
        hand_entry(
            places,
            scaling,
            numbers,
            *coefficient,
            pairs[j].as_slice(),
            table,
        )?;
    }
    Ok(())
}

/// Which side of a product or a quotient has the numbers: of a product the left one, where its value is known.
pub(crate) fn scaling_of(pairing: Pairing, left_known: bool) -> Scaling
    ensures { result ≡ scaling_of pairing left_known }
{
    match pairing {
        Pairing::Over => Scaling::Divided,
        Pairing::Times | Pairing::MatTimes => {
            if left_known {
                Scaling::ByLeft
            } else {
                Scaling::ByRight
            }
        }
    }
}
