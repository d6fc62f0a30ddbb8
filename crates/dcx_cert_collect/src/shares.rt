//! Adding a share to a place of a list.
ghost use Rattle.std.specs.Prelude.{◌≡◌, Ok, Err, OnOk, IfErr, slice_set};
ghost use Rattle.dcx_cert_collect.specs.Shares.{added_at, with_share, share_of};

use dcx_atom::number_at;
use dcx_frac::{Frac, Passes};

/// Puts a number at a place, where there is one.
fn put(table: &mut Vec<Frac>, place: usize, number: Frac)
    ensures { table.new.items ≡ slice_set table.old.items place number }
{
    if place < table.len() {
        table[place] = number;
    }
}

/// Adds a number at a place.
pub(crate) fn add_at(
    table: &mut Vec<Frac>,
    place: Option<usize>,
    number: Frac,
) -> Result<(), Passes>
    ensures ok { OnOk result (added_at table.old.items place number ≡ Ok table.new.items) }
    ensures passes { IfErr result (λ p. added_at table.old.items place number ≡ Err p) }
{
    let Some(place) = place else {
        return Ok(());
    };
    let sum = number_at(table.as_slice(), place).add(number)?;
    put(table, place, sum);
    Ok(())
}

/// Adds a share: a number as it was formed.
pub(crate) fn add_share(
    table: &mut Vec<Frac>,
    place: Option<usize>,
    amount: Result<Frac, Passes>,
) -> Result<(), Passes>
    ensures ok { OnOk result (with_share table.old.items (share_of place amount) ≡ Ok table.new.items) }
    ensures passes { IfErr result (λ p. with_share table.old.items (share_of place amount) ≡ Err p) }
{
    match amount {
        Ok(number) => add_at(table, place, number),
        Err(passes) => Err(passes),
    }
}
