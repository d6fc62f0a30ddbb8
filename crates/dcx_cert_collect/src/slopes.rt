//! What a nonlinear call hands on.
ghost use Rattle.std.specs.Prelude.{◌≡◌, ◌<◌, ◌≤◌, ◌+◌, ◌^◌, length, Ok, Err, OnOk, IfErr};
ghost use Rattle.dcx_shape.specs.Sides.{entries_of};
ghost use Rattle.dcx_atom.specs.Arrays.{list_below, sides_at, all_entries, entries_before, sides_list};
ghost use Rattle.dcx_arena.specs.Nodes.{positions};
ghost use Rattle.dcx_cert_collect.specs.Shares.{frac_in, with_shares};
ghost use Rattle.dcx_cert_collect.specs.Starts.{ArePlaces};
ghost use Rattle.dcx_cert_collect.specs.Calls.{share_to, slope_shares};

use crate::places::Places;
use crate::shares::add_share;
use dcx_frac::{Frac, Passes};
use dcx_shape::Shape;

/// Hands the slopes of one argument on, entry by entry.
fn hand_argument(
    places: &Places,
    argument: usize,
    slopes: &[Frac],
    table: &mut Vec<Frac>,
) -> Result<(), Passes>
    requires places { ArePlaces places.now.tree.now places.now.starts.now (positions places.now.args.now) }
    requires few { length slopes.now < 2 ^ 32 }
    ensures ok { OnOk result (with_shares table.old.items (list_below (length slopes.now)
        (λ e. share_to places.now.tree.now (positions places.now.args.now) argument e (Ok (frac_in slopes.now e)))) ≡ Ok table.new.items) }
    ensures passes { IfErr result (λ p. with_shares table.old.items (list_below (length slopes.now)
        (λ e. share_to places.now.tree.now (positions places.now.args.now) argument e (Ok (frac_in slopes.now e)))) ≡ Err p) }
{
    for (e, slope) in slopes.iter().enumerate() {
        add_share(table, places.place(argument, e as u32), Ok(*slope))?;
    }
    Ok(())
}

/// Hands slopes on, by argument and by entry.
pub(crate) fn hand_slopes(
    places: &Places,
    shapes: &[Shape],
    slopes: &[Frac],
    table: &mut Vec<Frac>,
) -> Result<(), Passes>
    requires places { ArePlaces places.now.tree.now places.now.starts.now (positions places.now.args.now) }
    requires shapes { length shapes.now ≡ length places.now.args.now }
    requires slopes { length slopes.now ≡ all_entries (sides_list shapes.now) }
    ensures ok { OnOk result (with_shares table.old.items (slope_shares places.now.tree.now (positions places.now.args.now) (sides_list shapes.now)
        (λ k e. frac_in slopes.now (entries_before (sides_list shapes.now) k + e))) ≡ Ok table.new.items) }
    ensures passes { IfErr result (λ p. with_shares table.old.items (slope_shares places.now.tree.now (positions places.now.args.now) (sides_list shapes.now)
        (λ k e. frac_in slopes.now (entries_before (sides_list shapes.now) k + e))) ≡ Err p) }
{
    let mut rest = slopes;
    for (k, shape) in shapes.iter().enumerate() {
        let (own, others) = rest.split_at(shape.size() as usize);
        hand_argument(places, k, own, table)?;
        rest = others;
    }
    Ok(())
}
