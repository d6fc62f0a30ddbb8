//! The bounds of the box of sides, entry by entry.
ghost use Rattle.std.specs.Prelude.{◌≡◌, ◌++◌, ◌∷◌, [], IfOk, OnOk};
ghost use Rattle.dcx_right.specs.Boxes.{mark_bounds, is_entry};
ghost use Rattle.dcx_branch.specs.Rows.{bound_of, bounds_of as bounds_by};
ghost use Rattle.dcx_branch.specs.Sides.{limits_of, side_bounds, sided, box_bounds};

use crate::bound::BoundAt;
use crate::place::Place;
use crate::side::Side;
use dcx_call::Whole;
use std::alloc::{AllocError, Global};

/// The bounds of an entry.
#[derive(Clone, Copy)]
pub(crate) struct Limits {
    /// The least number that it may be, where there is one.
    pub lower: Option<i128>,
    /// The greatest one.
    pub upper: Option<i128>,
}

/// The bounds of an entry in the box of all whole points, by the mark of its variable.
fn marked(whole: Whole) -> Limits
    ensures { limits_of result ≡ mark_bounds whole }
{
    let upper = match whole {
        Whole::Boolean => Some(1),
        Whole::Not | Whole::Integer => None,
    };
    Limits { lower: None, upper }
}

/// Whether a side is one of this entry.
fn is_at(side: &Side, place: &Place) -> bool
    ensures { result ≡ is_entry side.now.place.variable side.now.place.entry place.now.variable place.now.entry }
{
    place.variable == side.place.variable && place.entry == side.place.entry
}

/// The bounds of an entry on a side of it.
fn narrowed(limits: Limits, side: &Side) -> Limits
    ensures { limits_of result ≡ side_bounds side.now (limits_of limits) }
{
    if side.above {
        Limits {
            lower: Some(side.limit + 1),
            upper: limits.upper,
        }
    } else {
        Limits {
            lower: limits.lower,
            upper: Some(side.limit),
        }
    }
}

/// The bounds of an entry on a side, which may be one of another entry.
fn beside(limits: Limits, side: &Side, place: &Place) -> Limits
    ensures { limits_of result ≡ sided (limits_of limits) place.now.variable place.now.entry (side.now ∷ []) }
{
    if is_at(side, place) {
        narrowed(limits, side)
    } else {
        limits
    }
}

/// The bounds of an entry in the box of these sides.
fn limits_at(place: &Place, sides: &[Side]) -> Limits
    ensures { limits_of result ≡ sided (mark_bounds place.now.whole) place.now.variable place.now.entry sides.now }
{
    let mut limits = marked(place.whole);
    'sides: for side in sides {
        limits = beside(limits, side, place);
    }
    limits
}

/// Adds a bound of an entry, where there is one.
fn push_bound(
    bounds: &mut Vec<BoundAt>,
    place: &Place,
    upper: bool,
    limit: Option<i128>,
) -> Result<(), AllocError>
    ensures { OnOk result (bounds.new.items ≡ bounds.old.items ++ bound_of place.now upper limit) }
{
    match limit {
        None => Ok(()),
        Some(limit) => {
            bounds.push(BoundAt {
                place: *place,
                upper,
                limit,
            })?;
            Ok(())
        }
    }
}

/// Adds the bounds of an entry, the lower one first.
fn push_bounds(bounds: &mut Vec<BoundAt>, place: &Place, limits: Limits) -> Result<(), AllocError>
    ensures { OnOk result (bounds.new.items ≡ bounds.old.items ++ bounds_by place.now (limits_of limits)) }
{
    push_bound(bounds, place, false, limits.lower)?;
    push_bound(bounds, place, true, limits.upper)
}

/// The bounds of the box of these sides, entry by entry and the lower one first.
pub(crate) fn bounds_of(
    alloc: Global,
    places: &[Place],
    sides: &[Side],
) -> Result<Vec<BoundAt>, AllocError>
    ensures { IfOk result (λ v. v.items ≡ box_bounds places.now sides.now) }
{
    let mut bounds = Vec::new(alloc);
    'places: for place in places {
        push_bounds(&mut bounds, place, limits_at(place, sides))?;
    }
    Ok(bounds)
}
