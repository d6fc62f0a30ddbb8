//! The pairs of a point, by their places.
ghost use Rattle.std.specs.Prelude.{◌≡◌, Some, None, MatchOption, slice_get};

use dcx_atom::Array;
use dcx_point::Point;
use dcx_shape::Name;

/// The name and the array of pair `i`, counted from 0; `None` where there are at most `i` pairs.
pub(crate) fn pair_at(point: &Point, i: usize) -> Option<(&Name, &Array)>
    ensures { MatchOption result (slice_get point.now i ≡ None) (λ pair. slice_get point.now i ≡ Some (pair.0.now, pair.1.now)) }
{
    if i >= point.len() {
        return None;
    }
    let name = point.name_at(i)?;
    let array = point.get(name)?;
    Some((name, array))
}
