//! The next open side.
ghost use Rattle.std.specs.Prelude.{◌≡◌};
ghost use Rattle.dcx_branch.specs.Sides.{IsNextSide, IsUpperOf};

use crate::side::Side;

/// The upper side of the same split.
fn upper_of(side: &Side) -> Side
    ensures { IsUpperOf side.now result }
{
    Side {
        place: side.place,
        limit: side.limit,
        above: true,
    }
}

/// Goes on to the upper side of the last split whose lower side was taken, and forgets what follows it; false where there is
/// none, and then no side is left.
pub(crate) fn next_side(sides: &mut Vec<Side>) -> bool
    ensures { IsNextSide sides.old.items result sides.new.items }
{
    'sides: while !sides.is_empty() {
        let last = sides.len() - 1;
        let side = sides[last];
        if side.above {
            sides.pop();
        } else {
            sides[last] = upper_of(&side);
            return true;
        }
    }
    false
}
