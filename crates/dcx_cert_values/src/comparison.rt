//! The first entry at which two arrays don't stand to each other as asked.
ghost use Rattle.std.specs.Prelude.{◌≡◌, MatchOption};
ghost use Rattle.dcx_shape.specs.Shape.{sides_of};
ghost use Rattle.dcx_cert_values.specs.Broken.{AllHold, IsFirstBroken};

use dcx_atom::Array;
use dcx_frac::Frac;
use dcx_tree::Kind;

/// An entry at which two arrays don't stand to each other as asked, and the numbers there.
#[derive(Clone, Copy)]
pub struct Broken {
    /// The entry, counted from 0.
    pub entry: u32,
    /// The number on the left.
    pub left: Frac,
    /// The number on the right.
    pub right: Frac,
}

/// The first entry at which left isn't at most right, or isn't right; `None` where there is none.
pub fn first_broken(kind: Kind, left: &Array, right: &Array) -> Option<Broken>
    requires { sides_of left.now.shape ≡ sides_of right.now.shape }
    ensures { MatchOption result (AllHold kind left.now.entries right.now.entries) (λ b. IsFirstBroken kind left.now.entries right.now.entries b.entry b.left b.right) }
{
    let lefts = left.entries.as_slice();
    let rights = right.entries.as_slice();
    for entry in 0..left.shape.size() {
        let x = lefts[entry as usize];
        let y = rights[entry as usize];
        if !kind.holds(&x, &y) {
            return Some(Broken {
                entry,
                left: x,
                right: y,
            });
        }
    }
    None
}
