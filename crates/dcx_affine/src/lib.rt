//! The linear calls, and the pairs of entries that products and quotients are made of.
//!
//! Each call says its value in rows and columns, as a user of NumPy would, apart from the terms that its `map` lists; the
//! law of linearity says that both are the same.
//!
//! | what must hold | where |
//! |---|---|
//! | shapes, signs, trends and terms are the defined ones | the contracts of `LinearOp` in `dcx_atom` |
//! | the value of a sum, mean, running sum or trace is the sum of its terms | `specs/Folds.antt`, `specs/FoldLaws.antt` |
//! | the value of an index, reshape, transpose, diagonal or promotion is the sum of its terms | `specs/Places.antt`, `specs/PlaceLaws.antt` |
//! | the value of `a + b`, `-a` and of differences is the sum of its terms | `specs/Added.antt`, `specs/AddedLaws.antt` |
//! | the value of arrays side by side, or one below the other, is the sum of its terms | `specs/Joined.antt`, `specs/JoinedLaws.antt` |
//! | signs and trends are true of the values | the laws beside each of these |
//! | an index keeps as many places as its result has entries, each within its argument | `Index` |
//! | the entry that stands at a place of a transpose, or of an array broadcast to a shape | `transposed_place`, `promoted_place` |
//! | the pairs of a product or quotient are those of the defined rows and columns | `Pairing`, `specs/Pairing.antt` |
#![tactic(auto)]

mod added;
mod joined;
mod pairing;
mod places;
mod slots;
mod strided;
mod sums;

pub use added::{Diff, Minus, Plus};
pub use joined::{HStack, VStack};
pub use pairing::{EntryPairs, Pair, Pairing, Pairs, product_pair};
pub use places::{Diag, Index, Promote, Reshape, Transpose, promoted_place, transposed_place};
pub use sums::{CumSum, Mean, Sum, Trace};
