//! What a call must offer to stand in a tree.
ghost use Rattle.std.specs.Prelude.{◌≡◌, ◌↔◌, ℕ, List, Option, IsTrue, IfOk, option_map, map};
ghost use Rattle.dcx_shape.specs.declared.shape.Sides.{Sides};
ghost use Rattle.dcx_shape.specs.Shape.{sides_of};

use dcx_shape::Shape;
use std::alloc::{AllocError, Global};

/// A call with its own fields and without its arguments, as it stands in a node.
pub trait Operator: Drop {
    /// The sides of the value, by those of the arguments.
    ghost gives: { Self → List Sides → Option Sides };

    /// A number that equal calls share.
    ghost bucket_of: { Self → ℕ };

    /// The shape of the value, from those of the arguments; `None` where the call has no value.
    fn shape(&self, args: &[Shape]) -> Option<Shape>
        ensures { option_map sides_of result ≡ gives self.now (map sides_of args.now) };

    /// Whether this is the same call, with the same fields.
    fn same(&self, other: &Self) -> bool
        ensures { IsTrue result ↔ (self.now ≡ other.now) };

    /// A number that equal calls share, by which the tree finds them. The more it tells calls apart, the faster.
    fn bucket(&self) -> u32
        ensures { result ≡ bucket_of self.now };

    /// The same call again.
    fn copy(&self, alloc: Global) -> Result<Self, AllocError>
        ensures { IfOk result (λ c. c ≡ self.now) };
}
