//! The trait of linear calls.
ghost use Rattle.std.specs.Prelude.{◌≡◌, IsSome, IfOk, IfSome, option_map};
ghost use Rattle.dcx_shape.specs.Shape.{sides_of};
ghost use Rattle.dcx_shape.specs.Sides.{entries_of};
ghost use Rattle.dcx_atom.specs.Arrays.{sides_list};
ghost use Rattle.dcx_atom.specs.Linear.{LinearMeaning, IsLinear, KeepsSign, KeepsTrend, AreTermsOf};

use crate::flags::{Sign, Trend};
use crate::terms::Terms;
use dcx_shape::Shape;
use std::alloc::{AllocError, Global};

/// A linear call.
pub trait LinearOp {
    /// All that the call is.
    ghost meaning: { Self → LinearMeaning };

    /// The shape of the value, from those of the arguments; `None` where the call has no value.
    fn shape(&self, args: &[Shape]) -> Option<Shape>
        ensures { option_map sides_of result ≡ (meaning self.now).shape (sides_list args.now) };

    /// How the value moves with argument `i`.
    fn trend(&self, i: usize) -> Trend
        ensures { result ≡ (meaning self.now).trend i };

    /// The sign of the value, from those of the arguments.
    fn sign(&self, args: &[Sign]) -> Sign
        ensures { result ≡ (meaning self.now).sign args.now };

    /// The terms of each result entry, by argument and then by entry.
    fn map(&self, alloc: Global, args: &[Shape]) -> Result<Terms, AllocError>
        requires { IsSome ((meaning self.now).shape (sides_list args.now)) }
        ensures { IfOk result (λ t. IfSome ((meaning self.now).shape (sides_list args.now)) (λ s. AreTermsOf (meaning self.now) (sides_list args.now) (entries_of s) t)) };

    /// The value is the sum of the terms.
    ghost linearity: { (x : Self) → IsLinear (meaning x) };

    /// The value has the sign that `sign` answers.
    ghost sign_law: { (x : Self) → KeepsSign (meaning x) };

    /// The value rises and falls as `trend` says.
    ghost monotonicity: { (x : Self) → KeepsTrend (meaning x) };
}
