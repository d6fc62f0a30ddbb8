//! The trait of nonlinear calls.
ghost use Rattle.std.specs.Prelude.{◌≡◌, IsSome, IfOk, IfErr, IfSome, option_map, length};
ghost use Rattle.dcx_shape.specs.Shape.{sides_of};
ghost use Rattle.dcx_shape.specs.Sides.{entries_of};
ghost use Rattle.dcx_atom.specs.Arrays.{sides_list, array_sides};
ghost use Rattle.dcx_atom.specs.Meaning.{Meaning};
ghost use Rattle.dcx_atom.specs.Value.{IsValueOf, IsValueStop};
ghost use Rattle.dcx_atom.specs.Graph.{IsGraphOf};
ghost use Rattle.dcx_atom.specs.Steps.{rows_before, AreSlopesOf, IsSlopeStop};
ghost use Rattle.dcx_atom.specs.Laws.{SumsUp, KeepsSign, KeepsTrend, IsBent, IsSoundGraph, IsTightGraph, HasSubgradients, Recedes};
ghost use Rattle.dcx_atom.specs.OwnUnknowns.{HasOwnUnknowns};
ghost use Rattle.dcx_atom.specs.Fractions.{HasFractionSummands, HasFractionCoefficients, HasFractionSlopes};
ghost use Rattle.dcx_atom.specs.Duality.{HasDualGraph};

use crate::array::Array;
use crate::flags::{Bend, Sign, Trend};
use crate::graph::Graph;
use crate::stops::{SlopeStop, ValueStop};
use dcx_frac::{Frac, Fracs};
use dcx_shape::Shape;
use std::alloc::{AllocError, Global};

/// A nonlinear call, which is convex or concave.
pub trait Atom {
    /// All that the call is.
    ghost meaning: { Self → Meaning };

    /// The shape of the value, from those of the arguments; `None` where the call has no value.
    fn shape(&self, args: &[Shape]) -> Option<Shape>
        ensures { option_map sides_of result ≡ (meaning self.now).shape (sides_list args.now) };

    /// Which way the call bends.
    fn bend(&self) -> Bend
        ensures { result ≡ (meaning self.now).bend };

    /// How the value moves with argument `i`, where that has this sign.
    fn trend(&self, i: usize, sign: Sign) -> Trend
        ensures { result ≡ (meaning self.now).trend i sign };

    /// The sign of the value, from those of the arguments.
    fn sign(&self, args: &[Sign]) -> Sign
        ensures { result ≡ (meaning self.now).sign args.now };

    /// The value at these arguments.
    ///
    /// `Passes` where an addition passes 128 bits: the first one, entry by entry.
    fn value(&self, alloc: Global, args: &[Array]) -> Result<Array, ValueStop>
        requires { IsSome ((meaning self.now).shape (array_sides args.now)) }
        ensures ok { IfOk result (IsValueOf (meaning self.now) args.now) }
        ensures stop { IfErr result (λ e. IfSome ((meaning self.now).shape (array_sides args.now)) (λ s. IsValueStop (meaning self.now) args.now (entries_of s) e)) };

    /// The rows that stand for the call at arguments of these shapes.
    fn graph(&self, alloc: Global, args: &[Shape]) -> Result<Graph, AllocError>
        requires { IsSome ((meaning self.now).shape (sides_list args.now)) }
        ensures { IfOk result (λ g. IfSome ((meaning self.now).shape (sides_list args.now)) (λ s. IsGraphOf (meaning self.now) (sides_list args.now) (entries_of s) g)) };

    /// The slopes that weights of the rows give for these coefficients of the result entries, by argument and by entry.
    ///
    /// `Refused` where the weights break a condition, and `Passes` where an operation passes 128 bits: the first of both,
    /// result entry by result entry.
    fn slopes(
        &self,
        alloc: Global,
        args: &[Shape],
        coefficients: &[Frac],
        weights: &[Frac],
    ) -> Result<Fracs, SlopeStop>
        requires shape { IsSome ((meaning self.now).shape (sides_list args.now)) }
        requires coefficients { IfSome ((meaning self.now).shape (sides_list args.now)) (λ s. length coefficients.now ≡ entries_of s) }
        requires weights { IfSome ((meaning self.now).shape (sides_list args.now)) (λ s. length weights.now ≡ rows_before (meaning self.now) (sides_list args.now) (entries_of s)) }
        ensures ok { IfOk result (λ g. IfSome ((meaning self.now).shape (sides_list args.now))
            (λ s. AreSlopesOf (meaning self.now) (sides_list args.now) (entries_of s) coefficients.now weights.now g)) }
        ensures stop { IfErr result (λ e. IfSome ((meaning self.now).shape (sides_list args.now))
            (λ s. IsSlopeStop (meaning self.now) (sides_list args.now) (entries_of s) coefficients.now weights.now e)) };

    /// The value that is formed is the defined one: each entry is the sum of its summands.
    ghost formation: { (x : Self) → SumsUp (meaning x) };

    /// The value has the sign that `sign` answers.
    ghost sign_law: { (x : Self) → KeepsSign (meaning x) };

    /// The value rises and falls as `trend` says, where one of the two arguments has the sign.
    ghost monotonicity: { (x : Self) → KeepsTrend (meaning x) };

    /// The value is convex or concave, entry by entry.
    ghost curvature: { (x : Self) → IsBent (meaning x) };

    /// Where the rows hold, each result is beyond the value.
    ghost graph_soundness: { (x : Self) → IsSoundGraph (meaning x) };

    /// At every argument the filling makes the rows hold, and each result the value.
    ghost graph_tightness: { (x : Self) → IsTightGraph (meaning x) };

    /// Slopes of accepted weights bound the sum of coefficients times values from below, at all arguments.
    ghost subgradient: { (x : Self) → HasSubgradients (meaning x) };

    /// The value along a ray isn't beyond its value at the start and so many times that of the ray.
    ghost recession: { (x : Self) → Recedes (meaning x) };

    /// Rows and results speak of no auxiliary unknowns but those of which the graph tells the kinds.
    ghost own_unknowns: { (x : Self) → HasOwnUnknowns (meaning x) };

    /// Slopes are those of the weighted rows, and weights that let no auxiliary unknown lower the sum of coefficients times
    /// results meet the conditions.
    ghost duality: { (x : Self) → HasDualGraph (meaning x) };

    /// What is summed at fractions of 128 bits are such fractions.
    ghost fraction_summands: { (x : Self) → HasFractionSummands (meaning x) };

    /// The coefficients of the graph are fractions of 128 bits.
    ghost fraction_coefficients: { (x : Self) → HasFractionCoefficients (meaning x) };

    /// Slopes whose steps don't stop are fractions of 128 bits.
    ghost fraction_slopes: { (x : Self) → HasFractionSlopes (meaning x) };
}
