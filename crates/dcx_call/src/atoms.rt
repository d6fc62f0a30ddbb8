//! The nonlinear calls as one type, which does what each of them does.
ghost use Rattle.dcx_call.specs.Atoms.{atom_meaning, atom_lawful};

use dcx_atom::{Array, Atom, Bend, Graph, Sign, SlopeStop, Trend, ValueStop};
use dcx_elem::{Abs, Maximum, Minimum, Neg, Pos};
use dcx_fold::{CumMax, MaxOf, MinOf, Norm1, NormInf, SumLargest, SumSmallest};
use dcx_frac::{Frac, Fracs};
use dcx_shape::Shape;
use std::alloc::{AllocError, Global};

/// A nonlinear call.
#[derive(Clone, Copy, PartialEq, Eq)]
pub enum AtomCall {
    /// The magnitude, entry by entry.
    Abs(Abs),
    /// The greatest of several arrays, entry by entry.
    Maximum(Maximum),
    /// The least of several arrays, entry by entry.
    Minimum(Minimum),
    /// The part above 0, entry by entry.
    Pos(Pos),
    /// The size of the part below 0, entry by entry.
    Neg(Neg),
    /// The greatest entry, of all or along a side.
    MaxOf(MaxOf),
    /// The least entry, of all or along a side.
    MinOf(MinOf),
    /// The sum of the magnitudes, of all or along a side.
    Norm1(Norm1),
    /// The greatest magnitude, of all or along a side.
    NormInf(NormInf),
    /// The sum of the largest entries.
    SumLargest(SumLargest),
    /// The sum of the smallest entries.
    SumSmallest(SumSmallest),
    /// The running maximum of a vector.
    CumMax(CumMax),
}

impl Atom for AtomCall {
    ghost meaning = { atom_meaning };

    ghost formation = { λ x. (atom_lawful x).formation };

    ghost sign_law = { λ x. (atom_lawful x).sign };

    ghost monotonicity = { λ x. (atom_lawful x).monotonicity };

    ghost curvature = { λ x. (atom_lawful x).curvature };

    ghost graph_soundness = { λ x. (atom_lawful x).soundness };

    ghost graph_tightness = { λ x. (atom_lawful x).tightness };

    ghost subgradient = { λ x. (atom_lawful x).subgradient };

    ghost recession = { λ x. (atom_lawful x).recession };

    ghost own_unknowns = { λ x. (atom_lawful x).own_unknowns };

    ghost duality = { λ x. (atom_lawful x).duality };

    ghost fraction_summands = { λ x. (atom_lawful x).fraction_summands };

    ghost fraction_coefficients = { λ x. (atom_lawful x).fraction_coefficients };

    ghost fraction_slopes = { λ x. (atom_lawful x).fraction_slopes };

    fn shape(&self, args: &[Shape]) -> Option<Shape> {
        match self {
            AtomCall::Abs(call) => call.shape(args),
            AtomCall::Maximum(call) => call.shape(args),
            AtomCall::Minimum(call) => call.shape(args),
            AtomCall::Pos(call) => call.shape(args),
            AtomCall::Neg(call) => call.shape(args),
            AtomCall::MaxOf(call) => call.shape(args),
            AtomCall::MinOf(call) => call.shape(args),
            AtomCall::Norm1(call) => call.shape(args),
            AtomCall::NormInf(call) => call.shape(args),
            AtomCall::SumLargest(call) => call.shape(args),
            AtomCall::SumSmallest(call) => call.shape(args),
            AtomCall::CumMax(call) => call.shape(args),
        }
    }

    fn bend(&self) -> Bend {
        match self {
            AtomCall::Abs(call) => call.bend(),
            AtomCall::Maximum(call) => call.bend(),
            AtomCall::Minimum(call) => call.bend(),
            AtomCall::Pos(call) => call.bend(),
            AtomCall::Neg(call) => call.bend(),
            AtomCall::MaxOf(call) => call.bend(),
            AtomCall::MinOf(call) => call.bend(),
            AtomCall::Norm1(call) => call.bend(),
            AtomCall::NormInf(call) => call.bend(),
            AtomCall::SumLargest(call) => call.bend(),
            AtomCall::SumSmallest(call) => call.bend(),
            AtomCall::CumMax(call) => call.bend(),
        }
    }

    fn trend(&self, i: usize, sign: Sign) -> Trend {
        match self {
            AtomCall::Abs(call) => call.trend(i, sign),
            AtomCall::Maximum(call) => call.trend(i, sign),
            AtomCall::Minimum(call) => call.trend(i, sign),
            AtomCall::Pos(call) => call.trend(i, sign),
            AtomCall::Neg(call) => call.trend(i, sign),
            AtomCall::MaxOf(call) => call.trend(i, sign),
            AtomCall::MinOf(call) => call.trend(i, sign),
            AtomCall::Norm1(call) => call.trend(i, sign),
            AtomCall::NormInf(call) => call.trend(i, sign),
            AtomCall::SumLargest(call) => call.trend(i, sign),
            AtomCall::SumSmallest(call) => call.trend(i, sign),
            AtomCall::CumMax(call) => call.trend(i, sign),
        }
    }

    fn sign(&self, args: &[Sign]) -> Sign {
        match self {
            AtomCall::Abs(call) => call.sign(args),
            AtomCall::Maximum(call) => call.sign(args),
            AtomCall::Minimum(call) => call.sign(args),
            AtomCall::Pos(call) => call.sign(args),
            AtomCall::Neg(call) => call.sign(args),
            AtomCall::MaxOf(call) => call.sign(args),
            AtomCall::MinOf(call) => call.sign(args),
            AtomCall::Norm1(call) => call.sign(args),
            AtomCall::NormInf(call) => call.sign(args),
            AtomCall::SumLargest(call) => call.sign(args),
            AtomCall::SumSmallest(call) => call.sign(args),
            AtomCall::CumMax(call) => call.sign(args),
        }
    }

    fn value(&self, alloc: Global, args: &[Array]) -> Result<Array, ValueStop> {
        match self {
            AtomCall::Abs(call) => call.value(alloc, args),
            AtomCall::Maximum(call) => call.value(alloc, args),
            AtomCall::Minimum(call) => call.value(alloc, args),
            AtomCall::Pos(call) => call.value(alloc, args),
            AtomCall::Neg(call) => call.value(alloc, args),
            AtomCall::MaxOf(call) => call.value(alloc, args),
            AtomCall::MinOf(call) => call.value(alloc, args),
            AtomCall::Norm1(call) => call.value(alloc, args),
            AtomCall::NormInf(call) => call.value(alloc, args),
            AtomCall::SumLargest(call) => call.value(alloc, args),
            AtomCall::SumSmallest(call) => call.value(alloc, args),
            AtomCall::CumMax(call) => call.value(alloc, args),
        }
    }

    fn graph(&self, alloc: Global, args: &[Shape]) -> Result<Graph, AllocError> {
        match self {
            AtomCall::Abs(call) => call.graph(alloc, args),
            AtomCall::Maximum(call) => call.graph(alloc, args),
            AtomCall::Minimum(call) => call.graph(alloc, args),
            AtomCall::Pos(call) => call.graph(alloc, args),
            AtomCall::Neg(call) => call.graph(alloc, args),
            AtomCall::MaxOf(call) => call.graph(alloc, args),
            AtomCall::MinOf(call) => call.graph(alloc, args),
            AtomCall::Norm1(call) => call.graph(alloc, args),
            AtomCall::NormInf(call) => call.graph(alloc, args),
            AtomCall::SumLargest(call) => call.graph(alloc, args),
            AtomCall::SumSmallest(call) => call.graph(alloc, args),
            AtomCall::CumMax(call) => call.graph(alloc, args),
        }
    }

    fn slopes(
        &self,
        alloc: Global,
        args: &[Shape],
        coefficients: &[Frac],
        weights: &[Frac],
    ) -> Result<Fracs, SlopeStop> {
        match self {
            AtomCall::Abs(call) => call.slopes(alloc, args, coefficients, weights),
            AtomCall::Maximum(call) => call.slopes(alloc, args, coefficients, weights),
            AtomCall::Minimum(call) => call.slopes(alloc, args, coefficients, weights),
            AtomCall::Pos(call) => call.slopes(alloc, args, coefficients, weights),
            AtomCall::Neg(call) => call.slopes(alloc, args, coefficients, weights),
            AtomCall::MaxOf(call) => call.slopes(alloc, args, coefficients, weights),
            AtomCall::MinOf(call) => call.slopes(alloc, args, coefficients, weights),
            AtomCall::Norm1(call) => call.slopes(alloc, args, coefficients, weights),
            AtomCall::NormInf(call) => call.slopes(alloc, args, coefficients, weights),
            AtomCall::SumLargest(call) => call.slopes(alloc, args, coefficients, weights),
            AtomCall::SumSmallest(call) => call.slopes(alloc, args, coefficients, weights),
            AtomCall::CumMax(call) => call.slopes(alloc, args, coefficients, weights),
        }
    }
}
