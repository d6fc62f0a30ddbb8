//! The part of each entry above 0, and the size of the part below 0.
ghost use Rattle.dcx_elem.specs.Kinks.{kink_meaning};
ghost use Rattle.dcx_elem.specs.KinkLaws.{kink_formation, kink_sign, kink_monotonicity, kink_curvature, kink_soundness, kink_tightness, kink_subgradient, kink_recession};
ghost use Rattle.dcx_elem.specs.KinkDualLaws.{kink_duality};
ghost use Rattle.dcx_elem.specs.OwnLaws.{kink_own};
ghost use Rattle.dcx_elem.specs.FractionLaws.{kink_fraction_summands, kink_fraction_coefficients, kink_fraction_slopes};

use crate::kinks::Kink;
use dcx_atom::{Array, Atom, Bend, Graph, Sign, SlopeStop, Trend, ValueStop};
use dcx_frac::{Frac, Fracs};
use dcx_shape::Shape;
use std::alloc::{AllocError, Global};

/// The part of each entry above 0, `max(x, 0)`.
#[derive(Clone, Copy, PartialEq, Eq)]
pub struct Pos;

impl Atom for Pos {
    ghost use Rattle.dcx_elem.specs.declared.kinks.Kink.{Kink};

    ghost meaning = { λ _. kink_meaning Kink.Pos };

    ghost formation = { λ _. kink_formation Kink.Pos };

    ghost sign_law = { λ _. kink_sign Kink.Pos };

    ghost monotonicity = { λ _. kink_monotonicity Kink.Pos };

    ghost curvature = { λ _. kink_curvature Kink.Pos };

    ghost graph_soundness = { λ _. kink_soundness Kink.Pos };

    ghost graph_tightness = { λ _. kink_tightness Kink.Pos };

    ghost subgradient = { λ _. kink_subgradient Kink.Pos };

    ghost recession = { λ _. kink_recession Kink.Pos };

    ghost own_unknowns = { λ _. kink_own Kink.Pos };

    ghost duality = { λ _. kink_duality Kink.Pos };

    ghost fraction_summands = { λ _. kink_fraction_summands Kink.Pos };

    ghost fraction_coefficients = { λ _. kink_fraction_coefficients Kink.Pos };

    ghost fraction_slopes = { λ _. kink_fraction_slopes Kink.Pos };

    fn shape(&self, args: &[Shape]) -> Option<Shape> {
        Kink::Pos.shape(args)
    }

    fn bend(&self) -> Bend {
        Kink::Pos.bend()
    }

    fn trend(&self, i: usize, sign: Sign) -> Trend {
        Kink::Pos.trend(i, sign)
    }

    fn sign(&self, args: &[Sign]) -> Sign {
        Kink::Pos.sign(args)
    }

    fn value(&self, alloc: Global, args: &[Array]) -> Result<Array, ValueStop> {
        Kink::Pos.value(alloc, args)
    }

    fn graph(&self, alloc: Global, args: &[Shape]) -> Result<Graph, AllocError> {
        Kink::Pos.graph(alloc, args)
    }

    fn slopes(
        &self,
        alloc: Global,
        args: &[Shape],
        coefficients: &[Frac],
        weights: &[Frac],
    ) -> Result<Fracs, SlopeStop> {
        Kink::Pos.slopes(alloc, args, coefficients, weights)
    }
}

/// The size of each entry's part below 0, `max(-x, 0)`.
#[derive(Clone, Copy, PartialEq, Eq)]
pub struct Neg;

impl Atom for Neg {
    ghost use Rattle.dcx_elem.specs.declared.kinks.Kink.{Kink};

    ghost meaning = { λ _. kink_meaning Kink.Neg };

    ghost formation = { λ _. kink_formation Kink.Neg };

    ghost sign_law = { λ _. kink_sign Kink.Neg };

    ghost monotonicity = { λ _. kink_monotonicity Kink.Neg };

    ghost curvature = { λ _. kink_curvature Kink.Neg };

    ghost graph_soundness = { λ _. kink_soundness Kink.Neg };

    ghost graph_tightness = { λ _. kink_tightness Kink.Neg };

    ghost subgradient = { λ _. kink_subgradient Kink.Neg };

    ghost recession = { λ _. kink_recession Kink.Neg };

    ghost own_unknowns = { λ _. kink_own Kink.Neg };

    ghost duality = { λ _. kink_duality Kink.Neg };

    ghost fraction_summands = { λ _. kink_fraction_summands Kink.Neg };

    ghost fraction_coefficients = { λ _. kink_fraction_coefficients Kink.Neg };

    ghost fraction_slopes = { λ _. kink_fraction_slopes Kink.Neg };

    fn shape(&self, args: &[Shape]) -> Option<Shape> {
        Kink::Neg.shape(args)
    }

    fn bend(&self) -> Bend {
        Kink::Neg.bend()
    }

    fn trend(&self, i: usize, sign: Sign) -> Trend {
        Kink::Neg.trend(i, sign)
    }

    fn sign(&self, args: &[Sign]) -> Sign {
        Kink::Neg.sign(args)
    }

    fn value(&self, alloc: Global, args: &[Array]) -> Result<Array, ValueStop> {
        Kink::Neg.value(alloc, args)
    }

    fn graph(&self, alloc: Global, args: &[Shape]) -> Result<Graph, AllocError> {
        Kink::Neg.graph(alloc, args)
    }

    fn slopes(
        &self,
        alloc: Global,
        args: &[Shape],
        coefficients: &[Frac],
        weights: &[Frac],
    ) -> Result<Fracs, SlopeStop> {
        Kink::Neg.slopes(alloc, args, coefficients, weights)
    }
}
