//! The magnitude of each entry.
ghost use Rattle.dcx_elem.specs.Kinks.{kink_meaning};
ghost use Rattle.dcx_elem.specs.KinkLaws.{kink_formation, kink_sign, kink_monotonicity, kink_curvature, kink_soundness, kink_tightness, kink_subgradient, kink_recession};
ghost use Rattle.dcx_elem.specs.KinkDualLaws.{kink_duality};
ghost use Rattle.dcx_elem.specs.OwnLaws.{kink_own};
ghost use Rattle.dcx_elem.specs.FractionLaws.{kink_fraction_summands, kink_fraction_coefficients, kink_fraction_slopes};

use crate::kinks::Kink;
use dcx_atom::{Array, Atom, Bend, Graph, Sign, SlopeStop, Trend, ValueStop};
use dcx_frac::{Frac, Fracs};
use dcx_shape::Shape;
use std::alloc::{AllocError, Global};

/// The magnitude of each entry, `|x|`.
#[derive(Clone, Copy, PartialEq, Eq)]
pub struct Abs;

impl Atom for Abs {
    ghost use Rattle.dcx_elem.specs.declared.kinks.Kink.{Kink};

    ghost meaning = { λ _. kink_meaning Kink.Abs };

    ghost formation = { λ _. kink_formation Kink.Abs };

    ghost sign_law = { λ _. kink_sign Kink.Abs };

    ghost monotonicity = { λ _. kink_monotonicity Kink.Abs };

    ghost curvature = { λ _. kink_curvature Kink.Abs };

    ghost graph_soundness = { λ _. kink_soundness Kink.Abs };

    ghost graph_tightness = { λ _. kink_tightness Kink.Abs };

    ghost subgradient = { λ _. kink_subgradient Kink.Abs };

    ghost recession = { λ _. kink_recession Kink.Abs };

    ghost own_unknowns = { λ _. kink_own Kink.Abs };

    ghost duality = { λ _. kink_duality Kink.Abs };

    ghost fraction_summands = { λ _. kink_fraction_summands Kink.Abs };

    ghost fraction_coefficients = { λ _. kink_fraction_coefficients Kink.Abs };

    ghost fraction_slopes = { λ _. kink_fraction_slopes Kink.Abs };

    fn shape(&self, args: &[Shape]) -> Option<Shape> {
        Kink::Abs.shape(args)
    }

    fn bend(&self) -> Bend {
        Kink::Abs.bend()
    }

    fn trend(&self, i: usize, sign: Sign) -> Trend {
        Kink::Abs.trend(i, sign)
    }

    fn sign(&self, args: &[Sign]) -> Sign {
        Kink::Abs.sign(args)
    }

    fn value(&self, alloc: Global, args: &[Array]) -> Result<Array, ValueStop> {
        Kink::Abs.value(alloc, args)
    }

    fn graph(&self, alloc: Global, args: &[Shape]) -> Result<Graph, AllocError> {
        Kink::Abs.graph(alloc, args)
    }

    fn slopes(
        &self,
        alloc: Global,
        args: &[Shape],
        coefficients: &[Frac],
        weights: &[Frac],
    ) -> Result<Fracs, SlopeStop> {
        Kink::Abs.slopes(alloc, args, coefficients, weights)
    }
}
