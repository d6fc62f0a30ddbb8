//! The greatest of several arrays, entry by entry, and the least.
ghost use Rattle.std.specs.Prelude.{◌≡◌};
ghost use Rattle.dcx_elem.specs.Extremes.{extreme_meaning};
ghost use Rattle.dcx_elem.specs.ExtremeLaws.{extreme_formation, extreme_sign_law, extreme_monotonicity, extreme_curvature, extreme_soundness};
ghost use Rattle.dcx_elem.specs.ExtremeLaws.{extreme_tightness, extreme_subgradient, extreme_recession};
ghost use Rattle.dcx_elem.specs.ExtremeDualLaws.{extreme_duality};
ghost use Rattle.dcx_elem.specs.OwnLaws.{extreme_own};
ghost use Rattle.dcx_elem.specs.FractionLaws.{extreme_fraction_summands, extreme_fraction_coefficients, extreme_fraction_slopes};

use crate::extremes::Extreme;
use dcx_atom::{Array, Atom, Bend, Graph, Sign, SlopeStop, Trend, ValueStop};
use dcx_frac::{Frac, Fracs};
use dcx_shape::Shape;
use std::alloc::{AllocError, Global};

/// The greatest of `count` arrays, entry by entry.
#[derive(Clone, Copy, PartialEq, Eq)]
pub struct Maximum {
    /// How many arrays the call takes. It has a value where they are two or more and of one shape.
    pub count: u32,
}

impl Maximum {
    /// What it shares with its mirror image.
    fn extreme(self) -> Extreme
        ensures { result ≡ record { bend = Bend.Convex; count = self.count } }
    {
        Extreme {
            bend: Bend::Convex,
            count: self.count,
        }
    }
}

impl Atom for Maximum {
    ghost use Rattle.dcx_atom.specs.declared.flags.Bend.{Bend};

    ghost meaning = { λ x. extreme_meaning Bend.Convex x.count };

    ghost formation = { λ x. extreme_formation Bend.Convex x.count };

    ghost sign_law = { λ x. extreme_sign_law Bend.Convex x.count };

    ghost monotonicity = { λ x. extreme_monotonicity Bend.Convex x.count };

    ghost curvature = { λ x. extreme_curvature Bend.Convex x.count };

    ghost graph_soundness = { λ x. extreme_soundness Bend.Convex x.count };

    ghost graph_tightness = { λ x. extreme_tightness Bend.Convex x.count };

    ghost subgradient = { λ x. extreme_subgradient Bend.Convex x.count };

    ghost recession = { λ x. extreme_recession Bend.Convex x.count };

    ghost own_unknowns = { λ x. extreme_own Bend.Convex x.count };

    ghost duality = { λ x. extreme_duality Bend.Convex x.count };

    ghost fraction_summands = { λ x. extreme_fraction_summands Bend.Convex x.count };

    ghost fraction_coefficients = { λ x. extreme_fraction_coefficients Bend.Convex x.count };

    ghost fraction_slopes = { λ x. extreme_fraction_slopes Bend.Convex x.count };

    fn shape(&self, args: &[Shape]) -> Option<Shape> {
        self.extreme().shape(args)
    }

    fn bend(&self) -> Bend {
        self.extreme().bend()
    }

    fn trend(&self, i: usize, sign: Sign) -> Trend {
        self.extreme().trend(i, sign)
    }

    fn sign(&self, args: &[Sign]) -> Sign {
        self.extreme().sign(args)
    }

    fn value(&self, alloc: Global, args: &[Array]) -> Result<Array, ValueStop> {
        self.extreme().value(alloc, args)
    }

    fn graph(&self, alloc: Global, args: &[Shape]) -> Result<Graph, AllocError> {
        self.extreme().graph(alloc, args)
    }

    fn slopes(
        &self,
        alloc: Global,
        args: &[Shape],
        coefficients: &[Frac],
        weights: &[Frac],
    ) -> Result<Fracs, SlopeStop> {
        self.extreme().slopes(alloc, args, coefficients, weights)
    }
}

/// The least of `count` arrays, entry by entry.
#[derive(Clone, Copy, PartialEq, Eq)]
pub struct Minimum {
    /// How many arrays the call takes. It has a value where they are two or more and of one shape.
    pub count: u32,
}

impl Minimum {
    /// What it shares with its mirror image.
    fn extreme(self) -> Extreme
        ensures { result ≡ record { bend = Bend.Concave; count = self.count } }
    {
        Extreme {
            bend: Bend::Concave,
            count: self.count,
        }
    }
}

impl Atom for Minimum {
    ghost use Rattle.dcx_atom.specs.declared.flags.Bend.{Bend};

    ghost meaning = { λ x. extreme_meaning Bend.Concave x.count };

    ghost formation = { λ x. extreme_formation Bend.Concave x.count };

    ghost sign_law = { λ x. extreme_sign_law Bend.Concave x.count };

    ghost monotonicity = { λ x. extreme_monotonicity Bend.Concave x.count };

    ghost curvature = { λ x. extreme_curvature Bend.Concave x.count };

    ghost graph_soundness = { λ x. extreme_soundness Bend.Concave x.count };

    ghost graph_tightness = { λ x. extreme_tightness Bend.Concave x.count };

    ghost subgradient = { λ x. extreme_subgradient Bend.Concave x.count };

    ghost recession = { λ x. extreme_recession Bend.Concave x.count };

    ghost own_unknowns = { λ x. extreme_own Bend.Concave x.count };

    ghost duality = { λ x. extreme_duality Bend.Concave x.count };

    ghost fraction_summands = { λ x. extreme_fraction_summands Bend.Concave x.count };

    ghost fraction_coefficients = { λ x. extreme_fraction_coefficients Bend.Concave x.count };

    ghost fraction_slopes = { λ x. extreme_fraction_slopes Bend.Concave x.count };

    fn shape(&self, args: &[Shape]) -> Option<Shape> {
        self.extreme().shape(args)
    }

    fn bend(&self) -> Bend {
        self.extreme().bend()
    }

    fn trend(&self, i: usize, sign: Sign) -> Trend {
        self.extreme().trend(i, sign)
    }

    fn sign(&self, args: &[Sign]) -> Sign {
        self.extreme().sign(args)
    }

    fn value(&self, alloc: Global, args: &[Array]) -> Result<Array, ValueStop> {
        self.extreme().value(alloc, args)
    }

    fn graph(&self, alloc: Global, args: &[Shape]) -> Result<Graph, AllocError> {
        self.extreme().graph(alloc, args)
    }

    fn slopes(
        &self,
        alloc: Global,
        args: &[Shape],
        coefficients: &[Frac],
        weights: &[Frac],
    ) -> Result<Fracs, SlopeStop> {
        self.extreme().slopes(alloc, args, coefficients, weights)
    }
}
