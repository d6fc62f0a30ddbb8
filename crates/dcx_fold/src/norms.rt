//! The sum of the magnitudes and the greatest of them, of all entries or along a side.
ghost use Rattle.std.specs.Prelude.{◌≡◌};
ghost use Rattle.dcx_fold.specs.declared.folding.Fold.{Fold};
ghost use Rattle.dcx_fold.specs.Folds.{fold_meaning};
ghost use Rattle.dcx_fold.specs.FoldLaws.{fold_formation, fold_sign_law, fold_monotonicity, fold_curvature, fold_soundness, fold_tightness, fold_subgradient, fold_recession};
ghost use Rattle.dcx_fold.specs.FoldDualLaws.{fold_duality};
ghost use Rattle.dcx_fold.specs.OwnLaws.{fold_own};
ghost use Rattle.dcx_fold.specs.FractionLaws.{fold_fraction_summands, fold_fraction_coefficients, fold_fraction_slopes};

use crate::folding::{Fold, Folding};
use dcx_atom::{Array, Atom, Axis, Bend, Graph, Sign, SlopeStop, Trend, ValueStop};
use dcx_frac::{Frac, Fracs};
use dcx_shape::Shape;
use std::alloc::{AllocError, Global};

/// The sum of the magnitudes of all entries, or of each column or row.
#[derive(Clone, Copy, PartialEq, Eq)]
pub struct Norm1 {
    /// Along which side.
    pub axis: Axis,
}

impl Norm1 {
    /// What it shares with the other folds.
    fn folding(self) -> Folding
        ensures { result ≡ record { fold = Fold.Norm1; axis = self.axis } }
    {
        Folding {
            fold: Fold::Norm1,
            axis: self.axis,
        }
    }
}

impl Atom for Norm1 {
    ghost meaning = { λ x. fold_meaning Fold.Norm1 x.axis };

    ghost formation = { λ x. fold_formation Fold.Norm1 x.axis };

    ghost sign_law = { λ x. fold_sign_law Fold.Norm1 x.axis };

    ghost monotonicity = { λ x. fold_monotonicity Fold.Norm1 x.axis };

    ghost curvature = { λ x. fold_curvature Fold.Norm1 x.axis };

    ghost graph_soundness = { λ x. fold_soundness Fold.Norm1 x.axis };

    ghost graph_tightness = { λ x. fold_tightness Fold.Norm1 x.axis };

    ghost subgradient = { λ x. fold_subgradient Fold.Norm1 x.axis };

    ghost recession = { λ x. fold_recession Fold.Norm1 x.axis };

    ghost own_unknowns = { λ x. fold_own Fold.Norm1 x.axis };

    ghost duality = { λ x. fold_duality Fold.Norm1 x.axis };

    ghost fraction_summands = { λ x. fold_fraction_summands Fold.Norm1 x.axis };

    ghost fraction_coefficients = { λ x. fold_fraction_coefficients Fold.Norm1 x.axis };

    ghost fraction_slopes = { λ x. fold_fraction_slopes Fold.Norm1 x.axis };

    fn shape(&self, args: &[Shape]) -> Option<Shape> {
        self.folding().shape(args)
    }

    fn bend(&self) -> Bend {
        self.folding().bend()
    }

    fn trend(&self, i: usize, sign: Sign) -> Trend {
        self.folding().trend(i, sign)
    }

    fn sign(&self, args: &[Sign]) -> Sign {
        self.folding().sign(args)
    }

    fn value(&self, alloc: Global, args: &[Array]) -> Result<Array, ValueStop> {
        self.folding().value(alloc, args)
    }

    fn graph(&self, alloc: Global, args: &[Shape]) -> Result<Graph, AllocError> {
        self.folding().graph(alloc, args)
    }

    fn slopes(
        &self,
        alloc: Global,
        args: &[Shape],
        coefficients: &[Frac],
        weights: &[Frac],
    ) -> Result<Fracs, SlopeStop> {
        self.folding().slopes(alloc, args, coefficients, weights)
    }
}

/// The greatest magnitude of all entries, or of each column or row.
#[derive(Clone, Copy, PartialEq, Eq)]
pub struct NormInf {
    /// Along which side.
    pub axis: Axis,
}

impl NormInf {
    /// What it shares with the other folds.
    fn folding(self) -> Folding
        ensures { result ≡ record { fold = Fold.NormInf; axis = self.axis } }
    {
        Folding {
            fold: Fold::NormInf,
            axis: self.axis,
        }
    }
}

impl Atom for NormInf {
    ghost meaning = { λ x. fold_meaning Fold.NormInf x.axis };

    ghost formation = { λ x. fold_formation Fold.NormInf x.axis };

    ghost sign_law = { λ x. fold_sign_law Fold.NormInf x.axis };

    ghost monotonicity = { λ x. fold_monotonicity Fold.NormInf x.axis };

    ghost curvature = { λ x. fold_curvature Fold.NormInf x.axis };

    ghost graph_soundness = { λ x. fold_soundness Fold.NormInf x.axis };

    ghost graph_tightness = { λ x. fold_tightness Fold.NormInf x.axis };

    ghost subgradient = { λ x. fold_subgradient Fold.NormInf x.axis };

    ghost recession = { λ x. fold_recession Fold.NormInf x.axis };

    ghost own_unknowns = { λ x. fold_own Fold.NormInf x.axis };

    ghost duality = { λ x. fold_duality Fold.NormInf x.axis };

    ghost fraction_summands = { λ x. fold_fraction_summands Fold.NormInf x.axis };

    ghost fraction_coefficients = { λ x. fold_fraction_coefficients Fold.NormInf x.axis };

    ghost fraction_slopes = { λ x. fold_fraction_slopes Fold.NormInf x.axis };

    fn shape(&self, args: &[Shape]) -> Option<Shape> {
        self.folding().shape(args)
    }

    fn bend(&self) -> Bend {
        self.folding().bend()
    }

    fn trend(&self, i: usize, sign: Sign) -> Trend {
        self.folding().trend(i, sign)
    }

    fn sign(&self, args: &[Sign]) -> Sign {
        self.folding().sign(args)
    }

    fn value(&self, alloc: Global, args: &[Array]) -> Result<Array, ValueStop> {
        self.folding().value(alloc, args)
    }

    fn graph(&self, alloc: Global, args: &[Shape]) -> Result<Graph, AllocError> {
        self.folding().graph(alloc, args)
    }

    fn slopes(
        &self,
        alloc: Global,
        args: &[Shape],
        coefficients: &[Frac],
        weights: &[Frac],
    ) -> Result<Fracs, SlopeStop> {
        self.folding().slopes(alloc, args, coefficients, weights)
    }
}
