//! The greatest entry and the least one, of all or along a side.
ghost use Rattle.std.specs.Prelude.{◌≡◌};
ghost use Rattle.dcx_fold.specs.declared.folding.Fold.{Fold};
ghost use Rattle.dcx_fold.specs.Folds.{fold_meaning};
ghost use Rattle.dcx_fold.specs.FoldLaws.{fold_formation, fold_sign_law, fold_monotonicity, fold_curvature, fold_soundness, fold_tightness, fold_subgradient, fold_recession};
ghost use Rattle.dcx_fold.specs.FoldDualLaws.{fold_duality};
ghost use Rattle.dcx_fold.specs.OwnLaws.{fold_own};
ghost use Rattle.dcx_fold.specs.FractionLaws.{fold_fraction_summands, fold_fraction_coefficients, fold_fraction_slopes};

use crate::folding::{Fold, Folding};
use dcx_atom::{Array, Atom, Axis, Bend, Graph, Sign, SlopeStop, Trend, ValueStop};
use dcx_frac::{Frac, Fracs};
use dcx_shape::Shape;
use std::alloc::{AllocError, Global};

/// The greatest of all entries, or of each column or row.
#[derive(Clone, Copy, PartialEq, Eq)]
pub struct MaxOf {
    /// Along which side.
    pub axis: Axis,
}

impl MaxOf {
    /// What it shares with the other folds.
    fn folding(self) -> Folding
        ensures { result ≡ record { fold = Fold.Max; axis = self.axis } }
    {
        Folding {
            fold: Fold::Max,
            axis: self.axis,
        }
    }
}

impl Atom for MaxOf {
    ghost meaning = { λ x. fold_meaning Fold.Max x.axis };

    ghost formation = { λ x. fold_formation Fold.Max x.axis };

    ghost sign_law = { λ x. fold_sign_law Fold.Max x.axis };

    ghost monotonicity = { λ x. fold_monotonicity Fold.Max x.axis };

    ghost curvature = { λ x. fold_curvature Fold.Max x.axis };

    ghost graph_soundness = { λ x. fold_soundness Fold.Max x.axis };

    ghost graph_tightness = { λ x. fold_tightness Fold.Max x.axis };

    ghost subgradient = { λ x. fold_subgradient Fold.Max x.axis };

    ghost recession = { λ x. fold_recession Fold.Max x.axis };

    ghost own_unknowns = { λ x. fold_own Fold.Max x.axis };

    ghost duality = { λ x. fold_duality Fold.Max x.axis };

    ghost fraction_summands = { λ x. fold_fraction_summands Fold.Max x.axis };

    ghost fraction_coefficients = { λ x. fold_fraction_coefficients Fold.Max x.axis };

    ghost fraction_slopes = { λ x. fold_fraction_slopes Fold.Max x.axis };

    fn shape(&self, args: &[Shape]) -> Option<Shape> {
        self.folding().shape(args)
    }

    fn bend(&self) -> Bend {
        self.folding().bend()
    }

    fn trend(&self, i: usize, sign: Sign) -> Trend {
        self.folding().trend(i, sign)
    }

    fn sign(&self, args: &[Sign]) -> Sign {
        self.folding().sign(args)
    }

    fn value(&self, alloc: Global, args: &[Array]) -> Result<Array, ValueStop> {
        self.folding().value(alloc, args)
    }

    fn graph(&self, alloc: Global, args: &[Shape]) -> Result<Graph, AllocError> {
        self.folding().graph(alloc, args)
    }

    fn slopes(
        &self,
        alloc: Global,
        args: &[Shape],
        coefficients: &[Frac],
        weights: &[Frac],
    ) -> Result<Fracs, SlopeStop> {
        self.folding().slopes(alloc, args, coefficients, weights)
    }
}

/// The least of all entries, or of each column or row.
#[derive(Clone, Copy, PartialEq, Eq)]
pub struct MinOf {
    /// Along which side.
    pub axis: Axis,
}

impl MinOf {
    /// What it shares with the other folds.
    fn folding(self) -> Folding
        ensures { result ≡ record { fold = Fold.Min; axis = self.axis } }
    {
        Folding {
            fold: Fold::Min,
            axis: self.axis,
        }
    }
}

impl Atom for MinOf {
    ghost meaning = { λ x. fold_meaning Fold.Min x.axis };

    ghost formation = { λ x. fold_formation Fold.Min x.axis };

    ghost sign_law = { λ x. fold_sign_law Fold.Min x.axis };

    ghost monotonicity = { λ x. fold_monotonicity Fold.Min x.axis };

    ghost curvature = { λ x. fold_curvature Fold.Min x.axis };

    ghost graph_soundness = { λ x. fold_soundness Fold.Min x.axis };

    ghost graph_tightness = { λ x. fold_tightness Fold.Min x.axis };

    ghost subgradient = { λ x. fold_subgradient Fold.Min x.axis };

    ghost recession = { λ x. fold_recession Fold.Min x.axis };

    ghost own_unknowns = { λ x. fold_own Fold.Min x.axis };

    ghost duality = { λ x. fold_duality Fold.Min x.axis };

    ghost fraction_summands = { λ x. fold_fraction_summands Fold.Min x.axis };

    ghost fraction_coefficients = { λ x. fold_fraction_coefficients Fold.Min x.axis };

    ghost fraction_slopes = { λ x. fold_fraction_slopes Fold.Min x.axis };

    fn shape(&self, args: &[Shape]) -> Option<Shape> {
        self.folding().shape(args)
    }

    fn bend(&self) -> Bend {
        self.folding().bend()
    }

    fn trend(&self, i: usize, sign: Sign) -> Trend {
        self.folding().trend(i, sign)
    }

    fn sign(&self, args: &[Sign]) -> Sign {
        self.folding().sign(args)
    }

    fn value(&self, alloc: Global, args: &[Array]) -> Result<Array, ValueStop> {
        self.folding().value(alloc, args)
    }

    fn graph(&self, alloc: Global, args: &[Shape]) -> Result<Graph, AllocError> {
        self.folding().graph(alloc, args)
    }

    fn slopes(
        &self,
        alloc: Global,
        args: &[Shape],
        coefficients: &[Frac],
        weights: &[Frac],
    ) -> Result<Fracs, SlopeStop> {
        self.folding().slopes(alloc, args, coefficients, weights)
    }
}
