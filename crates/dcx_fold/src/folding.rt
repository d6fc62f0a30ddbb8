//! The greatest and the least entry of each group, the sum of its magnitudes, and the greatest of them.
ghost use Rattle.std.specs.Prelude.{◌≡◌, option_map};
ghost use Rattle.dcx_shape.specs.Shape.{sides_of};
ghost use Rattle.dcx_atom.specs.Arrays.{sides_list};
ghost use Rattle.dcx_fold.specs.Groups.{fold_sides};
ghost use Rattle.dcx_fold.specs.Folds.{fold_bend, fold_kind, fold_trend, fold_sign, fold_meaning};
ghost use Rattle.dcx_fold.specs.FoldLaws.{fold_formation, fold_sign_law, fold_monotonicity, fold_curvature, fold_soundness, fold_tightness, fold_subgradient, fold_recession};
ghost use Rattle.dcx_fold.specs.FoldDualLaws.{fold_duality};
ghost use Rattle.dcx_fold.specs.OwnLaws.{fold_own};
ghost use Rattle.dcx_fold.specs.FractionLaws.{fold_fraction_summands, fold_fraction_coefficients, fold_fraction_slopes};

use crate::fold_graphs::fold_graph;
use crate::fold_slopes::fold_slopes;
use crate::fold_values::fold_value;
use dcx_atom::{
    Array, Atom, AuxKind, Axis, Bend, Graph, Sign, SlopeStop, Trend, ValueStop, first_sign,
};
use dcx_frac::{Frac, Fracs};
use dcx_shape::Shape;
use std::alloc::{AllocError, Global};

/// What the entries of a group become.
#[derive(Clone, Copy)]
pub(crate) enum Fold {
    /// The greatest.
    Max,
    /// The least.
    Min,
    /// The sum of the magnitudes.
    Norm1,
    /// The greatest magnitude.
    NormInf,
}

/// What each group becomes, and along which side the groups stand.
#[derive(Clone, Copy)]
pub(crate) struct Folding {
    pub(crate) fold: Fold,
    pub(crate) axis: Axis,
}

impl Fold {
    /// Which way the call bends.
    pub(crate) fn bend(self) -> Bend
        ensures { result ≡ fold_bend self }
    {
        match self {
            Fold::Max => Bend::Convex,
            Fold::Min => Bend::Concave,
            Fold::Norm1 => Bend::Convex,
            Fold::NormInf => Bend::Convex,
        }
    }

    /// The sign of the auxiliary unknowns.
    pub(crate) fn kind(self) -> AuxKind
        ensures { result ≡ fold_kind self }
    {
        match self {
            Fold::Max => AuxKind::Free,
            Fold::Min => AuxKind::Free,
            Fold::Norm1 => AuxKind::Nonneg,
            Fold::NormInf => AuxKind::Nonneg,
        }
    }

    /// How the value moves with an argument of this sign.
    fn trend(self, sign: Sign) -> Trend
        ensures { result ≡ fold_trend self sign }
    {
        match self {
            Fold::Max | Fold::Min => Trend {
                rising: true,
                falling: false,
            },
            Fold::Norm1 | Fold::NormInf => Trend {
                rising: sign.nonneg,
                falling: sign.nonpos,
            },
        }
    }

    /// The sign of the value, from that of the argument.
    fn sign(self, sign: Sign) -> Sign
        ensures { result ≡ fold_sign self sign }
    {
        match self {
            Fold::Max | Fold::Min => sign,
            Fold::Norm1 | Fold::NormInf => Sign {
                nonneg: true,
                nonpos: false,
            },
        }
    }
}

impl Atom for Folding {
    ghost meaning = { λ x. fold_meaning x.fold x.axis };

    ghost formation = { λ x. fold_formation x.fold x.axis };

    ghost sign_law = { λ x. fold_sign_law x.fold x.axis };

    ghost monotonicity = { λ x. fold_monotonicity x.fold x.axis };

    ghost curvature = { λ x. fold_curvature x.fold x.axis };

    ghost graph_soundness = { λ x. fold_soundness x.fold x.axis };

    ghost graph_tightness = { λ x. fold_tightness x.fold x.axis };

    ghost subgradient = { λ x. fold_subgradient x.fold x.axis };

    ghost recession = { λ x. fold_recession x.fold x.axis };

    ghost own_unknowns = { λ x. fold_own x.fold x.axis };

    ghost duality = { λ x. fold_duality x.fold x.axis };

    ghost fraction_summands = { λ x. fold_fraction_summands x.fold x.axis };

    ghost fraction_coefficients = { λ x. fold_fraction_coefficients x.fold x.axis };

    ghost fraction_slopes = { λ x. fold_fraction_slopes x.fold x.axis };

    fn shape(&self, args: &[Shape]) -> Option<Shape> {
        match args {
            [from] => self.axis.folded(*from),
            _ => None,
        }
    }

    fn bend(&self) -> Bend {
        self.fold.bend()
    }

    fn trend(&self, _i: usize, sign: Sign) -> Trend {
        self.fold.trend(sign)
    }

    fn sign(&self, args: &[Sign]) -> Sign {
        self.fold.sign(first_sign(args))
    }

    fn value(&self, alloc: Global, args: &[Array]) -> Result<Array, ValueStop> {
        fold_value(alloc, *self, args)
    }

    fn graph(&self, alloc: Global, args: &[Shape]) -> Result<Graph, AllocError> {
        let from = args[0];
        let size = self.axis.folded(from).unwrap().size();
        fold_graph(alloc, *self, from, size)
    }

    fn slopes(
        &self,
        alloc: Global,
        args: &[Shape],
        coefficients: &[Frac],
        weights: &[Frac],
    ) -> Result<Fracs, SlopeStop> {
        let from = args[0];
        let size = self.axis.folded(from).unwrap().size();
        fold_slopes(alloc, *self, from, size, coefficients, weights)
    }
}
