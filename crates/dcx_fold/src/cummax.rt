//! The running maximum as a call.
ghost use Rattle.std.specs.Prelude.{◌≡◌};
ghost use Rattle.dcx_fold.specs.Running.{running_meaning};
ghost use Rattle.dcx_fold.specs.RunningLaws.{running_formation, running_sign_law, running_monotonicity, running_curvature, running_soundness};
ghost use Rattle.dcx_fold.specs.RunningLaws.{running_tightness, running_subgradient, running_recession};
ghost use Rattle.dcx_fold.specs.RunningDualLaws.{running_duality};
ghost use Rattle.dcx_fold.specs.OwnLaws.{running_own};
ghost use Rattle.dcx_fold.specs.FractionLaws.{running_fraction_summands, running_fraction_coefficients, running_fraction_slopes};

use crate::running::{entry_rows, running_greatest, running_slopes};
use dcx_atom::{
    Array, Atom, AuxKind, Bend, Graph, Sign, SlopeStop, Trend, ValueStop, each_alone, first_sign,
    of_kind,
};
use dcx_frac::{Frac, Fracs};
use dcx_shape::{Shape, Sides};
use std::alloc::{AllocError, Global};

/// The running maximum of a vector: at each entry the greatest so far.
#[derive(Clone, Copy, PartialEq, Eq)]
pub struct CumMax;

impl Atom for CumMax {
    ghost meaning = { λ _. running_meaning };

    ghost formation = { λ _. running_formation };

    ghost sign_law = { λ _. running_sign_law };

    ghost monotonicity = { λ _. running_monotonicity };

    ghost curvature = { λ _. running_curvature };

    ghost graph_soundness = { λ _. running_soundness };

    ghost graph_tightness = { λ _. running_tightness };

    ghost subgradient = { λ _. running_subgradient };

    ghost recession = { λ _. running_recession };

    ghost own_unknowns = { λ _. running_own };

    ghost duality = { λ _. running_duality };

    ghost fraction_summands = { λ _. running_fraction_summands };

    ghost fraction_coefficients = { λ _. running_fraction_coefficients };

    ghost fraction_slopes = { λ _. running_fraction_slopes };

    fn shape(&self, args: &[Shape]) -> Option<Shape> {
        match args {
            [from] => {
                match from.sides() {
                    Sides::Vector(_) => Some(*from),
                    _ => None,
                }
            }
            _ => None,
        }
    }

    fn bend(&self) -> Bend {
        Bend::Convex
    }

    fn trend(&self, _i: usize, _sign: Sign) -> Trend {
        Trend {
            rising: true,
            falling: false,
        }
    }

    fn sign(&self, args: &[Sign]) -> Sign {
        first_sign(args)
    }

    fn value(&self, alloc: Global, args: &[Array]) -> Result<Array, ValueStop> {
        let x = &args[0];
        match running_greatest(alloc, x.entries.as_slice()) {
            Ok(entries) => Ok(Array {
                shape: x.shape,
                entries,
            }),
            Err(_) => Err(ValueStop::Memory),
        }
    }

    fn graph(&self, alloc: Global, args: &[Shape]) -> Result<Graph, AllocError> {
        let size = args[0].size();
        Ok(Graph {
            aux: of_kind(alloc, AuxKind::Free, size)?,
            rows: entry_rows(alloc, size)?,
            results: each_alone(alloc, size)?,
        })
    }

    fn slopes(
        &self,
        alloc: Global,
        args: &[Shape],
        coefficients: &[Frac],
        weights: &[Frac],
    ) -> Result<Fracs, SlopeStop> {
        running_slopes(alloc, args[0].size(), coefficients, weights)
    }
}
