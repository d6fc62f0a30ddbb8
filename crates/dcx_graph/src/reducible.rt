//! Which coefficients a program can have: numbers at a setting, or numbers that are affine in the parameters.
ghost use Rattle.std.specs.Prelude.{◌≡◌};
ghost use Rattle.dcx_graph.specs.Marks.{are_affine};

use dcx_frac::Frac;
use dcx_linear::{Coef, ParamForm};

/// The coefficients of a reduced program.
pub trait Reducible: Coef {
    ghost use Rattle.dcx_convex.specs.Rules.{Rules};

    /// By whose rules a node is a number: those where a parameter is one, or those where it is affine.
    ghost rules: { Rules };

    /// Whether parameters are affine.
    fn are_parameters_affine() -> bool
        ensures { result ≡ are_affine rules };
}

impl Reducible for Frac {
    ghost use Rattle.dcx_convex.specs.Rules.{Plain};

    ghost rules = { Plain };

    fn are_parameters_affine() -> bool {
        false
    }
}

impl Reducible for ParamForm {
    ghost use Rattle.dcx_convex.specs.Rules.{Parametrized};

    ghost rules = { Parametrized };

    fn are_parameters_affine() -> bool {
        true
    }
}
