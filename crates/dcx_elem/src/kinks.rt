//! Functions of one number with a kink at 0, entry by entry.
ghost use Rattle.std.specs.Prelude.{◌≡◌, ◌≤◌, length, map, IfOk, IfErr, [], ◌∷◌};
ghost use Rattle.std.specs.Result.{result_err};
ghost use Rattle.dcx_frac.specs.Frac.{value};
ghost use Rattle.dcx_shape.specs.Shape.{sides_of};
ghost use Rattle.dcx_shape.specs.Sides.{entries_of};
ghost use Rattle.dcx_atom.specs.Arrays.{number_at};
ghost use Rattle.dcx_atom.specs.Formed.{formed, exact};
ghost use Rattle.dcx_atom.specs.Graph.{IsGraphOf};
ghost use Rattle.dcx_atom.specs.Steps.{first_stop, rows_before, AreSlopesOf, IsSlopeStop};
ghost use Rattle.dcx_elem.specs.Kinks.{kink_at, kink_rows, kink_slope, kink_steps, kink_meaning};
ghost use Rattle.dcx_elem.specs.KinkLaws.{kink_formation, kink_sign, kink_monotonicity, kink_curvature, kink_soundness, kink_tightness, kink_subgradient, kink_recession};
ghost use Rattle.dcx_elem.specs.KinkDualLaws.{kink_duality};
ghost use Rattle.dcx_elem.specs.OwnLaws.{kink_own};
ghost use Rattle.dcx_elem.specs.FractionLaws.{kink_fraction_summands, kink_fraction_coefficients, kink_fraction_slopes};

use crate::rows::{Piece, entrywise_graph};
use dcx_atom::{
    Array, Atom, AuxKind, Bend, Graph, Sign, SlopeStop, Trend, ValueStop, check_total, greater,
    magnitude, minus_one, only_shape, row_weights,
};
use dcx_frac::{Frac, Fracs, Passes};
use dcx_shape::Shape;
use std::alloc::{AllocError, Global};

/// A function of one number with a kink at 0.
#[derive(Clone, Copy)]
pub(crate) enum Kink {
    /// The magnitude.
    Abs,
    /// The part above 0.
    Pos,
    /// The size of the part below 0.
    Neg,
}

impl Atom for Kink {
    ghost meaning = { λ kink. kink_meaning kink };

    ghost formation = { λ kink. kink_formation kink };

    ghost sign_law = { λ kink. kink_sign kink };

    ghost monotonicity = { λ kink. kink_monotonicity kink };

    ghost curvature = { λ kink. kink_curvature kink };

    ghost graph_soundness = { λ kink. kink_soundness kink };

    ghost graph_tightness = { λ kink. kink_tightness kink };

    ghost subgradient = { λ kink. kink_subgradient kink };

    ghost recession = { λ kink. kink_recession kink };

    ghost own_unknowns = { λ kink. kink_own kink };

    ghost duality = { λ kink. kink_duality kink };

    ghost fraction_summands = { λ kink. kink_fraction_summands kink };

    ghost fraction_coefficients = { λ kink. kink_fraction_coefficients kink };

    ghost fraction_slopes = { λ kink. kink_fraction_slopes kink };

    fn shape(&self, args: &[Shape]) -> Option<Shape> {
        only_shape(args)
    }

    fn bend(&self) -> Bend {
        Bend::Convex
    }

    fn trend(&self, _i: usize, sign: Sign) -> Trend {
        match *self {
            Kink::Abs => Trend {
                rising: sign.nonneg,
                falling: sign.nonpos,
            },
            Kink::Pos => Trend {
                rising: true,
                falling: false,
            },
            Kink::Neg => Trend {
                rising: false,
                falling: true,
            },
        }
    }

    fn sign(&self, _args: &[Sign]) -> Sign {
        Sign {
            nonneg: true,
            nonpos: false,
        }
    }

    fn value(&self, alloc: Global, args: &[Array]) -> Result<Array, ValueStop> {
        match at_array(alloc, *self, &args[0]) {
            Ok(array) => Ok(array),
            Err(_) => Err(ValueStop::Memory),
        }
    }

    fn graph(&self, alloc: Global, args: &[Shape]) -> Result<Graph, AllocError> {
        kink_graph(alloc, *self, args[0])
    }

    fn slopes(
        &self,
        alloc: Global,
        args: &[Shape],
        coefficients: &[Frac],
        weights: &[Frac],
    ) -> Result<Fracs, SlopeStop> {
        kink_slopes(alloc, *self, args[0], coefficients, weights)
    }
}

/// The value at a number.
fn at_number(kink: Kink, x: Frac) -> Frac
    ensures { value result ≡ kink_at kink (value x) }
{
    match kink {
        Kink::Abs => magnitude(x),
        Kink::Pos => greater(x, Frac::zero()),
        Kink::Neg => greater(x.neg(), Frac::zero()),
    }
}

/// The value at an array.
fn at_array(alloc: Global, kink: Kink, x: &Array) -> Result<Array, AllocError>
    ensures shape { IfOk result (λ v. sides_of v.shape ≡ sides_of x.now.shape) }
    ensures entries { IfOk result (λ v. map value v.entries ≡ map (λ y. kink_at kink (value y)) x.now.entries) }
{
    let numbers = x.entries.as_slice();
    let mut entries = Vec::new(alloc);
    for number in numbers {
        entries.push(at_number(kink, *number))?;
    }
    Ok(Array {
        shape: x.shape,
        entries: Fracs::from_vec(entries),
    })
}

/// The graph at an argument of this shape.
fn kink_graph(alloc: Global, kink: Kink, shape: Shape) -> Result<Graph, AllocError>
    ensures { IfOk result (IsGraphOf (kink_meaning kink) (sides_of shape ∷ []) (entries_of (sides_of shape))) }
{
    let plus = Piece {
        argument: 0,
        coefficient: Frac::one(),
    };
    let minus = Piece {
        argument: 0,
        coefficient: minus_one(),
    };
    let size = shape.size();
    match kink {
        Kink::Abs => entrywise_graph(alloc, Bend::Convex, AuxKind::Nonneg, size, &[plus, minus]),
        Kink::Pos => entrywise_graph(alloc, Bend::Convex, AuxKind::Nonneg, size, &[plus]),
        Kink::Neg => entrywise_graph(alloc, Bend::Convex, AuxKind::Nonneg, size, &[minus]),
    }
}

/// How many rows an entry has.
fn rows_of_entry(kink: Kink) -> usize
    ensures value { result ≡ kink_rows kink }
    ensures few { result ≤ 2 }
{
    match kink {
        Kink::Abs => 2,
        Kink::Pos => 1,
        Kink::Neg => 1,
    }
}

/// The slope that the weights of an entry's rows give.
fn slope(kink: Kink, weights: &[Frac]) -> Result<Frac, Passes>
    requires { length weights.now ≡ kink_rows kink }
    ensures answer { result ≡ formed (kink_slope kink (number_at weights.now)) }
    ensures exact { IfOk result (λ g. value g ≡ exact (kink_slope kink (number_at weights.now))) }
{
    match kink {
        Kink::Abs => weights[0].sub(weights[1]),
        Kink::Pos => Ok(weights[0]),
        Kink::Neg => Ok(weights[0].neg()),
    }
}

/// The slope of an entry, or the first stop of its steps.
fn entry_slope(
    kink: Kink,
    entry: u32,
    coefficient: Frac,
    weights: &[Frac],
) -> Result<Frac, SlopeStop>
    requires { length weights.now ≡ kink_rows kink }
    ensures stop { result_err result ≡ first_stop entry (kink_steps kink (value coefficient) (number_at weights.now)) }
    ensures exact { IfOk result (λ g. value g ≡ exact (kink_slope kink (number_at weights.now))) }
{
    check_total(entry, AuxKind::Nonneg, coefficient, weights)?;
    match slope(kink, weights) {
        Err(passes) => Err(SlopeStop::Passes(passes)),
        Ok(slope) => Ok(slope),
    }
}

/// The slopes that weights give at an argument of this shape, or the first stop.
fn kink_slopes(
    alloc: Global,
    kink: Kink,
    shape: Shape,
    coefficients: &[Frac],
    weights: &[Frac],
) -> Result<Fracs, SlopeStop>
    requires coefficients { length coefficients.now ≡ entries_of (sides_of shape) }
    requires weights { length weights.now ≡ rows_before (kink_meaning kink) (sides_of shape ∷ []) (entries_of (sides_of shape)) }
    ensures ok { IfOk result (AreSlopesOf (kink_meaning kink) (sides_of shape ∷ []) (entries_of (sides_of shape)) coefficients.now weights.now) }
    ensures stop { IfErr result (IsSlopeStop (kink_meaning kink) (sides_of shape ∷ []) (entries_of (sides_of shape)) coefficients.now weights.now) }
{
    let rows = rows_of_entry(kink);
    let size = shape.size();
    let mut slopes = Vec::new(alloc);
    for entry in 0..size {
        let place = entry as usize;
        let own = row_weights(weights, place, rows);
        let slope = entry_slope(kink, entry, coefficients[place], own)?;
        match slopes.push(slope) {
            Ok(()) => {}
            Err(_) => return Err(SlopeStop::Memory),
        }
    }
    Ok(Fracs::from_vec(slopes))
}
