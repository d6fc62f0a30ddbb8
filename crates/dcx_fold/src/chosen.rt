//! The sum of the largest entries, and of the smallest, as calls.
ghost use Rattle.std.specs.Prelude.{◌≡◌, ◌≤◌, [], ◌∷◌, None, length, map, replicate, option_map, IfOk, IfErr, IfSome, IsSome};
ghost use Rattle.dcx_shape.specs.Shape.{sides_of};
ghost use Rattle.dcx_shape.specs.Sides.{entries_of};
ghost use Rattle.dcx_atom.specs.declared.flags.Bend.{Bend};
ghost use Rattle.dcx_atom.specs.Arrays.{sides_list, sides_at, array_sides};
ghost use Rattle.dcx_atom.specs.Graph.{form_term, IsGraphOf};
ghost use Rattle.dcx_atom.specs.Steps.{AreSlopesOf, IsSlopeStop};
ghost use Rattle.dcx_atom.specs.Value.{IsValueOf, IsValueStop};
ghost use Rattle.dcx_fold.specs.Largest.{chosen_sides, largest_meaning};
ghost use Rattle.dcx_fold.specs.LargestLaws.{largest_formation, largest_sign_law, largest_monotonicity, largest_curvature, largest_soundness};
ghost use Rattle.dcx_fold.specs.LargestLaws.{largest_tightness, largest_subgradient, largest_recession};
ghost use Rattle.dcx_fold.specs.LargestDualLaws.{largest_duality};
ghost use Rattle.dcx_fold.specs.OwnLaws.{largest_own};
ghost use Rattle.dcx_fold.specs.FractionLaws.{largest_fraction_summands, largest_fraction_coefficients, largest_fraction_slopes};

use crate::largest::{
    check_chosen, chosen_sum, entry_rows, level_kinds, level_result, scalar, turned,
};
use dcx_atom::{
    Array, Atom, Bend, Graph, GraphForm, GraphForms, Sign, SlopeStop, Trend, ValueStop, first_sign,
};
use dcx_frac::{Frac, Fracs};
use dcx_shape::Shape;
use std::alloc::{AllocError, Global};

/// The sum of the `k` largest entries, or of the `k` smallest for `Bend::Concave`.
#[derive(Clone, Copy)]
pub(crate) struct Largest {
    pub(crate) bend: Bend,
    pub(crate) k: u32,
}

/// The value at the only argument.
fn largest_value(alloc: Global, largest: Largest, args: &[Array]) -> Result<Array, ValueStop>
    requires { IsSome (chosen_sides largest.k (array_sides args.now)) }
    ensures ok { IfOk result (IsValueOf (largest_meaning largest.bend largest.k) args.now) }
    ensures stop { IfErr result (λ e. IfSome (chosen_sides largest.k (array_sides args.now)) (λ s. IsValueStop (largest_meaning largest.bend largest.k) args.now (entries_of s) e)) }
{
    let x = &args[0];
    let sum = chosen_sum(alloc, largest.bend, largest.k, x.entries.as_slice())?;
    match scalar(alloc, sum) {
        Ok(array) => Ok(array),
        Err(_) => Err(ValueStop::Memory),
    }
}

/// The results of a value of one entry.
fn one_result(alloc: Global, form: GraphForm) -> Result<GraphForms, AllocError>
    ensures { IfOk result (λ f. map (map form_term) f ≡ map form_term form ∷ []) }
{
    let mut forms = Vec::new(alloc);
    forms.push(form)?;
    Ok(GraphForms::from_vec(forms))
}

/// The graph at arguments of these shapes.
fn largest_graph(alloc: Global, largest: Largest, args: &[Shape]) -> Result<Graph, AllocError>
    requires { IsSome (chosen_sides largest.k (sides_list args.now)) }
    ensures { IfOk result (IsGraphOf (largest_meaning largest.bend largest.k) (sides_list args.now) 1) }
{
    let size = args[0].size();
    let form = level_result(alloc, largest.bend, largest.k, size)?;
    Ok(Graph {
        aux: level_kinds(alloc, size)?,
        rows: entry_rows(alloc, largest.bend, size)?,
        results: one_result(alloc, form)?,
    })
}

/// The slopes at arguments of these shapes, or the first stop.
fn largest_slopes(
    alloc: Global,
    largest: Largest,
    args: &[Shape],
    coefficients: &[Frac],
    weights: &[Frac],
) -> Result<Fracs, SlopeStop>
    requires shape { IsSome (chosen_sides largest.k (sides_list args.now)) }
    requires coefficients { length coefficients.now ≡ 1 }
    requires weights { length weights.now ≡ entries_of (sides_at (sides_list args.now) 0) }
    ensures ok { IfOk result (AreSlopesOf (largest_meaning largest.bend largest.k) (sides_list args.now) 1 coefficients.now weights.now) }
    ensures stop { IfErr result (IsSlopeStop (largest_meaning largest.bend largest.k) (sides_list args.now) 1 coefficients.now weights.now) }
{
    check_chosen(largest.bend, largest.k, coefficients[0], weights)?;
    match turned(alloc, largest.bend, weights) {
        Ok(slopes) => Ok(slopes),
        Err(_) => Err(SlopeStop::Memory),
    }
}

impl Atom for Largest {
    ghost meaning = { λ x. largest_meaning x.bend x.k };

    ghost formation = { λ x. largest_formation x.bend x.k };

    ghost sign_law = { λ x. largest_sign_law x.bend x.k };

    ghost monotonicity = { λ x. largest_monotonicity x.bend x.k };

    ghost curvature = { λ x. largest_curvature x.bend x.k };

    ghost graph_soundness = { λ x. largest_soundness x.bend x.k };

    ghost graph_tightness = { λ x. largest_tightness x.bend x.k };

    ghost subgradient = { λ x. largest_subgradient x.bend x.k };

    ghost recession = { λ x. largest_recession x.bend x.k };

    ghost own_unknowns = { λ x. largest_own x.bend x.k };

    ghost duality = { λ x. largest_duality x.bend x.k };

    ghost fraction_summands = { λ x. largest_fraction_summands x.bend x.k };

    ghost fraction_coefficients = { λ x. largest_fraction_coefficients x.bend x.k };

    ghost fraction_slopes = { λ x. largest_fraction_slopes x.bend x.k };

    fn shape(&self, args: &[Shape]) -> Option<Shape> {
        match args {
            [from] => {
                if 1 <= self.k && self.k <= from.size() {
                    Some(Shape::scalar())
                } else {
                    None
                }
            }
            _ => None,
        }
    }

    fn bend(&self) -> Bend {
        self.bend
    }

    fn trend(&self, _i: usize, _sign: Sign) -> Trend {
        Trend {
            rising: true,
            falling: false,
        }
    }

    fn sign(&self, args: &[Sign]) -> Sign {
        first_sign(args)
    }

    fn value(&self, alloc: Global, args: &[Array]) -> Result<Array, ValueStop> {
        largest_value(alloc, *self, args)
    }

    fn graph(&self, alloc: Global, args: &[Shape]) -> Result<Graph, AllocError> {
        largest_graph(alloc, *self, args)
    }

    fn slopes(
        &self,
        alloc: Global,
        args: &[Shape],
        coefficients: &[Frac],
        weights: &[Frac],
    ) -> Result<Fracs, SlopeStop> {
        largest_slopes(alloc, *self, args, coefficients, weights)
    }
}

/// The sum of the `k` largest entries.
#[derive(Clone, Copy, PartialEq, Eq)]
pub struct SumLargest {
    /// How many entries are summed. The call has a value where it is from 1 to their number.
    pub k: u32,
}

impl SumLargest {
    /// What it shares with its mirror image.
    fn largest(self) -> Largest
        ensures { result ≡ record { bend = Bend.Convex; k = self.k } }
    {
        Largest {
            bend: Bend::Convex,
            k: self.k,
        }
    }
}

impl Atom for SumLargest {
    ghost meaning = { λ x. largest_meaning Bend.Convex x.k };

    ghost formation = { λ x. largest_formation Bend.Convex x.k };

    ghost sign_law = { λ x. largest_sign_law Bend.Convex x.k };

    ghost monotonicity = { λ x. largest_monotonicity Bend.Convex x.k };

    ghost curvature = { λ x. largest_curvature Bend.Convex x.k };

    ghost graph_soundness = { λ x. largest_soundness Bend.Convex x.k };

    ghost graph_tightness = { λ x. largest_tightness Bend.Convex x.k };

    ghost subgradient = { λ x. largest_subgradient Bend.Convex x.k };

    ghost recession = { λ x. largest_recession Bend.Convex x.k };

    ghost own_unknowns = { λ x. largest_own Bend.Convex x.k };

    ghost duality = { λ x. largest_duality Bend.Convex x.k };

    ghost fraction_summands = { λ x. largest_fraction_summands Bend.Convex x.k };

    ghost fraction_coefficients = { λ x. largest_fraction_coefficients Bend.Convex x.k };

    ghost fraction_slopes = { λ x. largest_fraction_slopes Bend.Convex x.k };

    fn shape(&self, args: &[Shape]) -> Option<Shape> {
        self.largest().shape(args)
    }

    fn bend(&self) -> Bend {
        self.largest().bend()
    }

    fn trend(&self, i: usize, sign: Sign) -> Trend {
        self.largest().trend(i, sign)
    }

    fn sign(&self, args: &[Sign]) -> Sign {
        self.largest().sign(args)
    }

    fn value(&self, alloc: Global, args: &[Array]) -> Result<Array, ValueStop> {
        self.largest().value(alloc, args)
    }

    fn graph(&self, alloc: Global, args: &[Shape]) -> Result<Graph, AllocError> {
        self.largest().graph(alloc, args)
    }

    fn slopes(
        &self,
        alloc: Global,
        args: &[Shape],
        coefficients: &[Frac],
        weights: &[Frac],
    ) -> Result<Fracs, SlopeStop> {
        self.largest().slopes(alloc, args, coefficients, weights)
    }
}

/// The sum of the `k` smallest entries.
#[derive(Clone, Copy, PartialEq, Eq)]
pub struct SumSmallest {
    /// How many entries are summed. The call has a value where it is from 1 to their number.
    pub k: u32,
}

impl SumSmallest {
    /// What it shares with its mirror image.
    fn largest(self) -> Largest
        ensures { result ≡ record { bend = Bend.Concave; k = self.k } }
    {
        Largest {
            bend: Bend::Concave,
            k: self.k,
        }
    }
}

impl Atom for SumSmallest {
    ghost meaning = { λ x. largest_meaning Bend.Concave x.k };

    ghost formation = { λ x. largest_formation Bend.Concave x.k };

    ghost sign_law = { λ x. largest_sign_law Bend.Concave x.k };

    ghost monotonicity = { λ x. largest_monotonicity Bend.Concave x.k };

    ghost curvature = { λ x. largest_curvature Bend.Concave x.k };

    ghost graph_soundness = { λ x. largest_soundness Bend.Concave x.k };

    ghost graph_tightness = { λ x. largest_tightness Bend.Concave x.k };

    ghost subgradient = { λ x. largest_subgradient Bend.Concave x.k };

    ghost recession = { λ x. largest_recession Bend.Concave x.k };

    ghost own_unknowns = { λ x. largest_own Bend.Concave x.k };

    ghost duality = { λ x. largest_duality Bend.Concave x.k };

    ghost fraction_summands = { λ x. largest_fraction_summands Bend.Concave x.k };

    ghost fraction_coefficients = { λ x. largest_fraction_coefficients Bend.Concave x.k };

    ghost fraction_slopes = { λ x. largest_fraction_slopes Bend.Concave x.k };

    fn shape(&self, args: &[Shape]) -> Option<Shape> {
        self.largest().shape(args)
    }

    fn bend(&self) -> Bend {
        self.largest().bend()
    }

    fn trend(&self, i: usize, sign: Sign) -> Trend {
        self.largest().trend(i, sign)
    }

    fn sign(&self, args: &[Sign]) -> Sign {
        self.largest().sign(args)
    }

    fn value(&self, alloc: Global, args: &[Array]) -> Result<Array, ValueStop> {
        self.largest().value(alloc, args)
    }

    fn graph(&self, alloc: Global, args: &[Shape]) -> Result<Graph, AllocError> {
        self.largest().graph(alloc, args)
    }

    fn slopes(
        &self,
        alloc: Global,
        args: &[Shape],
        coefficients: &[Frac],
        weights: &[Frac],
    ) -> Result<Fracs, SlopeStop> {
        self.largest().slopes(alloc, args, coefficients, weights)
    }
}
