//! The greatest and the least of several arrays, entry by entry.
ghost use Rattle.std.specs.Prelude.{◌≡◌, ◌+◌, ◌<◌, ◌≤◌, ◌*◌, ◌/◌, ◌%◌, ℕ, length, map, drop, IfOk, IfErr, All, OnOk, option_map, pos};
ghost use Rattle.std.specs.List.{list_any, list_all};
ghost use Rattle.dcx_frac.specs.Frac.{value};
ghost use Rattle.dcx_shape.specs.Shape.{sides_of};
ghost use Rattle.dcx_shape.specs.Sides.{entries_of};
ghost use Rattle.dcx_math.specs.Rational.{whole};
ghost use Rattle.dcx_atom.specs.Arrays.{sides_list, sides_at, same_sides, list_below, number_at};
ghost use Rattle.dcx_atom.specs.Steps.{IsSlopeStop};
ghost use Rattle.dcx_atom.specs.Bounding.{outward, argument_term, HaveNoStop};
ghost use Rattle.dcx_elem.specs.Rows.{piece_term};
ghost use Rattle.dcx_atom.specs.Farthest.{farther, extreme_from, extreme};
ghost use Rattle.dcx_elem.specs.Extremes.{alike, extreme_sign, extreme_meaning};
ghost use Rattle.dcx_elem.specs.ExtremeLaws.{extreme_formation, extreme_sign_law, extreme_monotonicity, extreme_curvature, extreme_soundness};
ghost use Rattle.dcx_elem.specs.ExtremeLaws.{extreme_tightness, extreme_subgradient, extreme_recession};
ghost use Rattle.dcx_elem.specs.ExtremeDualLaws.{extreme_duality};
ghost use Rattle.dcx_elem.specs.OwnLaws.{extreme_own};
ghost use Rattle.dcx_elem.specs.FractionLaws.{extreme_fraction_summands, extreme_fraction_coefficients, extreme_fraction_slopes};

use crate::rows::{Piece, entrywise_graph};
use dcx_atom::{
    Array, Atom, AuxKind, Bend, Graph, Sign, SlopeStop, Trend, ValueStop, all_nonneg, all_nonpos,
    check_total, farther_of, outward_of, row_weights, same_shape,
};
use dcx_frac::{Frac, Fracs};
use dcx_shape::Shape;
use std::alloc::{AllocError, Global};

/// The greatest of so many arrays, or the least for `Bend::Concave`.
#[derive(Clone, Copy)]
pub(crate) struct Extreme {
    pub(crate) bend: Bend,
    pub(crate) count: u32,
}

/// Whether each array has the shape of the first.
fn have_shape(first: Shape, shapes: &[Shape]) -> bool
    ensures { result ≡ list_all (λ shape. same_sides (sides_of first) (sides_of shape)) shapes.now }
{
    shapes.iter().all(|shape| same_shape(first, *shape))
}

/// The shape that as many arguments as the call takes, two or more, all have.
fn alike_shape(count: u32, args: &[Shape]) -> Option<Shape>
    ensures { option_map sides_of result ≡ alike count (sides_list args.now) }
{
    match args {
        [first, _, ..] => {
            if count as usize == args.len() && have_shape(*first, args) {
                Some(*first)
            } else {
                None
            }
        }
        _ => None,
    }
}

/// The greatest of a number and the others' entries at one place, or the least.
fn farthest(bend: Bend, first: Frac, others: &[Array], place: usize) -> Frac
    requires { All (λ x. place < length x.entries) others.now }
    ensures { value result ≡ extreme_from bend (value first) (map (λ x. number_at x.entries place) others.now) }
{
    let mut far = first;
    for other in others {
        far = farther_of(bend, far, other.entries.as_slice()[place]);
    }
    far
}

/// All arguments but the first.
fn others(args: &[Array]) -> &[Array]
    requires { 0 < length args.now }
    ensures { result.now ≡ drop 1 args.now }
{
    &args[1..]
}

/// The greatest entry at one place, or the least.
fn extreme_at(bend: Bend, args: &[Array], place: usize) -> Frac
    requires some { 0 < length args.now }
    requires places { All (λ x. place < length x.entries) args.now }
    ensures { value result ≡ extreme bend (map (λ x. number_at x.entries place) args.now) }
{
    let first = args[0].entries.as_slice()[place];
    farthest(bend, first, others(args), place)
}

/// The greatest entry at each place, or the least.
fn extreme_entries(
    alloc: Global,
    bend: Bend,
    args: &[Array],
    size: u32,
) -> Result<Fracs, AllocError>
    requires some { 0 < length args.now }
    requires sizes { All (λ x. length x.entries ≡ size) args.now }
    ensures { IfOk result (λ v. map value v ≡ list_below size (λ j. extreme bend (map (λ x. number_at x.entries j) args.now))) }
{
    let mut entries = Vec::new(alloc);
    for place in 0..size {
        entries.push(extreme_at(bend, args, place as usize))?;
    }
    Ok(Fracs::from_vec(entries))
}

/// Each argument once.
fn each_once(alloc: Global, count: u32) -> Result<Vec<Piece>, AllocError>
    ensures { IfOk result (λ v. (j : ℕ) → map (piece_term j) v.items ≡ list_below count (λ i. argument_term i j (whole (pos 1)))) }
{
    let mut pieces = Vec::new(alloc);
    for argument in 0..count {
        pieces.push(Piece {
            argument,
            coefficient: Frac::one(),
        })?;
    }
    Ok(pieces)
}

/// The first stop of the weights of each entry's rows.
fn check_entries(
    extreme: Extreme,
    args: &[Shape],
    coefficients: &[Frac],
    weights: &[Frac],
) -> Result<(), SlopeStop>
    requires some { 0 < length args.now }
    requires coefficients { length coefficients.now ≡ entries_of (sides_at (sides_list args.now) 0) }
    requires weights { length weights.now ≡ entries_of (sides_at (sides_list args.now) 0) * extreme.count }
    ensures ok { OnOk result (HaveNoStop (extreme_meaning extreme.bend extreme.count) (sides_list args.now) (entries_of (sides_at (sides_list args.now) 0)) coefficients.now weights.now) }
    ensures stop { IfErr result (IsSlopeStop (extreme_meaning extreme.bend extreme.count) (sides_list args.now) (entries_of (sides_at (sides_list args.now) 0)) coefficients.now weights.now) }
{
    let rows = extreme.count as usize;
    for entry in 0..args[0].size() {
        let place = entry as usize;
        let bound = outward_of(extreme.bend, coefficients[place]);
        let own = row_weights(weights, place, rows);
        check_total(entry, AuxKind::Free, bound, own)?;
    }
    Ok(())
}

/// The weight of each row as a slope, by argument and then by entry.
fn by_argument(
    alloc: Global,
    extreme: Extreme,
    size: usize,
    weights: &[Frac],
) -> Result<Fracs, AllocError>
    requires some { 0 < size }
    requires weights { length weights.now ≡ size * extreme.count }
    ensures { IfOk result (λ g. map value g ≡ list_below (extreme.count * size) (λ p. outward extreme.bend (number_at weights.now (p % size * extreme.count + p / size)))) }
{
    let rows = extreme.count as usize;
    let mut slopes = Vec::new(alloc);
    for place in 0..rows * size {
        let entry = place % size;
        let argument = place / size;
        slopes.push(outward_of(extreme.bend, weights[entry * rows + argument]))?;
    }
    Ok(Fracs::from_vec(slopes))
}

/// Whether some sign is nonneg.
fn some_nonneg(signs: &[Sign]) -> bool
    ensures { result ≡ list_any (λ s. s.nonneg) signs.now }
{
    signs.iter().any(|sign| sign.nonneg)
}

/// Whether some sign is nonpos.
fn some_nonpos(signs: &[Sign]) -> bool
    ensures { result ≡ list_any (λ s. s.nonpos) signs.now }
{
    signs.iter().any(|sign| sign.nonpos)
}

impl Atom for Extreme {
    ghost meaning = { λ x. extreme_meaning x.bend x.count };

    ghost formation = { λ x. extreme_formation x.bend x.count };

    ghost sign_law = { λ x. extreme_sign_law x.bend x.count };

    ghost monotonicity = { λ x. extreme_monotonicity x.bend x.count };

    ghost curvature = { λ x. extreme_curvature x.bend x.count };

    ghost graph_soundness = { λ x. extreme_soundness x.bend x.count };

    ghost graph_tightness = { λ x. extreme_tightness x.bend x.count };

    ghost subgradient = { λ x. extreme_subgradient x.bend x.count };

    ghost recession = { λ x. extreme_recession x.bend x.count };

    ghost own_unknowns = { λ x. extreme_own x.bend x.count };

    ghost duality = { λ x. extreme_duality x.bend x.count };

    ghost fraction_summands = { λ x. extreme_fraction_summands x.bend x.count };

    ghost fraction_coefficients = { λ x. extreme_fraction_coefficients x.bend x.count };

    ghost fraction_slopes = { λ x. extreme_fraction_slopes x.bend x.count };

    fn shape(&self, args: &[Shape]) -> Option<Shape> {
        alike_shape(self.count, args)
    }

    fn bend(&self) -> Bend {
        self.bend
    }

    fn trend(&self, _i: usize, _sign: Sign) -> Trend {
        Trend {
            rising: true,
            falling: false,
        }
    }

    fn sign(&self, args: &[Sign]) -> Sign {
        match self.bend {
            Bend::Convex => Sign {
                nonneg: some_nonneg(args),
                nonpos: all_nonpos(args),
            },
            Bend::Concave => Sign {
                nonneg: all_nonneg(args),
                nonpos: some_nonpos(args),
            },
        }
    }

    fn value(&self, alloc: Global, args: &[Array]) -> Result<Array, ValueStop> {
        let shape = args[0].shape;
        match extreme_entries(alloc, self.bend, args, shape.size()) {
            Ok(entries) => Ok(Array { shape, entries }),
            Err(_) => Err(ValueStop::Memory),
        }
    }

    fn graph(&self, alloc: Global, args: &[Shape]) -> Result<Graph, AllocError> {
        let pieces = each_once(alloc, self.count)?;
        let size = args[0].size();
        entrywise_graph(alloc, self.bend, AuxKind::Free, size, pieces.as_slice())
    }

    fn slopes(
        &self,
        alloc: Global,
        args: &[Shape],
        coefficients: &[Frac],
        weights: &[Frac],
    ) -> Result<Fracs, SlopeStop> {
        check_entries(*self, args, coefficients, weights)?;
        let size = args[0].size() as usize;
        match by_argument(alloc, *self, size, weights) {
            Ok(slopes) => Ok(slopes),
            Err(_) => Err(SlopeStop::Memory),
        }
    }
}
