//! A small call of each kind, and generic functions that use each law.
ghost use Rattle.std.specs.Prelude.{◌≡◌, [], ◌∷◌, IfOk, IfErr, IfSome, IsSome, length, pos};
ghost use Rattle.dcx_math.specs.Rational.{whole, rat_max};
ghost use Rattle.dcx_frac.specs.Frac.{value};
ghost use Rattle.dcx_shape.specs.Shape.{sides_of};
ghost use Rattle.dcx_shape.specs.Sides.{entries_of};
ghost use Rattle.dcx_atom.specs.Arrays.{sides_list};
ghost use Rattle.dcx_atom.specs.Graph.{IsGraphOf};
ghost use Rattle.dcx_atom.specs.Steps.{rows_before, AreSlopesOf, IsSlopeStop};
ghost use Rattle.dcx_atom.specs.Linear.{AreTermsOf};
ghost use Rattle.dcx_unit_tests.specs.Hinge.{hinge_meaning, hinge_sums, hinge_sign, hinge_trend, hinge_bent, hinge_sound, hinge_tight, hinge_subgradient, hinge_recedes};
ghost use Rattle.dcx_unit_tests.specs.Hinge.{hinge_own, hinge_duality, hinge_fraction_summands, hinge_fraction_coefficients, hinge_fraction_slopes};
ghost use Rattle.dcx_unit_tests.specs.Hinge.{turned_meaning, turned_linear, turned_sign, turned_trend};
ghost use Rattle.dcx_unit_tests.specs.Uses.{IsBelowChord, RecedesTwice, SumsAtLeastZero, StaysInPlace, IsBestFilling, BoundBelow, IsAdditive};

use dcx_atom::{
    Array, Atom, AuxKind, AuxKinds, AuxTerm, Bend, EntryTerms, Graph, GraphForm, GraphForms,
    GraphRow, GraphRows, GraphTerm, GraphTerms, LinearOp, Operand, Sign, SlopeStop, Terms, Trend,
    Triple, ValueStop, check_at_most, check_equal, check_weights, is_at_most, is_equal, minus_one,
    sum_all,
};
use dcx_frac::{Frac, Fracs, Op, Passes};
use dcx_shape::{Shape, Sides};
use std::alloc::{AllocError, Global};

/// The part of a scalar above 0.
struct Hinge;

impl Atom for Hinge {
    ghost meaning = { λ _. hinge_meaning };

    ghost formation = { λ _. hinge_sums };

    ghost sign_law = { λ _. hinge_sign };

    ghost monotonicity = { λ _. hinge_trend };

    ghost curvature = { λ _. hinge_bent };

    ghost graph_soundness = { λ _. hinge_sound };

    ghost graph_tightness = { λ _. hinge_tight };

    ghost subgradient = { λ _. hinge_subgradient };

    ghost recession = { λ _. hinge_recedes };

    ghost own_unknowns = { λ _. hinge_own };

    ghost duality = { λ _. hinge_duality };

    ghost fraction_summands = { λ _. hinge_fraction_summands };

    ghost fraction_coefficients = { λ _. hinge_fraction_coefficients };

    ghost fraction_slopes = { λ _. hinge_fraction_slopes };

    fn shape(&self, args: &[Shape]) -> Option<Shape> {
        match args {
            [shape] if shape.rank() == 0 => Some(*shape),
            _ => None,
        }
    }

    fn bend(&self) -> Bend {
        Bend::Convex
    }

    fn trend(&self, _i: usize, _sign: Sign) -> Trend {
        Trend {
            rising: true,
            falling: false,
        }
    }

    fn sign(&self, _args: &[Sign]) -> Sign {
        Sign {
            nonneg: true,
            nonpos: false,
        }
    }

    fn value(&self, alloc: Global, args: &[Array]) -> Result<Array, ValueStop> {
        let above = part_above(args[0].entries.as_slice()[0]);
        match scalar_array(alloc, above) {
            Ok(array) => Ok(array),
            Err(_) => Err(ValueStop::Memory),
        }
    }

    fn graph(&self, alloc: Global, _args: &[Shape]) -> Result<Graph, AllocError> {
        hinge_graph(alloc)
    }

    fn slopes(
        &self,
        alloc: Global,
        _args: &[Shape],
        coefficients: &[Frac],
        weights: &[Frac],
    ) -> Result<Fracs, SlopeStop> {
        hinge_slopes(alloc, coefficients[0], weights[0])
    }
}

/// The part of a number above 0.
fn part_above(x: Frac) -> Frac
    ensures { value result ≡ rat_max (value x) (whole (pos 0)) }
{
    if is_at_most(&x, &Frac::zero()) {
        Frac::zero()
    } else {
        x
    }
}

/// The scalar array of a number.
fn scalar_array(alloc: Global, x: Frac) -> Result<Array, AllocError>
    ensures shape { IfOk result (λ v. sides_of v.shape ≡ Sides.Scalar) }
    ensures entries { IfOk result (λ v. v.entries ≡ x ∷ []) }
{
    let entries = vec![in alloc; x]?;
    Ok(Array {
        shape: Shape::scalar(),
        entries: Fracs::from_vec(entries),
    })
}

/// The rows of a hinge.
fn hinge_graph(alloc: Global) -> Result<Graph, AllocError>
    ensures { IfOk result (IsGraphOf hinge_meaning (Sides.Scalar ∷ []) 1) }
{
    let x = Operand::Argument {
        argument: 0,
        entry: 0,
    };
    let terms = vec![in alloc;
        GraphTerm {
            operand: x,
            coefficient: Frac::one()
        },
        GraphTerm {
            operand: Operand::Aux(0),
            coefficient: minus_one()
        },
    ]?;
    let rows = vec![in alloc;
        GraphRow {
            entry: 0,
            terms: GraphTerms::from_vec(terms)
        },
    ]?;
    let form = vec![in alloc;
        AuxTerm {
            aux: 0,
            coefficient: Frac::one()
        },
    ]?;
    let forms = vec![in alloc; GraphForm::from_vec(form)]?;
    let aux = vec![in alloc; AuxKind::Nonneg]?;
    Ok(Graph {
        aux: AuxKinds::from_vec(aux),
        rows: GraphRows::from_vec(rows),
        results: GraphForms::from_vec(forms),
    })
}

/// The slope of a hinge.
fn hinge_slopes(alloc: Global, coefficient: Frac, weight: Frac) -> Result<Fracs, SlopeStop>
    ensures ok { IfOk result (λ g. AreSlopesOf hinge_meaning (Sides.Scalar ∷ []) 1 (coefficient ∷ []) (weight ∷ []) g) }
    ensures stop { IfErr result (λ e. IsSlopeStop hinge_meaning (Sides.Scalar ∷ []) 1 (coefficient ∷ []) (weight ∷ []) e) }
{
    check_weights(0, &[weight])?;
    check_at_most(0, weight, coefficient)?;
    let slopes = vec![in alloc; weight].map_err(|_| SlopeStop::Memory)?;
    Ok(Fracs::from_vec(slopes))
}

/// A scalar turned round.
struct Turned;

impl LinearOp for Turned {
    ghost meaning = { λ _. turned_meaning };

    ghost linearity = { λ _. turned_linear };

    ghost sign_law = { λ _. turned_sign };

    ghost monotonicity = { λ _. turned_trend };

    fn shape(&self, args: &[Shape]) -> Option<Shape> {
        match args {
            [shape] if shape.rank() == 0 => Some(*shape),
            _ => None,
        }
    }

    fn trend(&self, _i: usize) -> Trend {
        Trend {
            rising: false,
            falling: true,
        }
    }

    fn sign(&self, args: &[Sign]) -> Sign {
        match args {
            [] => Sign {
                nonneg: false,
                nonpos: false,
            },
            [sign, ..] => Sign {
                nonneg: sign.nonpos,
                nonpos: sign.nonneg,
            },
        }
    }

    fn map(&self, alloc: Global, _args: &[Shape]) -> Result<Terms, AllocError> {
        turned_terms(alloc)
    }
}

/// The only term of a scalar turned round.
fn turned_terms(alloc: Global) -> Result<Terms, AllocError>
    ensures { IfOk result (AreTermsOf turned_meaning (Sides.Scalar ∷ []) 1) }
{
    let terms = vec![in alloc;
        Triple {
            argument: 0,
            entry: 0,
            coefficient: minus_one()
        },
    ]?;
    let lists = vec![in alloc; EntryTerms::from_vec(terms)]?;
    Ok(Terms::from_vec(lists))
}

/// The value of any call half way between two arguments.
fn chord<A: Atom>(atom: &A) -> Bend
    ensures { IsBelowChord (A.meaning atom.now) }
{
    atom.bend()
}

/// The value of any call two steps along a ray.
fn two_steps<A: Atom>(atom: &A) -> Bend
    ensures { RecedesTwice (A.meaning atom.now) }
{
    atom.bend()
}

/// The sign of any call's value, as it is formed.
fn formed_sign<A: Atom>(atom: &A, signs: &[Sign]) -> Sign
    ensures { SumsAtLeastZero (A.meaning atom.now) }
{
    atom.sign(signs)
}

/// Any call between equal arguments.
fn in_place<A: Atom>(atom: &A) -> Bend
    ensures { StaysInPlace (A.meaning atom.now) }
{
    atom.bend()
}

/// The rows of any call, with the filling that none betters.
fn best<A: Atom>(atom: &A) -> Bend
    ensures { IsBestFilling (A.meaning atom.now) }
{
    atom.bend()
}

/// The slopes of any call, which bound it from below.
fn bound<A: Atom>(
    alloc: Global,
    atom: &A,
    args: &[Shape],
    coefficients: &[Frac],
    weights: &[Frac],
) -> Result<Fracs, SlopeStop>
    requires shape { IsSome ((A.meaning atom.now).shape (sides_list args.now)) }
    requires coefficients { IfSome ((A.meaning atom.now).shape (sides_list args.now)) (λ s. length coefficients.now ≡ entries_of s) }
    requires weights { IfSome ((A.meaning atom.now).shape (sides_list args.now)) (λ s. length weights.now ≡ rows_before (A.meaning atom.now) (sides_list args.now) (entries_of s)) }
    ensures { IfOk result (λ g. IfSome ((A.meaning atom.now).shape (sides_list args.now)) (λ s. BoundBelow (A.meaning atom.now) (sides_list args.now) (entries_of s) coefficients.now g)) }
{
    atom.slopes(alloc, args, coefficients, weights)
}

/// Any linear call at a sum.
fn additive<L: LinearOp>(op: &L) -> Trend
    ensures { IsAdditive (L.meaning op.now) }
{
    op.trend(0)
}

/// The whole number that a fraction is.
fn whole_of(x: Frac) -> Option<i128> {
    if x.den() == 1 { Some(x.num()) } else { None }
}

/// Whether a hinge takes a scalar, gives a scalar, and takes nothing else than one argument.
fn is_shaped_by_hinge() -> bool {
    Hinge.shape(&[Shape::scalar()]) == Some(Shape::scalar()) && Hinge.shape(&[]).is_none()
}

/// Whether generic functions find that a hinge is convex.
fn is_hinge_convex() -> bool {
    let bends = [
        chord(&Hinge),
        two_steps(&Hinge),
        in_place(&Hinge),
        best(&Hinge),
    ];
    bends.iter().all(|bend| matches!(bend, Bend::Convex))
}

/// The sign that a hinge's value has, and how it moves, where nothing is known of its argument.
fn flags_of_hinge() -> (Sign, Trend) {
    let unknown = Sign {
        nonneg: false,
        nonpos: false,
    };
    (formed_sign(&Hinge, &[unknown]), Hinge.trend(0, unknown))
}

#[test]
fn a_hinge_through_its_trait(rt: HostRuntime) {
    let (sign, trend) = flags_of_hinge();
    let found = [
        is_shaped_by_hinge(),
        is_hinge_convex(),
        sign.nonneg && !sign.nonpos,
        trend.rising && !trend.falling,
    ];
    assert_eq!(rt; found, [true; 4]);
}

/// The only entry of a value, if it is a whole number.
fn only_entry(value: Result<Array, ValueStop>) -> Option<i128> {
    match value {
        Ok(value) => match value.entries.as_slice() {
            [x] => whole_of(*x),
            _ => None,
        },
        Err(_) => None,
    }
}

/// The value of a hinge at a number.
fn hinge_at(alloc: Global, x: i128) -> Option<i128> {
    match scalar_array(alloc, Frac::of(x, 1)?) {
        Ok(array) => only_entry(Hinge.value(alloc, &[array])),
        Err(_) => None,
    }
}

#[test]
fn values_of_a_hinge(rt: HostRuntime) {
    for (x, want) in [(5, 5), (-5, 0), (0, 0)] {
        assert_eq!(rt; (x, hinge_at(rt.alloc(), x)), (x, Some(want)));
    }
}

/// Whether the rows of a hinge have one unknown, at least 0, and how many rows and results there are.
fn told_of_graph(graph: &Graph) -> (bool, usize, usize) {
    (
        matches!(graph.aux.as_slice(), [AuxKind::Nonneg]),
        graph.rows.as_slice().len(),
        graph.results.as_slice().len(),
    )
}

/// What is told of the rows of a hinge.
fn rows_told(alloc: Global) -> Option<(bool, usize, usize)> {
    match Hinge.graph(alloc, &[Shape::scalar()]) {
        Ok(graph) => Some(told_of_graph(&graph)),
        Err(_) => None,
    }
}

#[test]
fn rows_of_a_hinge(rt: HostRuntime) {
    assert_eq!(rt; rows_told(rt.alloc()), Some((true, 1, 1)));
}

/// The only slope, or both sides of the condition that a weight breaks.
fn slope_told(found: Result<Fracs, SlopeStop>) -> Result<i128, (i128, i128)> {
    match found {
        Ok(slopes) => match slopes.as_slice() {
            [slope] => Ok(slope.num()),
            _ => Err((0, 0)),
        },
        Err(
            SlopeStop::Refused {
                entry: _,
                stated,
                found,
            },
        ) => Err((stated.num(), found.num())),
        Err(_) => Err((0, 0)),
    }
}

/// What is told of the slope of a hinge under a coefficient and a weight.
fn slope_of_hinge(alloc: Global, c: i128, w: i128) -> Result<i128, (i128, i128)> {
    match (Frac::of(c, 1), Frac::of(w, 1)) {
        (Some(c), Some(w)) => slope_told(bound(alloc, &Hinge, &[Shape::scalar()], &[c], &[w])),
        _ => Err((0, 0)),
    }
}

#[test]
fn slopes_of_a_hinge(rt: HostRuntime) {
    // coefficient, weight, and the slope or both sides of the condition that the weight breaks
    for (c, w, want) in [
        (3, 2, Ok(2)),
        (3, 3, Ok(3)),
        (3, 0, Ok(0)),
        (3, 4, Err((4, 3))),
        (3, -1, Err((-1, 0))),
        (-2, -1, Err((-1, 0))),
    ] {
        assert_eq!(rt; (c, w, slope_of_hinge(rt.alloc(), c, w)), (c, w, want));
    }
}

/// Whether the sign of a scalar of at least 0 is turned round, and whether it falls where that rises.
fn is_turned_round() -> bool {
    let nonneg = Sign {
        nonneg: true,
        nonpos: false,
    };
    let sign = Turned.sign(&[nonneg]);
    let trend = additive(&Turned);
    sign.nonpos && !sign.nonneg && trend.falling && !trend.rising
}

/// Whether a term is the first entry of the first argument times -1.
fn is_minus_first(term: &Triple) -> bool {
    term.argument == 0 && term.entry == 0 && whole_of(term.coefficient) == Some(-1)
}

/// Whether terms are a single one, the first entry of the first argument times -1.
fn are_minus_first(terms: Result<Terms, AllocError>) -> bool {
    match terms {
        Ok(terms) => match terms.as_slice() {
            [list] => matches!(list.as_slice(), [term] if is_minus_first(term)),
            _ => false,
        },
        Err(_) => false,
    }
}

#[test]
fn a_turned_number_through_its_trait(rt: HostRuntime) {
    let found = [
        Turned.shape(&[Shape::scalar()]) == Some(Shape::scalar()),
        is_turned_round(),
        are_minus_first(Turned.map(rt.alloc(), &[Shape::scalar()])),
    ];
    assert_eq!(rt; found, [true; 3]);
}
