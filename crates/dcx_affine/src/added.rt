//! Sums and differences of entries: `a + b`, `-a`, and the differences of a vector.
ghost use Rattle.std.specs.Prelude.{◌≡◌, [], ◌∷◌, IfOk, option_map};
ghost use Rattle.dcx_atom.specs.Frac.{value};
ghost use Rattle.dcx_shape.specs.Shape.{sides_of};
ghost use Rattle.dcx_atom.specs.Signs.{common_sign};
ghost use Rattle.dcx_atom.specs.Linear.{linear_term};
ghost use Rattle.dcx_affine.specs.Added.{term, differences_sides, plus_meaning, minus_meaning, diff_meaning};
ghost use Rattle.dcx_affine.specs.AddedLaws.{plus_linear, plus_sign, plus_trend, minus_linear, minus_sign, minus_trend, diff_linear, diff_sign, diff_trend};

use crate::strided::rising;
use dcx_atom::{
    EntryTerms, Frac, LinearOp, Sign, Terms, Trend, Triple, all_nonneg, all_nonpos, first_sign,
    minus_one, same_shape,
};
use dcx_shape::{Shape, Sides};
use std::alloc::{AllocError, Global};

/// The sum of two arrays of one shape.
#[derive(Clone, Copy)]
pub struct Plus;

/// An array turned round.
#[derive(Clone, Copy, PartialEq, Eq)]
pub struct Minus;

/// The differences `x[k + 1] - x[k]` of a vector of at least two entries.
#[derive(Clone, Copy, PartialEq, Eq)]
pub struct Diff;

/// One term alone.
pub(crate) fn one_term(alloc: Global, first: Triple) -> Result<EntryTerms, AllocError>
    ensures { IfOk result (λ t. t ≡ first ∷ []) }
{
    let terms = vec![in alloc; first]?;
    Ok(EntryTerms::from_vec(terms))
}

/// Two terms.
fn two_terms(alloc: Global, first: Triple, second: Triple) -> Result<EntryTerms, AllocError>
    ensures { IfOk result (λ t. t ≡ first ∷ second ∷ []) }
{
    let terms = vec![in alloc; first, second]?;
    Ok(EntryTerms::from_vec(terms))
}

/// An entry of an argument, times a number.
pub(crate) fn term(argument: u32, entry: u32, coefficient: Frac) -> Triple
    ensures { linear_term result ≡ term argument entry (value coefficient) }
{
    Triple {
        argument,
        entry,
        coefficient,
    }
}

/// The sign that all have.
pub(crate) fn common_sign(signs: &[Sign]) -> Sign
    ensures { result ≡ common_sign signs.now }
{
    Sign {
        nonneg: all_nonneg(signs),
        nonpos: all_nonpos(signs),
    }
}

impl LinearOp for Plus {
    ghost meaning = { λ _. plus_meaning };

    ghost linearity = { λ _. plus_linear };

    ghost sign_law = { λ _. plus_sign };

    ghost monotonicity = { λ _. plus_trend };

    fn shape(&self, args: &[Shape]) -> Option<Shape> {
        match args {
            [a, b] if same_shape(*a, *b) => Some(*a),
            _ => None,
        }
    }

    fn trend(&self, _i: usize) -> Trend {
        rising()
    }

    fn sign(&self, args: &[Sign]) -> Sign {
        common_sign(args)
    }

    fn map(&self, alloc: Global, args: &[Shape]) -> Result<Terms, AllocError> {
        let size = args[0].size();
        let one = Frac::one();
        let mut lists = Vec::with_capacity(alloc, size as usize)?;
        for k in 0..size {
            lists.push(two_terms(alloc, term(0, k, one), term(1, k, one))?)?;
        }
        Ok(Terms::from_vec(lists))
    }
}

impl LinearOp for Minus {
    ghost meaning = { λ _. minus_meaning };

    ghost linearity = { λ _. minus_linear };

    ghost sign_law = { λ _. minus_sign };

    ghost monotonicity = { λ _. minus_trend };

    fn shape(&self, args: &[Shape]) -> Option<Shape> {
        match args {
            [a] => Some(*a),
            _ => None,
        }
    }

    fn trend(&self, _i: usize) -> Trend {
        Trend {
            rising: false,
            falling: true,
        }
    }

    fn sign(&self, args: &[Sign]) -> Sign {
        let sign = first_sign(args);
        Sign {
            nonneg: sign.nonpos,
            nonpos: sign.nonneg,
        }
    }

    fn map(&self, alloc: Global, args: &[Shape]) -> Result<Terms, AllocError> {
        let size = args[0].size();
        let coefficient = minus_one();
        let mut lists = Vec::with_capacity(alloc, size as usize)?;
        for k in 0..size {
            lists.push(one_term(alloc, term(0, k, coefficient))?)?;
        }
        Ok(Terms::from_vec(lists))
    }
}

impl LinearOp for Diff {
    ghost meaning = { λ _. diff_meaning };

    ghost linearity = { λ _. diff_linear };

    ghost sign_law = { λ _. diff_sign };

    ghost monotonicity = { λ _. diff_trend };

    fn shape(&self, args: &[Shape]) -> Option<Shape> {
        match args {
            [a] => differences(*a),
            _ => None,
        }
    }

    fn trend(&self, _i: usize) -> Trend {
        Trend {
            rising: false,
            falling: false,
        }
    }

    fn sign(&self, args: &[Sign]) -> Sign {
        let sign = first_sign(args);
        let zero = sign.nonneg && sign.nonpos;
        Sign {
            nonneg: zero,
            nonpos: zero,
        }
    }

    fn map(&self, alloc: Global, args: &[Shape]) -> Result<Terms, AllocError> {
        let size = args[0].size() - 1;
        let mut lists = Vec::with_capacity(alloc, size as usize)?;
        for k in 0..size {
            let before = term(0, k, minus_one());
            let after = term(0, k + 1, Frac::one());
            lists.push(two_terms(alloc, before, after)?)?;
        }
        Ok(Terms::from_vec(lists))
    }
}

/// The shape of the differences: one entry fewer.
fn differences(a: Shape) -> Option<Shape>
    ensures { option_map sides_of result ≡ differences_sides (sides_of a) }
{
    match a.sides() {
        Sides::Vector(n) if n > 1 => Shape::vector(n - 1),
        _ => None,
    }
}
