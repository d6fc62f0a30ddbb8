//! A call of an expression: what stands in a node beside its arguments.
ghost use Rattle.std.specs.Prelude.{◌≡◌, option_map, pos};
ghost use Rattle.std.specs.List.{list_all};
ghost use Rattle.dcx_math.specs.Rational.{whole, rat_le};
ghost use Rattle.dcx_frac.specs.Frac.{value};
ghost use Rattle.dcx_shape.specs.Shape.{sides_of};
ghost use Rattle.dcx_atom.specs.Arrays.{sides_list};
ghost use Rattle.dcx_atom.specs.Signs.{sign_at, no_trend, is_zero, product_sign, by_other};
ghost use Rattle.dcx_call.specs.Attributes.{attribute_sign};
ghost use Rattle.dcx_call.specs.Calls.{own_sides, sides_of_two, shape_of, numbers_sign, sign_of, pairing_trend, trend_of};

use crate::atoms::AtomCall;
use crate::attribute::{Attribute, Parameter, Variable};
use crate::linears::LinearCall;
use dcx_affine::Pairing;
use dcx_atom::{Array, Atom, LinearOp, Sign, Trend, is_at_most};
use dcx_frac::Frac;
use dcx_shape::Shape;

/// A call with its own fields and without its arguments.
#[derive(Drop)]
pub enum Call {
    /// The value that a point gives.
    Variable(Variable),
    /// The value that a setting gives.
    Parameter(Parameter),
    /// Numbers.
    Constant(Array),
    /// A convex or concave call.
    Atom(AtomCall),
    /// A linear call.
    Linear(LinearCall),
    /// A product or a quotient of two arguments.
    Pairing(Pairing),
}

impl Call {
    /// The shape of the value, from those of the arguments; `None` where the call has no value. Variables, parameters and
    /// constants have their own shape, and no argument.
    pub fn shape(&self, args: &[Shape]) -> Option<Shape>
        ensures { option_map sides_of result ≡ shape_of self.now (sides_list args.now) }
    {
        match self {
            Call::Variable(variable) => own_shape(variable.shape, args),
            Call::Parameter(parameter) => own_shape(parameter.shape, args),
            Call::Constant(array) => own_shape(array.shape, args),
            Call::Atom(atom) => atom.shape(args),
            Call::Linear(op) => op.shape(args),
            Call::Pairing(pairing) => shape_of_two(*pairing, args),
        }
    }

    /// The sign of the value, from those of the arguments.
    pub fn sign(&self, args: &[Sign]) -> Sign
        ensures { result ≡ sign_of self.now args.now }
    {
        match self {
            Call::Variable(variable) => attribute_sign(variable.demanded()),
            Call::Parameter(parameter) => attribute_sign(parameter.attribute),
            Call::Constant(array) => numbers_sign(array.entries.as_slice()),
            Call::Atom(atom) => atom.sign(args),
            Call::Linear(op) => op.sign(args),
            Call::Pairing(_) => product_sign(nth_sign(args, 0), nth_sign(args, 1)),
        }
    }

    /// How the value moves with argument `i`, from the signs of the arguments. Neither way, where nothing is known.
    pub fn trend(&self, i: usize, signs: &[Sign]) -> Trend
        ensures { result ≡ trend_of self.now signs.now i }
    {
        match self {
            Call::Variable(_) => still(),
            Call::Parameter(_) => still(),
            Call::Constant(_) => still(),
            Call::Atom(atom) => atom.trend(i, nth_sign(signs, i)),
            Call::Linear(op) => op.trend(i),
            Call::Pairing(pairing) => pairing_trend(*pairing, i, signs),
        }
    }
}

/// The shape of a call without arguments.
fn own_shape(own: Shape, args: &[Shape]) -> Option<Shape>
    ensures { option_map sides_of result ≡ own_sides (sides_of own) (sides_list args.now) }
{
    match args {
        [] => Some(own),
        _ => None,
    }
}

/// The shape of a product or a quotient.
fn shape_of_two(pairing: Pairing, args: &[Shape]) -> Option<Shape>
    ensures { option_map sides_of result ≡ sides_of_two pairing (sides_list args.now) }
{
    match args {
        [left, right] => pairing.shape(*left, *right),
        _ => None,
    }
}

/// The sign that an attribute tells.
fn attribute_sign(attribute: Attribute) -> Sign
    ensures { result ≡ attribute_sign attribute }
{
    Sign {
        nonneg: attribute == Attribute::Nonneg,
        nonpos: attribute == Attribute::Nonpos,
    }
}

/// Whether a number is at least 0.
fn is_nonneg(x: &Frac) -> bool
    ensures { result ≡ rat_le (whole (pos 0)) (value x.now) }
{
    is_at_most(&Frac::zero(), x)
}

/// Whether a number is at most 0.
fn is_nonpos(x: &Frac) -> bool
    ensures { result ≡ rat_le (value x.now) (whole (pos 0)) }
{
    is_at_most(x, &Frac::zero())
}

/// Whether all numbers are at least 0.
fn are_nonneg(numbers: &[Frac]) -> bool
    ensures { result ≡ list_all (λ x. rat_le (whole (pos 0)) (value x)) numbers.now }
{
    numbers.iter().all(|x| is_nonneg(x))
}

/// Whether all numbers are at most 0.
fn are_nonpos(numbers: &[Frac]) -> bool
    ensures { result ≡ list_all (λ x. rat_le (value x) (whole (pos 0))) numbers.now }
{
    numbers.iter().all(|x| is_nonpos(x))
}

/// The sign of numbers.
fn numbers_sign(numbers: &[Frac]) -> Sign
    ensures { result ≡ numbers_sign numbers.now }
{
    Sign {
        nonneg: are_nonneg(numbers),
        nonpos: are_nonpos(numbers),
    }
}

/// The sign of argument `i`; unknown where there is none.
fn nth_sign(signs: &[Sign], i: usize) -> Sign
    ensures { result ≡ sign_at signs.now i }
{
    match signs.get(i) {
        Some(sign) => *sign,
        None => Sign {
            nonneg: false,
            nonpos: false,
        },
    }
}

/// Whether what has this sign is 0.
fn is_zero(sign: Sign) -> bool
    ensures { result ≡ is_zero sign }
{
    sign.nonneg && sign.nonpos
}

/// The sign of a product or a quotient.
fn product_sign(left: Sign, right: Sign) -> Sign
    ensures { result ≡ product_sign left right }
{
    let zero = is_zero(left) || is_zero(right);
    Sign {
        nonneg: zero || (left.nonneg && right.nonneg) || (left.nonpos && right.nonpos),
        nonpos: zero || (left.nonneg && right.nonpos) || (left.nonpos && right.nonneg),
    }
}

/// Neither rising nor falling, as far as is known.
fn still() -> Trend
    ensures { result ≡ no_trend }
{
    Trend {
        rising: false,
        falling: false,
    }
}

/// Rising where the other side is nonneg, and falling where it is nonpos.
fn by_other(other: Sign) -> Trend
    ensures { result ≡ by_other other }
{
    Trend {
        rising: other.nonneg,
        falling: other.nonpos,
    }
}

/// How a product or a quotient moves with a side.
fn pairing_trend(pairing: Pairing, i: usize, signs: &[Sign]) -> Trend
    ensures { result ≡ pairing_trend pairing signs.now i }
{
    if i == 0 {
        return by_other(nth_sign(signs, 1));
    }
    match pairing {
        Pairing::Over => still(),
        _ => by_other(nth_sign(signs, 0)),
    }
}
