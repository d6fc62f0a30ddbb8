//! The place of the first token of an expression.
ghost use Rattle.std.specs.Prelude.{◌≡◌};
ghost use Rattle.dcx_syntax.specs.View.{primary_view, factor_view, expr_view};
ghost use Rattle.dcx_signature.specs.Firsts as meaning;

use dcx_shape::Place;
use dcx_syntax::{Expr, Factor, Primary};

/// The place of the first token of a primary.
pub fn primary_place(primary: &Primary) -> Place
    ensures { result ≡ meaning.primary_place (primary_view primary.now) }
{
    match primary {
        Primary::Number(_, place) => *place,
        Primary::Text(_, place) => *place,
        Primary::Name(name) => name.place,
        Primary::Truth(_, place) => *place,
        Primary::None(place) => *place,
        Primary::Unit(place) => *place,
        Primary::Round(place, _) => *place,
        Primary::Tuple { place, .. } => *place,
        Primary::EmptyList(place) => *place,
        Primary::List { place, .. } => *place,
        Primary::Comprehension { place, .. } => *place,
    }
}

/// The place of the first token of a factor, which may be a sign.
fn factor_place(factor: &Factor) -> Place
    ensures { result ≡ meaning.factor_place (factor_view factor.now) }
{
    match factor.signs.as_slice() {
        [first, ..] => first.place,
        [] => primary_place(&factor.power.first.primary),
    }
}

/// The place of the first token of an expression.
pub fn expr_place(expr: &Expr) -> Place
    ensures { result ≡ meaning.expr_place (expr_view expr.now) }
{
    factor_place(&expr.first.first.first)
}
