//! How the pairs of a product or a quotient are formed.
ghost use Rattle.std.specs.Prelude.{◌≡◌};
ghost use Rattle.std.specs.List.{list_all};
ghost use Rattle.dcx_entries.specs.Nodes.{is_told, has_numbers, pairing_scaling, product_scaling};
ghost use Rattle.dcx_entries.specs.Standing.{forms_of};

use crate::entries::EntryForms;
use crate::standing::Standing;
use dcx_affine::Pairing;
use dcx_linear::{Coef, Form};

/// Which side of a pair scales the other.
#[derive(Clone, Copy)]
pub enum Scaling {
    /// The left side, a number.
    LeftNumber,
    /// The right side, a number.
    RightNumber,
    /// The left side, which is affine in the parameters: it is multiplied by each number of the right side.
    LeftAffine,
    /// The right side, which is affine in the parameters: it is multiplied by each number of the left side.
    RightAffine,
    /// The right side, a number that divides the left side.
    Divisor,
}

/// What is known of a side of a product or a quotient.
#[derive(Clone, Copy)]
pub struct Side {
    /// It is a number by the rules.
    pub number: bool,
    /// It reaches no variable.
    pub fixed: bool,
    /// All coefficients of its forms are numbers.
    pub numbers: bool,
}

/// How the pairs of a product are formed: a side that is a number scales the other one; where there is none, a side that
/// reaches no variable is an affine number, which is multiplied by each number of the other side.
fn product_scaling(left: Side, right: Side) -> Scaling
    ensures { result ≡ product_scaling left right }
{
    if left.number {
        Scaling::LeftNumber
    } else if right.number {
        Scaling::RightNumber
    } else if left.fixed && right.numbers {
        Scaling::LeftAffine
    } else if right.fixed && left.numbers {
        Scaling::RightAffine
    } else {
        Scaling::LeftNumber
    }
}

/// How the pairs of a product or a quotient are formed.
pub fn pairing_scaling(pairing: Pairing, left: Side, right: Side) -> Scaling
    ensures { result ≡ pairing_scaling pairing left right }
{
    match pairing {
        Pairing::Times | Pairing::MatTimes => product_scaling(left, right),
        Pairing::Over => Scaling::Divisor,
    }
}

/// Whether the constant and each coefficient of a form is a number.
fn has_numbers<C: Coef>(form: &Form<C>) -> bool
    ensures { result ≡ has_numbers C.number_of form.now }
{
    if form.constant.as_number().is_none() {
        return false;
    }
    'terms: for term in form.terms.as_slice() {
        if term.coefficient.as_number().is_none() {
            return false;
        }
    }
    true
}

/// Whether all coefficients of the forms of entries are numbers.
fn entries_have_numbers<C: Coef>(entries: &[EntryForms<C>]) -> bool
    ensures { result ≡ list_all (λ e. has_numbers C.number_of e.form) entries.now }
{
    'entries: for entry in entries {
        if !has_numbers(&entry.form) {
            return false;
        }
    }
    true
}

/// Whether all coefficients of the forms of a node are numbers.
pub fn have_numbers<C: Coef>(standing: &Standing<C>) -> bool
    ensures { result ≡ list_all (has_numbers C.number_of) (forms_of C.of_number standing.now) }
{
    match standing {
        Standing::Numbers(_) => true,
        Standing::Forms(list) => entries_have_numbers(list.as_slice()),
    }
}
