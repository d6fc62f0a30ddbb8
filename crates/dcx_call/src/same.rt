//! Whether two calls are the same, field by field.
ghost use Rattle.std.specs.Prelude.{◌≡◌, ◌↔◌, IsTrue};

use crate::atoms::AtomCall;
use crate::attribute::{Parameter, Variable};
use crate::call::Call;
use crate::linears::LinearCall;
use dcx_affine::{Index, Pairing};
use dcx_atom::Array;
use dcx_frac::Frac;
use dcx_shape::{Name, Places, Shape};

/// Whether two names are the same.
fn same_name(a: &Name, b: &Name) -> bool
    ensures { IsTrue result ↔ (a.now ≡ b.now) }
{
    a == b
}

/// Whether two shapes are the same.
fn same_shape(a: &Shape, b: &Shape) -> bool
    ensures { IsTrue result ↔ (a.now ≡ b.now) }
{
    a == b
}

/// Whether two fractions are the same.
fn same_frac(a: &Frac, b: &Frac) -> bool
    ensures { IsTrue result ↔ (a.now ≡ b.now) }
{
    a == b
}

/// Whether two lists of fractions are the same.
fn same_numbers(a: &[Frac], b: &[Frac]) -> bool
    ensures { IsTrue result ↔ (a.now ≡ b.now) }
{
    if a.len() != b.len() {
        return false;
    }
    for (i, x) in a.iter().enumerate() {
        if !same_frac(x, &b[i]) {
            return false;
        }
    }
    true
}

/// Whether two lists of places are the same.
fn same_places(a: &Places, b: &Places) -> bool
    ensures { IsTrue result ↔ (a.now ≡ b.now) }
{
    a.as_slice() == b.as_slice()
}

/// Whether two arrays are the same.
fn same_array(a: &Array, b: &Array) -> bool
    ensures { IsTrue result ↔ (a.now ≡ b.now) }
{
    same_shape(&a.shape, &b.shape) && same_numbers(a.entries.as_slice(), b.entries.as_slice())
}

/// Whether two indices are the same.
fn same_index(a: &Index, b: &Index) -> bool
    ensures { IsTrue result ↔ (a.now ≡ b.now) }
{
    same_shape(&a.from, &b.from) && same_shape(&a.to, &b.to) && same_places(&a.places, &b.places)
}

/// Whether two variables are the same.
fn same_variable(a: &Variable, b: &Variable) -> bool
    ensures { IsTrue result ↔ (a.now ≡ b.now) }
{
    same_name(&a.name, &b.name)
        && same_shape(&a.shape, &b.shape)
        && a.attribute == b.attribute
        && a.whole == b.whole
}

/// Whether two parameters are the same.
fn same_parameter(a: &Parameter, b: &Parameter) -> bool
    ensures { IsTrue result ↔ (a.now ≡ b.now) }
{
    same_name(&a.name, &b.name) && same_shape(&a.shape, &b.shape) && a.attribute == b.attribute
}

/// Whether two nonlinear calls are the same.
fn same_atom(a: AtomCall, b: AtomCall) -> bool
    ensures { IsTrue result ↔ (a ≡ b) }
{
    a == b
}

/// Whether two pairings are the same.
fn same_pairing(a: Pairing, b: Pairing) -> bool
    ensures { IsTrue result ↔ (a ≡ b) }
{
    a == b
}

/// Whether two linear calls are the same.
fn same_linear(a: &LinearCall, b: &LinearCall) -> bool
    ensures { IsTrue result ↔ (a.now ≡ b.now) }
{
    match a {
        LinearCall::Plus(_) => matches!(b, LinearCall::Plus(_)),
        LinearCall::Minus(_) => matches!(b, LinearCall::Minus(_)),
        LinearCall::Sum(a) => match b {
            LinearCall::Sum(b) => a == b,
            _ => false,
        },
        LinearCall::Mean(a) => match b {
            LinearCall::Mean(b) => a == b,
            _ => false,
        },
        LinearCall::CumSum(a) => match b {
            LinearCall::CumSum(b) => a == b,
            _ => false,
        },
        LinearCall::Diff(_) => matches!(b, LinearCall::Diff(_)),
        LinearCall::Trace(_) => matches!(b, LinearCall::Trace(_)),
        LinearCall::Diag(_) => matches!(b, LinearCall::Diag(_)),
        LinearCall::Index(a) => match b {
            LinearCall::Index(b) => same_index(a, b),
            _ => false,
        },
        LinearCall::Reshape(a) => match b {
            LinearCall::Reshape(b) => a.by_columns == b.by_columns && same_shape(&a.to, &b.to),
            _ => false,
        },
        LinearCall::Transpose(_) => matches!(b, LinearCall::Transpose(_)),
        LinearCall::HStack(_) => matches!(b, LinearCall::HStack(_)),
        LinearCall::VStack(_) => matches!(b, LinearCall::VStack(_)),
        LinearCall::Promote(a) => match b {
            LinearCall::Promote(b) => same_shape(&a.to, &b.to),
            _ => false,
        },
    }
}

impl Call {
    /// Whether two calls are the same, field by field.
    pub(crate) fn equals(&self, other: &Call) -> bool
        ensures { IsTrue result ↔ (self.now ≡ other.now) }
    {
        match (self, other) {
            (Call::Variable(a), Call::Variable(b)) => same_variable(a, b),
            (Call::Parameter(a), Call::Parameter(b)) => same_parameter(a, b),
            (Call::Constant(a), Call::Constant(b)) => same_array(a, b),
            (Call::Atom(a), Call::Atom(b)) => same_atom(*a, *b),
            (Call::Linear(a), Call::Linear(b)) => same_linear(a, b),
            (Call::Pairing(a), Call::Pairing(b)) => same_pairing(*a, *b),
            _ => false,
        }
    }
}
