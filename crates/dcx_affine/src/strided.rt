//! Calls of one argument, each of whose entries is a number times the sum of a stride of the argument's entries.
ghost use Rattle.std.specs.Prelude.{◌≡◌, ◌+◌, ◌*◌, ◌^◌, ◌<◌, ◌≤◌, IsSome, IfOk, IfSome, map, option_map};
ghost use Rattle.dcx_atom.specs.Frac.{value};
ghost use Rattle.dcx_shape.specs.Shape.{sides_of};
ghost use Rattle.dcx_shape.specs.Sides.{entries_of};
ghost use Rattle.dcx_atom.specs.Arrays.{sides_list, sides_at, list_below};
ghost use Rattle.dcx_atom.specs.Signs.{rises};
ghost use Rattle.dcx_atom.specs.Linear.{linear_term, AreTermsOf};
ghost use Rattle.dcx_affine.specs.Strided.{StridedCall, strided_meaning, stride_terms};

use dcx_atom::{EntryTerms, Frac, Stride, Terms, Trend, Triple};
use dcx_shape::Shape;
use std::alloc::{AllocError, Global};

/// A call of one argument, each of whose entries is a number times the sum of a stride.
pub(crate) trait Strided {
    /// What the call is.
    ghost call: { Self → StridedCall };

    /// The shape of the result of an argument of this shape.
    fn result(&self, from: Shape) -> Option<Shape>
        ensures { option_map sides_of result ≡ (call self.now).result (sides_of from) };

    /// The number by which each sum is multiplied.
    fn coefficient(&self, from: Shape) -> Frac
        requires { IsSome ((call self.now).result (sides_of from)) }
        ensures { value result ≡ (call self.now).coefficient (sides_of from) };

    /// The entries that are summed for entry `k`.
    fn stride(&self, from: Shape, k: u32) -> Stride
        requires shape { IsSome ((call self.now).result (sides_of from)) }
        requires entry { IfSome ((call self.now).result (sides_of from)) (λ s. k < entries_of s) }
        ensures is { result ≡ (call self.now).stride (sides_of from) k }
        ensures fits { result.first + result.count * result.step < 2 ^ 32 };
}

/// The terms of a stride.
fn terms_of(alloc: Global, coefficient: Frac, stride: Stride) -> Result<EntryTerms, AllocError>
    requires { stride.first + stride.count * stride.step < 2 ^ 32 }
    ensures { IfOk result (λ t. map linear_term t ≡ stride_terms (value coefficient) stride) }
{
    let mut terms = Vec::with_capacity(alloc, stride.count as usize)?;
    for i in 0..stride.count {
        terms.push(Triple {
            argument: 0,
            entry: stride.first + i * stride.step,
            coefficient,
        })?;
    }
    Ok(EntryTerms::from_vec(terms))
}

/// The terms of each of the `size` entries of the result.
fn all_terms<S: Strided>(alloc: Global, op: &S, from: Shape, size: u32) -> Result<Terms, AllocError>
    requires shape { IsSome ((S.call op.now).result (sides_of from)) }
    requires size { IfSome ((S.call op.now).result (sides_of from)) (λ s. size ≡ entries_of s) }
    ensures { IfOk result (λ t. map (map linear_term) t ≡ list_below size (λ k. stride_terms ((S.call op.now).coefficient (sides_of from)) ((S.call op.now).stride (sides_of from) k))) }
{
    let coefficient = op.coefficient(from);
    let mut lists = Vec::with_capacity(alloc, size as usize)?;
    for k in 0..size {
        lists.push(terms_of(alloc, coefficient, op.stride(from, k))?)?;
    }
    Ok(Terms::from_vec(lists))
}

/// The shape of the value; `None` where there isn't one argument.
pub(crate) fn strided_shape<S: Strided>(op: &S, args: &[Shape]) -> Option<Shape>
    ensures { option_map sides_of result ≡ (strided_meaning (S.call op.now)).shape (sides_list args.now) }
{
    match args {
        [from] => op.result(*from),
        _ => None,
    }
}

/// The terms of the value.
pub(crate) fn strided_map<S: Strided>(
    alloc: Global,
    op: &S,
    args: &[Shape],
) -> Result<Terms, AllocError>
    requires { IsSome ((strided_meaning (S.call op.now)).shape (sides_list args.now)) }
    ensures { IfOk result (λ t. IfSome ((strided_meaning (S.call op.now)).shape (sides_list args.now)) (λ s. AreTermsOf (strided_meaning (S.call op.now)) (sides_list args.now) (entries_of s) t)) }
{
    let from = args[0];
    let size = op.result(from).unwrap().size();
    all_terms(alloc, op, from, size)
}

/// That a call rises in each argument.
pub(crate) fn rising() -> Trend
    ensures { result ≡ rises }
{
    Trend {
        rising: true,
        falling: false,
    }
}
