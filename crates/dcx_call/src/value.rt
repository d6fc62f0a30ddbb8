//! The value of a call at given arguments, formed entry by entry in 128 bits.
ghost use Rattle.std.specs.Prelude.{◌≡◌, [], map, slice_index_or, Some, IfOk, IfErr, IfSome, IsSome, IsTrue, ◌↔◌};
ghost use Rattle.std.specs.Option.{option_copied, IsSomeAnd};
ghost use Rattle.dcx_frac.specs.Frac.{value};
ghost use Rattle.dcx_shape.specs.Shape.{sides_of};
ghost use Rattle.dcx_shape.specs.Sides.{entries_of};
ghost use Rattle.dcx_atom.specs.Arrays.{number_at, numbers_of, array_sides};
ghost use Rattle.dcx_atom.specs.Linear.{linear_term};
ghost use Rattle.dcx_affine.specs.Pairing.{paired_sides, pairs_at};
ghost use Rattle.dcx_point.specs.Pairs.{Pairs};
ghost use Rattle.dcx_call.specs.Linears.{linear_meaning};
ghost use Rattle.dcx_call.specs.Calls.{shape_of, sides_of_two};
ghost use Rattle.dcx_call.specs.Forming.{products_in_order, or_passes, divided, AreFormed, IsStop};
ghost use Rattle.dcx_call.specs.Values.{term_sum, pair_sum, pairing_formed, IsGiven, IsValue, IsValueStop};

use crate::call::Call;
use crate::fill::{Entrywise, fill};
use crate::linears::LinearCall;
use dcx_affine::{EntryPairs, Pair, Pairing};
use dcx_atom::{
    Array, Atom, EntryTerms, LinearOp, Triple, ValueStop, add_product, copy_array, number_at,
};
use dcx_frac::{Frac, Fracs, Passes};
use dcx_point::{Point, Setting};
use dcx_shape::{Shape, Sides};
use std::alloc::{AllocError, Global};

impl Call {
    /// Whether the point has an array of its shape for the variable that the call is, and the setting one for the parameter.
    pub fn is_given(&self, point: &Point, setting: &Setting) -> bool
        ensures { IsTrue result ↔ IsGiven self.now setting.now point.now }
    {
        match self {
            Call::Variable(variable) => {
                has_sides(point.get(&variable.name), variable.shape.sides())
            }
            Call::Parameter(parameter) => {
                has_sides(setting.get(&parameter.name), parameter.shape.sides())
            }
            Call::Constant(_) => true,
            Call::Atom(_) => true,
            Call::Linear(_) => true,
            Call::Pairing(_) => true,
        }
    }

    /// The value at these arguments. A variable takes its array from the point, and a parameter from the setting.
    ///
    /// `Passes` where an operation passes 128 bits, and `ZeroDivisor` where a divisor entry is 0: the first of both, entry
    /// by entry.
    pub fn value(
        &self,
        alloc: Global,
        point: &Point,
        setting: &Setting,
        args: &[Array],
    ) -> Result<Array, ValueStop>
        requires shape { IsSome (shape_of self.now (array_sides args.now)) }
        requires given { IsGiven self.now setting.now point.now }
        ensures ok { IfOk result (IsValue self.now setting.now point.now args.now) }
        ensures stop { IfErr result (λ e. IfSome (shape_of self.now (array_sides args.now)) (λ s. IsValueStop self.now setting.now point.now args.now (entries_of s) e)) }
    {
        match self {
            Call::Variable(variable) => taken(alloc, point.get(&variable.name)),
            Call::Parameter(parameter) => taken(alloc, setting.get(&parameter.name)),
            Call::Constant(array) => taken(alloc, Some(array)),
            Call::Atom(atom) => atom.value(alloc, args),
            Call::Linear(op) => linear_value(alloc, op, args),
            Call::Pairing(pairing) => pairing_value(alloc, *pairing, args),
        }
    }
}

/// Whether there is an array, with these sides.
fn has_sides(array: Option<&Array>, sides: Sides) -> bool
    ensures { IsTrue result ↔ IsSomeAnd (option_copied array.entry) (λ x. sides_of x.shape ≡ sides) }
{
    match array {
        Some(array) => array.shape.sides() == sides,
        None => false,
    }
}

/// The array that is there.
fn taken(alloc: Global, array: Option<&Array>) -> Result<Array, ValueStop>
    requires { IsSome array }
    ensures ok { IfOk result (λ v. option_copied array.entry ≡ Some v) }
    ensures stop { IfErr result (λ e. e ≡ ValueStop.Memory) }
{
    match copy_array(alloc, array.unwrap()) {
        Ok(array) => Ok(array),
        Err(_) => Err(ValueStop::Memory),
    }
}

/// Entry `j` of argument `i`, and 0 beyond them.
fn entry_of(args: &[Array], i: u32, j: u32) -> Frac
    ensures { value result ≡ numbers_of args.now i j }
{
    match args.get(i as usize) {
        Some(array) => number_at(array.entries.as_slice(), j as usize),
        None => Frac::zero(),
    }
}

/// The sum of terms in order, or the first operation that passes.
fn sum_of_terms(terms: &[Triple], args: &[Array]) -> Result<Frac, Passes>
    ensures { result ≡ products_in_order (map (λ t. (t.coefficient, numbers_of args.now t.argument t.entry)) (map linear_term terms.now)) }
{
    let mut sum = Frac::zero();
    for term in terms {
        sum = add_product(
            sum,
            term.coefficient,
            entry_of(args, term.argument, term.entry),
        )?;
    }
    Ok(sum)
}

/// The sum of the products of pairs in order, or the first operation that passes.
fn sum_of_pairs(pairs: &[Pair], left: &[Frac], right: &[Frac]) -> Result<Frac, Passes>
    ensures { result ≡ products_in_order (map (λ p. (number_at left.now p.left, number_at right.now p.right)) pairs.now) }
{
    let mut sum = Frac::zero();
    for pair in pairs {
        sum = add_product(
            sum,
            number_at(left, pair.left as usize),
            number_at(right, pair.right as usize),
        )?;
    }
    Ok(sum)
}

/// Entry `j`, or that its operation passes.
fn or_passes(j: u32, entry: Result<Frac, Passes>) -> Result<Frac, ValueStop>
    ensures { result ≡ or_passes j entry }
{
    match entry {
        Ok(entry) => Ok(entry),
        Err(passes) => Err(ValueStop::Passes { entry: j, passes }),
    }
}

/// Entry `j` of a quotient.
fn divide(j: u32, x: Frac, y: Frac) -> Result<Frac, ValueStop>
    ensures { result ≡ divided j (value x) (value y) }
{
    if y.is_zero() {
        return Err(ValueStop::ZeroDivisor { entry: j });
    }
    or_passes(j, x.div(y))
}

/// For each entry the terms that are summed.
#[derive(Clone, Copy)]
struct TermSums<'a> {
    terms: &'a [EntryTerms],
    args: &'a [Array],
}

impl Entrywise for TermSums<'_> {
    ghost formed = { λ x j. term_sum (map linear_term (slice_index_or x.terms.now j [])) (numbers_of x.args.now) j };

    fn entry(&self, j: u32) -> Result<Frac, ValueStop> {
        match self.terms.get(j as usize) {
            Some(terms) => or_passes(j, sum_of_terms(terms.as_slice(), self.args)),
            None => or_passes(j, sum_of_terms(&[], self.args)),
        }
    }
}

/// For each entry the pairs whose products are summed.
#[derive(Clone, Copy)]
struct PairSums<'a> {
    pairs: &'a [EntryPairs],
    left: &'a [Frac],
    right: &'a [Frac],
}

impl Entrywise for PairSums<'_> {
    ghost formed = { λ x j. pair_sum (slice_index_or x.pairs.now j []) (number_at x.left.now) (number_at x.right.now) j };

    fn entry(&self, j: u32) -> Result<Frac, ValueStop> {
        match self.pairs.get(j as usize) {
            Some(pairs) => or_passes(j, sum_of_pairs(pairs.as_slice(), self.left, self.right)),
            None => or_passes(j, sum_of_pairs(&[], self.left, self.right)),
        }
    }
}

/// Quotients, entry by entry.
#[derive(Clone, Copy)]
struct Quotients<'a> {
    left: &'a [Frac],
    right: &'a [Frac],
}

impl Entrywise for Quotients<'_> {
    ghost formed = { λ x j. divided j (number_at x.left.now j) (number_at x.right.now j) };

    fn entry(&self, j: u32) -> Result<Frac, ValueStop> {
        let k = j as usize;
        divide(j, number_at(self.left, k), number_at(self.right, k))
    }
}

/// The shapes of arrays.
fn shapes_of(alloc: Global, args: &[Array]) -> Result<Vec<Shape>, AllocError>
    ensures { IfOk result (λ v. v.items ≡ map (λ x. x.shape) args.now) }
{
    args.iter().map(|array| array.shape).collect(alloc)
}

/// The value of a linear call: each coefficient times its entry, in order.
fn linear_value(alloc: Global, op: &LinearCall, args: &[Array]) -> Result<Array, ValueStop>
    requires { IsSome ((linear_meaning op.now).shape (array_sides args.now)) }
    ensures ok { IfOk result (λ v. (setting point : Pairs) → IsValue (Call.Linear op.now) setting point args.now v) }
    ensures stop { IfErr result (λ e. IfSome ((linear_meaning op.now).shape (array_sides args.now))
        (λ s. (setting point : Pairs) → IsValueStop (Call.Linear op.now) setting point args.now (entries_of s) e)) }
{
    let shapes = match shapes_of(alloc, args) {
        Ok(shapes) => shapes,
        Err(_) => return Err(ValueStop::Memory),
    };
    let shape = op.shape(&shapes).unwrap();
    let terms = match op.map(alloc, &shapes) {
        Ok(terms) => terms,
        Err(_) => return Err(ValueStop::Memory),
    };
    let sums = TermSums {
        terms: terms.as_slice(),
        args,
    };
    let entries = fill(alloc, &sums, shape.size())?;
    Ok(Array { shape, entries })
}

/// The sums of the products of pairs, entry by entry.
fn multiply_all(
    alloc: Global,
    pairing: Pairing,
    left: &Array,
    right: &Array,
    size: u32,
) -> Result<Fracs, ValueStop>
    requires shape { IsSome (paired_sides pairing (sides_of left.now.shape) (sides_of right.now.shape)) }
    requires size { IfSome (paired_sides pairing (sides_of left.now.shape) (sides_of right.now.shape)) (λ s. size ≡ entries_of s) }
    ensures ok { IfOk result (AreFormed (λ j. pair_sum (pairs_at pairing (sides_of left.now.shape) (sides_of right.now.shape) j) (number_at left.now.entries) (number_at right.now.entries) j) size) }
    ensures stop { IfErr result (IsStop (λ j. pair_sum (pairs_at pairing (sides_of left.now.shape) (sides_of right.now.shape) j) (number_at left.now.entries) (number_at right.now.entries) j) size) }
{
    let pairs = match pairing.pairs(alloc, left.shape, right.shape) {
        Ok(pairs) => pairs,
        Err(_) => return Err(ValueStop::Memory),
    };
    let sums = PairSums {
        pairs: pairs.as_slice(),
        left: left.entries.as_slice(),
        right: right.entries.as_slice(),
    };
    fill(alloc, &sums, size)
}

/// The quotients, entry by entry.
fn divide_all(alloc: Global, left: &Array, right: &Array, size: u32) -> Result<Fracs, ValueStop>
    ensures ok { IfOk result (AreFormed (λ j. divided j (number_at left.now.entries j) (number_at right.now.entries j)) size) }
    ensures stop { IfErr result (IsStop (λ j. divided j (number_at left.now.entries j) (number_at right.now.entries j)) size) }
{
    let quotients = Quotients {
        left: left.entries.as_slice(),
        right: right.entries.as_slice(),
    };
    fill(alloc, &quotients, size)
}

/// The entries of a product or a quotient.
fn paired(
    alloc: Global,
    pairing: Pairing,
    left: &Array,
    right: &Array,
    size: u32,
) -> Result<Fracs, ValueStop>
    requires shape { IsSome (paired_sides pairing (sides_of left.now.shape) (sides_of right.now.shape)) }
    requires size { IfSome (paired_sides pairing (sides_of left.now.shape) (sides_of right.now.shape)) (λ s. size ≡ entries_of s) }
    ensures ok { IfOk result (AreFormed (λ j. pairing_formed pairing (pairs_at pairing (sides_of left.now.shape) (sides_of right.now.shape) j) (number_at left.now.entries)
        (number_at right.now.entries) j) size) }
    ensures stop { IfErr result (IsStop (λ j. pairing_formed pairing (pairs_at pairing (sides_of left.now.shape) (sides_of right.now.shape) j) (number_at left.now.entries)
        (number_at right.now.entries) j) size) }
{
    match pairing {
        Pairing::Times => multiply_all(alloc, Pairing::Times, left, right, size),
        Pairing::MatTimes => multiply_all(alloc, Pairing::MatTimes, left, right, size),
        Pairing::Over => divide_all(alloc, left, right, size),
    }
}

/// The value of a product or a quotient.
fn pairing_value(alloc: Global, pairing: Pairing, args: &[Array]) -> Result<Array, ValueStop>
    requires { IsSome (sides_of_two pairing (array_sides args.now)) }
    ensures ok { IfOk result (λ v. (setting point : Pairs) → IsValue (Call.Pairing pairing) setting point args.now v) }
    ensures stop { IfErr result (λ e. IfSome (sides_of_two pairing (array_sides args.now))
        (λ s. (setting point : Pairs) → IsValueStop (Call.Pairing pairing) setting point args.now (entries_of s) e)) }
{
    let left = &args[0];
    let right = &args[1];
    let shape = pairing.shape(left.shape, right.shape).unwrap();
    let entries = paired(alloc, pairing, left, right, shape.size())?;
    Ok(Array { shape, entries })
}
