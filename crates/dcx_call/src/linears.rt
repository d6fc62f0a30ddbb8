//! The linear calls as one type, which does what each of them does.
ghost use Rattle.dcx_call.specs.Linears.{linear_meaning, linear_lawful};

use dcx_affine::{
    CumSum, Diag, Diff, HStack, Index, Mean, Minus, Plus, Promote, Reshape, Sum, Trace, Transpose,
    VStack,
};
use dcx_atom::{LinearOp, Sign, Terms, Trend};
use dcx_shape::Shape;
use std::alloc::{AllocError, Global};

/// A linear call.
#[derive(Drop)]
pub enum LinearCall {
    /// The sum of two arrays.
    Plus(Plus),
    /// An array turned round.
    Minus(Minus),
    /// The sum of entries.
    Sum(Sum),
    /// The mean of entries.
    Mean(Mean),
    /// Running sums.
    CumSum(CumSum),
    /// The differences of a vector.
    Diff(Diff),
    /// The sum of a diagonal.
    Trace(Trace),
    /// The square matrix of a vector, or the diagonal of a square matrix.
    Diag(Diag),
    /// Entries at places.
    Index(Index),
    /// The same entries in another shape.
    Reshape(Reshape),
    /// A matrix turned over its diagonal.
    Transpose(Transpose),
    /// Arrays side by side.
    HStack(HStack),
    /// Arrays one below the other.
    VStack(VStack),
    /// An array broadcast to a shape.
    Promote(Promote),
}

impl LinearOp for LinearCall {
    ghost meaning = { linear_meaning };

    ghost linearity = { λ x. (linear_lawful x).linearity };

    ghost sign_law = { λ x. (linear_lawful x).sign };

    ghost monotonicity = { λ x. (linear_lawful x).monotonicity };

    fn shape(&self, args: &[Shape]) -> Option<Shape> {
        match self {
            LinearCall::Plus(call) => call.shape(args),
            LinearCall::Minus(call) => call.shape(args),
            LinearCall::Sum(call) => call.shape(args),
            LinearCall::Mean(call) => call.shape(args),
            LinearCall::CumSum(call) => call.shape(args),
            LinearCall::Diff(call) => call.shape(args),
            LinearCall::Trace(call) => call.shape(args),
            LinearCall::Diag(call) => call.shape(args),
            LinearCall::Index(call) => call.shape(args),
            LinearCall::Reshape(call) => call.shape(args),
            LinearCall::Transpose(call) => call.shape(args),
            LinearCall::HStack(call) => call.shape(args),
            LinearCall::VStack(call) => call.shape(args),
            LinearCall::Promote(call) => call.shape(args),
        }
    }

    fn trend(&self, i: usize) -> Trend {
        match self {
            LinearCall::Plus(call) => call.trend(i),
            LinearCall::Minus(call) => call.trend(i),
            LinearCall::Sum(call) => call.trend(i),
            LinearCall::Mean(call) => call.trend(i),
            LinearCall::CumSum(call) => call.trend(i),
            LinearCall::Diff(call) => call.trend(i),
            LinearCall::Trace(call) => call.trend(i),
            LinearCall::Diag(call) => call.trend(i),
            LinearCall::Index(call) => call.trend(i),
            LinearCall::Reshape(call) => call.trend(i),
            LinearCall::Transpose(call) => call.trend(i),
            LinearCall::HStack(call) => call.trend(i),
            LinearCall::VStack(call) => call.trend(i),
            LinearCall::Promote(call) => call.trend(i),
        }
    }

    fn sign(&self, args: &[Sign]) -> Sign {
        match self {
            LinearCall::Plus(call) => call.sign(args),
            LinearCall::Minus(call) => call.sign(args),
            LinearCall::Sum(call) => call.sign(args),
            LinearCall::Mean(call) => call.sign(args),
            LinearCall::CumSum(call) => call.sign(args),
            LinearCall::Diff(call) => call.sign(args),
            LinearCall::Trace(call) => call.sign(args),
            LinearCall::Diag(call) => call.sign(args),
            LinearCall::Index(call) => call.sign(args),
            LinearCall::Reshape(call) => call.sign(args),
            LinearCall::Transpose(call) => call.sign(args),
            LinearCall::HStack(call) => call.sign(args),
            LinearCall::VStack(call) => call.sign(args),
            LinearCall::Promote(call) => call.sign(args),
        }
    }

    fn map(&self, alloc: Global, args: &[Shape]) -> Result<Terms, AllocError> {
        match self {
            LinearCall::Plus(call) => call.map(alloc, args),
            LinearCall::Minus(call) => call.map(alloc, args),
            LinearCall::Sum(call) => call.map(alloc, args),
            LinearCall::Mean(call) => call.map(alloc, args),
            LinearCall::CumSum(call) => call.map(alloc, args),
            LinearCall::Diff(call) => call.map(alloc, args),
            LinearCall::Trace(call) => call.map(alloc, args),
            LinearCall::Diag(call) => call.map(alloc, args),
            LinearCall::Index(call) => call.map(alloc, args),
            LinearCall::Reshape(call) => call.map(alloc, args),
            LinearCall::Transpose(call) => call.map(alloc, args),
            LinearCall::HStack(call) => call.map(alloc, args),
            LinearCall::VStack(call) => call.map(alloc, args),
            LinearCall::Promote(call) => call.map(alloc, args),
        }
    }
}
