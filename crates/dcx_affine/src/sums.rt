//! Sums along a side, means, running sums and traces.
ghost use Rattle.std.specs.Prelude.{◌≡◌, ◌<◌, pos};
ghost use Rattle.dcx_math.specs.Rational.{whole, inverse};
ghost use Rattle.dcx_atom.specs.Frac.{value};
ghost use Rattle.dcx_shape.specs.Shape.{sides_of};
ghost use Rattle.dcx_affine.specs.Strided.{strided_meaning};
ghost use Rattle.dcx_affine.specs.StridedLaws.{strided_linear, strided_sign, strided_trend};
ghost use Rattle.dcx_affine.specs.Folds.{sum_call, mean_call, running_call, trace_call};
ghost use Rattle.dcx_affine.specs.FoldLaws.{sum_is, mean_is, running_is, trace_is};

use crate::strided::{Strided, rising, strided_map, strided_shape};
use dcx_atom::{Axis, Frac, LinearOp, Sign, Stride, Terms, Trend, first_sign};
use dcx_shape::{Shape, Sides};
use std::alloc::{AllocError, Global};

/// The sum of all entries, or along a side.
#[derive(Clone, Copy, PartialEq, Eq)]
pub struct Sum {
    /// Along which side.
    pub axis: Axis,
}

impl Strided for Sum {
    ghost call = { λ s. sum_call s.axis };

    fn result(&self, from: Shape) -> Option<Shape> {
        self.axis.folded(from)
    }

    fn coefficient(&self, _from: Shape) -> Frac {
        Frac::one()
    }

    fn stride(&self, from: Shape, k: u32) -> Stride {
        self.axis.stride(from, k)
    }
}

impl LinearOp for Sum {
    ghost meaning = { λ s. strided_meaning (sum_call s.axis) };

    ghost linearity = { λ s. strided_linear (sum_call s.axis) (sum_is s.axis) };

    ghost sign_law = { λ s. strided_sign (sum_call s.axis) (sum_is s.axis) };

    ghost monotonicity = { λ s. strided_trend (sum_call s.axis) (sum_is s.axis) };

    fn shape(&self, args: &[Shape]) -> Option<Shape> {
        strided_shape(self, args)
    }

    fn trend(&self, _i: usize) -> Trend {
        rising()
    }

    fn sign(&self, args: &[Sign]) -> Sign {
        first_sign(args)
    }

    fn map(&self, alloc: Global, args: &[Shape]) -> Result<Terms, AllocError> {
        strided_map(alloc, self, args)
    }
}

/// The mean of all entries, or along a side.
#[derive(Clone, Copy, PartialEq, Eq)]
pub struct Mean {
    /// Along which side.
    pub axis: Axis,
}

/// The number 1 / n.
fn reciprocal(n: u32) -> Frac
    requires { 0 < n }
    ensures { value result ≡ inverse (whole (pos n)) }
{
    Frac::of(1, i128::from(n)).unwrap()
}

impl Strided for Mean {
    ghost call = { λ s. mean_call s.axis };

    fn result(&self, from: Shape) -> Option<Shape> {
        self.axis.folded(from)
    }

    fn coefficient(&self, from: Shape) -> Frac {
        reciprocal(self.axis.folded_count(from))
    }

    fn stride(&self, from: Shape, k: u32) -> Stride {
        self.axis.stride(from, k)
    }
}

impl LinearOp for Mean {
    ghost meaning = { λ s. strided_meaning (mean_call s.axis) };

    ghost linearity = { λ s. strided_linear (mean_call s.axis) (mean_is s.axis) };

    ghost sign_law = { λ s. strided_sign (mean_call s.axis) (mean_is s.axis) };

    ghost monotonicity = { λ s. strided_trend (mean_call s.axis) (mean_is s.axis) };

    fn shape(&self, args: &[Shape]) -> Option<Shape> {
        strided_shape(self, args)
    }

    fn trend(&self, _i: usize) -> Trend {
        rising()
    }

    fn sign(&self, args: &[Sign]) -> Sign {
        first_sign(args)
    }

    fn map(&self, alloc: Global, args: &[Shape]) -> Result<Terms, AllocError> {
        strided_map(alloc, self, args)
    }
}

/// The running sums of a vector, or of a matrix down its columns or along its rows.
#[derive(Clone, Copy, PartialEq, Eq)]
pub struct CumSum {
    /// Along which side; all and the outer one are the same of a vector.
    pub axis: Axis,
}

impl Strided for CumSum {
    ghost call = { λ s. running_call s.axis };

    fn result(&self, from: Shape) -> Option<Shape> {
        match (self.axis, from.sides()) {
            (Axis::All, Sides::Vector(_)) => Some(from),
            (Axis::Zero, Sides::Vector(_)) => Some(from),
            (Axis::Zero, Sides::Matrix(_, _)) => Some(from),
            (Axis::One, Sides::Matrix(_, _)) => Some(from),
            _ => None,
        }
    }

    fn coefficient(&self, _from: Shape) -> Frac {
        Frac::one()
    }

    fn stride(&self, from: Shape, k: u32) -> Stride {
        match (self.axis, from.sides()) {
            (Axis::Zero, Sides::Matrix(_, n)) => Stride {
                first: k % n,
                step: n,
                count: k / n + 1,
            },
            (Axis::One, Sides::Matrix(_, n)) => Stride {
                first: k / n * n,
                step: 1,
                count: k % n + 1,
            },
            _ => Stride {
                first: 0,
                step: 1,
                count: k + 1,
            },
        }
    }
}

impl LinearOp for CumSum {
    ghost meaning = { λ s. strided_meaning (running_call s.axis) };

    ghost linearity = { λ s. strided_linear (running_call s.axis) (running_is s.axis) };

    ghost sign_law = { λ s. strided_sign (running_call s.axis) (running_is s.axis) };

    ghost monotonicity = { λ s. strided_trend (running_call s.axis) (running_is s.axis) };

    fn shape(&self, args: &[Shape]) -> Option<Shape> {
        strided_shape(self, args)
    }

    fn trend(&self, _i: usize) -> Trend {
        rising()
    }

    fn sign(&self, args: &[Sign]) -> Sign {
        first_sign(args)
    }

    fn map(&self, alloc: Global, args: &[Shape]) -> Result<Terms, AllocError> {
        strided_map(alloc, self, args)
    }
}

/// The sum of the diagonal of a square matrix.
#[derive(Clone, Copy, PartialEq, Eq)]
pub struct Trace;

impl Strided for Trace {
    ghost call = { λ _. trace_call };

    fn result(&self, from: Shape) -> Option<Shape> {
        match from.sides() {
            Sides::Matrix(m, n) if m == n => Some(Shape::scalar()),
            _ => None,
        }
    }

    fn coefficient(&self, _from: Shape) -> Frac {
        Frac::one()
    }

    fn stride(&self, from: Shape, _k: u32) -> Stride {
        Stride {
            first: 0,
            step: from.cols() + 1,
            count: from.cols(),
        }
    }
}

impl LinearOp for Trace {
    ghost meaning = { λ _. strided_meaning trace_call };

    ghost linearity = { λ _. strided_linear trace_call trace_is };

    ghost sign_law = { λ _. strided_sign trace_call trace_is };

    ghost monotonicity = { λ _. strided_trend trace_call trace_is };

    fn shape(&self, args: &[Shape]) -> Option<Shape> {
        strided_shape(self, args)
    }

    fn trend(&self, _i: usize) -> Trend {
        rising()
    }

    fn sign(&self, args: &[Sign]) -> Sign {
        first_sign(args)
    }

    fn map(&self, alloc: Global, args: &[Shape]) -> Result<Terms, AllocError> {
        strided_map(alloc, self, args)
    }
}
