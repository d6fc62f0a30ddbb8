//! What lets a call stand in a tree.
ghost use Rattle.dcx_call.specs.Calls.{shape_of};
ghost use Rattle.dcx_call.specs.Buckets.{bucket_number};

use crate::call::Call;
use dcx_arena::Operator;
use dcx_shape::Shape;
use std::alloc::{AllocError, Global};

impl Operator for Call {
    ghost gives = { shape_of };

    ghost bucket_of = { bucket_number };

    fn shape(&self, args: &[Shape]) -> Option<Shape> {
        Call::shape(self, args)
    }

    fn same(&self, other: &Call) -> bool {
        self.equals(other)
    }

    fn bucket(&self) -> u32 {
        self.bucket_number()
    }

    fn copy(&self, alloc: Global) -> Result<Call, AllocError> {
        self.copied(alloc)
    }
}
