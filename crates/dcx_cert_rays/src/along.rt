//! What a ray is checked with.
use dcx_atom::Array;
use dcx_point::{Point, Setting};
use dcx_tree::Problem;

/// A ray of a problem at a setting.
#[derive(Clone, Copy)]
pub(crate) struct Along<'a> {
    /// The problem.
    pub problem: &'a Problem,
    /// The setting.
    pub setting: &'a Setting,
    /// A mark for each node that has no variable below it.
    pub fixed: &'a [bool],
    /// The values of these nodes, and maybe of others.
    pub values: &'a [Option<Array>],
    /// The ray.
    pub ray: &'a Point,
}
