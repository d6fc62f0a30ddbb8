//! What a check tells of an accepted problem.
use dcx_atom::Sign;
use dcx_rules::{Curvature, Sense};

/// What a check tells of an accepted problem. Entries are counted over all shapes of a kind together.
#[derive(Clone, Copy)]
pub struct Checked {
    /// Which way the objective goes.
    pub sense: Sense,
    /// What is known of the objective's sign.
    pub sign: Sign,
    /// The objective's curvature.
    pub curvature: Curvature,
    /// Whether the problem is accepted also where parameters are affine.
    pub dpp: bool,
    /// How many variables the problem reaches.
    pub variables: u64,
    /// How many entries they have.
    pub variable_entries: u64,
    /// How many parameters the problem reaches.
    pub parameters: u64,
    /// How many entries they have.
    pub parameter_entries: u64,
    /// How many constraints there are.
    pub constraints: u64,
    /// How many entries they have.
    pub constraint_entries: u64,
}
