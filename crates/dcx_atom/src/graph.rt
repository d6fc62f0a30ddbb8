//! The graph of a nonlinear call: linear rows over its arguments and auxiliary unknowns that stand for it.

use dcx_frac::Frac;
use dcx_math::List;

/// The sign of an auxiliary unknown.
#[derive(Clone, Copy, Debug, PartialEq, Eq)]
pub enum AuxKind {
    /// Any number.
    Free,
    /// A number of at least 0.
    Nonneg,
}

/// What a term of a row multiplies.
#[derive(Clone, Copy)]
pub enum Operand {
    /// An entry of an argument.
    Argument {
        /// The argument, counted from 0.
        argument: u32,
        /// The entry, in row-major order.
        entry: u32,
    },
    /// An auxiliary unknown, counted from 0.
    Aux(u32),
}

/// A coefficient times an operand.
#[derive(Clone, Copy)]
pub struct GraphTerm {
    /// What is multiplied.
    pub operand: Operand,
    /// By how much.
    pub coefficient: Frac,
}

/// A row: the sum of its terms is at most 0.
#[derive(Drop)]
pub struct GraphRow {
    /// The result entry that the row belongs to. Rows rise by it.
    pub entry: u32,
    /// What is summed.
    pub terms: GraphTerms,
}

/// A coefficient times an auxiliary unknown.
#[derive(Clone, Copy)]
pub struct AuxTerm {
    /// The unknown, counted from 0.
    pub aux: u32,
    /// By how much it is multiplied.
    pub coefficient: Frac,
}

/// The auxiliary unknowns, the rows, and the results.
#[derive(Drop)]
pub struct Graph {
    /// The kind of each auxiliary unknown.
    pub aux: AuxKinds,
    /// The rows, by result entry.
    pub rows: GraphRows,
    /// For each result entry the sum over the unknowns that stands for it.
    pub results: GraphForms,
}

/// The kinds of auxiliary unknowns, in order.
pub type AuxKinds = List<AuxKind>;

/// The terms of a row, in order.
pub type GraphTerms = List<GraphTerm>;

/// Rows, in order.
pub type GraphRows = List<GraphRow>;

/// The terms of one result, in order.
pub type GraphForm = List<AuxTerm>;

/// For each result entry its terms.
pub type GraphForms = List<GraphForm>;
