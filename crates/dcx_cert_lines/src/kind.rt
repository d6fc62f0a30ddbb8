//! The kinds of sections.

/// What a section shows.
#[derive(Clone, Copy)]
pub enum Kind {
    /// A point that no other betters.
    Optimal,
    /// That no point is feasible.
    Infeasible,
    /// A ray along which the objective falls for ever.
    Unbounded,
    /// Nothing.
    Empty,
}
