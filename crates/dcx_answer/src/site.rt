//! Where an operation passes 128 bits.
use dcx_arena::NodeId;
use dcx_frac::Passes;

/// Where an operation passes 128 bits.
#[derive(Clone, Copy, Debug, PartialEq, Eq)]
pub enum Site {
    /// At an entry of a node, while the problem is reduced.
    Node {
        /// The node.
        node: NodeId,
        /// The entry, counted from 0.
        entry: u32,
        /// The operation and its operands.
        passes: Passes,
    },
    /// At a row, while its numbers are made whole.
    Row {
        /// The row, counted from 0.
        row: u32,
        /// The operation and its operands.
        passes: Passes,
    },
    /// At a row, while the parameters' values are put in.
    Map {
        /// The row, counted from 0.
        row: u32,
        /// The operation and its operands.
        passes: Passes,
    },
    /// In a pivot.
    Pivot {
        /// How many pivots were done before it.
        pivots: u64,
        /// The row of the pivot, counted from 0.
        row: u32,
        /// The column of the pivot, counted from 0.
        column: u32,
    },
    /// At a row, while the answer is read.
    Answer {
        /// The row, counted from 0.
        row: u32,
        /// The operation and its operands.
        passes: Passes,
    },
}
