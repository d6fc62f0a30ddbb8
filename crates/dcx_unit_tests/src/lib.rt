//! What no line of a file can say: traits called through their bounds at types of their own, a counter of steps, libraries
//! and sinks that fail, a sink that keeps what it is handed, files of the host, and what syntax trees keep of how a script was
//! written.
//!
//! The other cases are lines of the crates whose names end with `_cases`.
#![tactic(auto)]

#[cfg(test)]
mod counting;
#[cfg(test)]
mod files;
#[cfg(test)]
mod laws;
#[cfg(test)]
mod pieces;
#[cfg(test)]
mod syntax_trees;
