//! What every crate speaks of: shapes of arrays, places in a script, names and bytes; and NumPy's rules of shapes:
//! broadcasting, matrix products, slices, indices and reshapes.
//!
//! The rules stand in `specs/` as relations, and the calls are exact against them. `laws` says what follows from them.
#![tactic(auto)]

mod bytes;
mod combine;
mod fault;
mod index;
pub mod laws;
mod name;
mod place;
mod places;
mod reshape;
mod run;
mod shape;
mod slice;

pub use bytes::Bytes;
pub use combine::{broadcast, matmul_shape};
pub use fault::ShapeFault;
pub use index::{Pick, index_map};
pub use name::{Name, copy_name};
pub use place::Place;
pub use places::Places;
pub use reshape::reshape_map;
pub use shape::{MOST_ENTRIES, Shape, Sides};
pub use slice::{Slice, slice_places};
