//! Exact fractions of two 128-bit integers in lowest terms: every operation is exact, or says that it passes 128 bits.
//!
//! `specs/Frac.antt` says which number a fraction is, and `specs/Formed.antt` which numbers an operation forms.
//! No call takes memory.
#![tactic(auto)]

mod divisor;
mod fraction;
pub mod laws;
mod list;
mod order;
mod text;

pub use dcx_math::List;
pub use divisor::gcd;
pub use fraction::{Frac, LARGEST, Op, Passes};
pub use list::Fracs;
pub use order::compare;
pub use text::write_frac;
