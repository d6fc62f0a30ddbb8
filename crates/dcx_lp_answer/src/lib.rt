//! The answers of linear programs of whole numbers: what makes one right for its program, and the multipliers that it shows.
//!
//! It stands below the making of programs and below the simplex method, so that neither needs the other, and apart from
//! tableaus, since what reads an answer needs none.
//!
//! | what must hold | where |
//! |---|---|
//! | the multiplier of a row is formed from what is kept of the row, or exactly the first operation that passes is told | `multiplier`, `multiplier_of` of `specs/Multipliers.antt` |
//! | the multipliers of rows of one kind are formed in order, or exactly the first that passes is told with its row | `multipliers` |
//! | what is formed is the multiplier by which an answer is right for its program | `laws::formed_is_right` |
//!
//! `specs/Right.antt` says what makes an answer right for its program.
#![tactic(auto)]

mod answer;
mod forming;
pub mod laws;
mod stop;

pub use answer::{LpAnswer, LpStatus, RowNote, RowNotes};
pub use forming::{multiplier, multipliers};
pub use stop::MultiplierStop;
