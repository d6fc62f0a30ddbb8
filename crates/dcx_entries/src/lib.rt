//! The linear forms of the entries of a node, as they are formed in 128 bits from those of its arguments.
//!
//! A node has a form for each entry, to which an atom's graph adds rows. The form of a variable's entry is its unknown. That of a
//! linear call is the sum of its terms, that of an atom the sum over the auxiliary unknowns of its graph; each row of the graph
//! is a form too. That of a product or a quotient is a sum over pairs of entries, of which one side scales the other: a number,
//! or what is affine in the parameters. A sum is formed from the form 0 on: each part is multiplied or divided whole, and then
//! added, in order. Entries are formed in row-major order, up to the first one with an operation that passes 128 bits or a
//! divisor that is 0.
//!
//! | what must hold | where |
//! |---|---|
//! | what stands for a node is its value, or a form for each entry; an argument's entry is that of its node | `Standing`, `Arguments`, `specs/Standing.antt` |
//! | an entry of a linear call is the sum of its terms | `linear_entries` |
//! | at all unknowns and parameters it is the sum of the terms over the numbers that the arguments' forms are | `laws::linear_entries_are_sums` |
//! | an entry of an atom is the result of its graph, and then its rows, with the forms of the arguments put in | `atom_entries` |
//! | an entry of a product or a quotient is the sum of its pairs | `pair_entries` |
//! | a divisor of 0 stops an entry before anything of it is formed | `pair_entries` |
//! | an entry of a variable is its unknown, or 0 where it has none | `variable_entries` |
//! | an entry of a parameter is the setting's number, or the entry itself where parameters are affine | `parameter_entries` |
//! | the entries of a linear call, an atom, a product or a quotient have one answer | `laws::one_list_of_linear_entries`, `laws::one_list_of_atom_entries`, `laws::one_list_of_pair_entries` |
//! | what stops is the first operation that passes 128 bits, entry by entry, with its entry | `linear_entries`, `atom_entries`, `pair_entries`, `specs/Forming.antt` |
#![tactic(auto)]

mod arguments;
mod atom;
mod entries;
mod entry;
mod formed;
pub mod laws;
mod linear;
mod numbers;
mod pairs;
mod parameter;
mod scaling;
mod standing;
mod stop;
mod sums;
mod variable;

pub use arguments::Arguments;
pub use atom::atom_entries;
pub use entries::{EntryForms, EntryList, FormList};
pub use entry::{Entry, changed_entry, entry_number};
pub use formed::{Formed, FormedRow, FormedRows, StandingList};
pub use linear::linear_entries;
pub use pairs::pair_entries;
pub use parameter::parameter_entries;
pub use scaling::{Scaling, Side, have_numbers, pairing_scaling};
pub use standing::{Standing, entry_at};
pub use stop::FormStop;
pub use variable::variable_entries;
