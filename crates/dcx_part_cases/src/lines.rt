//! Lines of plain files: what each asks and wants, and how what stands in them is read and written.
//!
//! A line is `PART | PART | .. => WANTED`. Lines that are empty or begin with `#` are none.

pub(crate) mod arrays;
pub(crate) mod fault;
pub(crate) mod fractions;
pub(crate) mod named;
pub(crate) mod running;
pub(crate) mod sizes;
pub(crate) mod word;

pub(crate) use arrays::{array, numbers, put_value};
pub(crate) use fault::CaseFault;
pub(crate) use fractions::{Number, Numbers, Passing};
pub(crate) use named::{point, setting};
pub(crate) use running::{Cases, Tally};
pub(crate) use sizes::{Size, shape};
pub(crate) use word::{count, fraction, name, put_between, words};
