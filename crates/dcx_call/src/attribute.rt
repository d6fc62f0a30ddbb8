//! Variables and parameters, as a script declares them.
ghost use Rattle.std.specs.Prelude.{◌≡◌};
ghost use Rattle.dcx_call.specs.Attributes.{counted};

use dcx_shape::{Name, Shape};

/// What is known of each value of a variable or a parameter.
#[derive(Clone, Copy, PartialEq, Eq)]
pub enum Attribute {
    /// Nothing.
    Free,
    /// Each entry is at least 0.
    Nonneg,
    /// Each entry is at most 0.
    Nonpos,
    /// A square matrix that is its own transpose.
    Symmetric,
    /// A square matrix that is 0 off its diagonal.
    Diag,
}

/// Which entries of a variable are whole.
#[derive(Clone, Copy, Debug, PartialEq, Eq)]
pub enum Whole {
    /// Any numbers.
    Not,
    /// Each entry is whole.
    Integer,
    /// Each entry is 0 or 1.
    Boolean,
}

/// An unknown array.
#[derive(Drop)]
pub struct Variable {
    /// The name in the script.
    pub name: Name,
    /// How long the sides are.
    pub shape: Shape,
    /// What is known of each value.
    pub attribute: Attribute,
    /// Which entries are whole.
    pub whole: Whole,
}

impl Variable {
    /// What is demanded of its entries: what is to be 0 or 1 counts as nonneg. Takes no memory.
    pub fn demanded(&self) -> Attribute
        ensures { result ≡ counted self.now.whole self.now.attribute }
    {
        match self.whole {
            Whole::Boolean => Attribute::Nonneg,
            _ => self.attribute,
        }
    }
}

/// An array that a setting gives.
#[derive(Drop)]
pub struct Parameter {
    /// The name in the script.
    pub name: Name,
    /// How long the sides are.
    pub shape: Shape,
    /// What is known of each value.
    pub attribute: Attribute,
}
