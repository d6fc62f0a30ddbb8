//! The brackets of a script.

/// A kind of bracket.
#[derive(Clone, Copy, PartialEq, Eq)]
pub enum Bracket {
    Round,
    Square,
    Curly,
}
