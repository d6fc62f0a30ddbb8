//! The syntax tree of a script: one struct or enum for each rule of the grammar.
//!
//! A repetition `{ }` of a rule is a list, so the depth of a tree is bounded by the brackets and blocks that are open.

use dcx_frac::Frac;
use dcx_shape::{Bytes, Name, Place};
use smallvec::SmallVec;

/// A comparison: `"<=" | ">=" | "==" | "<" | ">" | "!="`.
#[derive(Clone, Copy, Debug, PartialEq, Eq)]
pub enum Comparison {
    AtMost,
    AtLeast,
    Equal,
    Less,
    Greater,
    NotEqual,
}

/// A sign, or what adds: `"+" | "-"`.
#[derive(Clone, Copy, Debug, PartialEq, Eq)]
pub enum Sign {
    Plus,
    Minus,
}

/// What scales: `"*" | "/" | "@"`.
#[derive(Clone, Copy)]
pub enum Scaling {
    Times,
    Over,
    Matmul,
}

/// A module that can be imported: `"cvxpy" | "numpy"`.
#[derive(Clone, Copy)]
pub enum Module {
    Cvxpy,
    Numpy,
}

/// A name, and the place of its first byte.
#[derive(Drop)]
pub struct Named {
    pub name: Name,
    pub place: Place,
}

/// A sign before an operand, and its place.
#[derive(Clone, Copy, PartialEq, Eq)]
pub struct Signed {
    pub sign: Sign,
    pub place: Place,
}

/// What an unused place of a short list holds.
impl Default for Signed {
    fn default() -> Self {
        Signed {
            sign: Sign::Plus,
            place: Place { line: 1, column: 1 },
        }
    }
}

/// The signs before an operand: seldom more than two, which are kept in the tree itself.
pub type Signs = SmallVec<Signed, 2>;

/// `expr = sum { ("<=" | ">=" | "==" | "<" | ">" | "!=") sum }`
#[cycle(tree)]
#[derive(Drop)]
pub struct Expr {
    pub first: Sum,
    pub rest: Vec<Compared>,
}

/// A comparison in `expr`, the place of its sign, and what stands to the right of it.
#[cycle(tree)]
#[derive(Drop)]
pub struct Compared {
    pub comparison: Comparison,
    pub place: Place,
    pub sum: Sum,
}

/// `sum = term { ("+" | "-") term }`, grouped from the left.
#[cycle(tree)]
#[derive(Drop)]
pub struct Sum {
    pub first: Term,
    pub rest: Vec<Added>,
}

/// What a `sum` adds or subtracts, and the place of the `+` or `-`.
#[cycle(tree)]
#[derive(Drop)]
pub struct Added {
    pub sign: Sign,
    pub place: Place,
    pub term: Term,
}

/// `term = factor { ("*" | "/" | "@") factor }`, grouped from the left.
#[cycle(tree)]
#[derive(Drop)]
pub struct Term {
    pub first: Factor,
    pub rest: Vec<Scaled>,
}

/// What a `term` multiplies or divides by, and the place of the operator.
#[cycle(tree)]
#[derive(Drop)]
pub struct Scaled {
    pub scaling: Scaling,
    pub place: Place,
    pub factor: Factor,
}

/// `factor = { "+" | "-" } power`
#[cycle(tree)]
#[derive(Drop)]
pub struct Factor {
    pub signs: Signs,
    pub power: Power,
}

/// `power = postfix { "**" { "+" | "-" } postfix }`
#[cycle(tree)]
#[derive(Drop)]
pub struct Power {
    pub first: Postfix,
    pub rest: Vec<Raised>,
}

/// An exponent of a `power`, and the place of its `**`.
#[cycle(tree)]
#[derive(Drop)]
pub struct Raised {
    pub place: Place,
    pub signs: Signs,
    pub postfix: Postfix,
}

/// `postfix = primary { "." NAME | "(" [ args ] ")" | "[" index { "," index } "]" }`
#[cycle(tree)]
#[derive(Drop)]
pub struct Postfix {
    pub primary: Primary,
    pub trailers: Vec<Trailer>,
}

/// What follows a primary in `postfix`.
#[cycle(tree)]
#[derive(Drop)]
pub enum Trailer {
    /// `"." NAME`
    Attribute(Named),
    /// `"(" [ args ] ")"` with `args = arg { "," arg } [ "," ]`: the place of `(`, the arguments, and whether a comma ends them.
    Call {
        place: Place,
        args: Vec<Arg>,
        comma: bool,
    },
    /// `"[" index { "," index } "]"`: the place of `[`, and the indices.
    Index {
        place: Place,
        first: Index,
        rest: Vec<Index>,
    },
}

/// `arg = expr | NAME "=" expr`
#[cycle(tree)]
#[derive(Drop)]
pub enum Arg {
    ByPlace(Expr),
    ByName(Named, Expr),
}

/// `index = expr | [ expr ] ":" [ expr ] [ ":" [ expr ] ]`
#[cycle(tree)]
#[derive(Drop)]
pub enum Index {
    At(Expr),
    Slice {
        start: Option<Expr>,
        stop: Option<Expr>,
        step: Step,
    },
}

/// The part `[ ":" [ expr ] ]` of a slice.
#[cycle(tree)]
#[derive(Drop)]
pub enum Step {
    Absent,
    Colon(Option<Expr>),
}

/// A primary, with the place of its first token.
#[cycle(tree)]
#[derive(Drop)]
pub enum Primary {
    /// `NUMBER`
    Number(Frac, Place),
    /// `STRING`, as it stands in the script, with its quotes.
    Text(Bytes, Place),
    /// `NAME`
    Name(Named),
    /// `"True" | "False"`
    Truth(bool, Place),
    /// `"None"`
    None(Place),
    /// `"(" ")"`
    Unit(Place),
    /// `"(" expr ")"`
    Round(Place, Box<Expr>),
    /// `"(" expr "," [ expr { "," expr } [ "," ] ] ")"`, and whether a comma stands before the `)`.
    Tuple {
        place: Place,
        first: Box<Expr>,
        rest: Vec<Expr>,
        comma: bool,
    },
    /// `"[" "]"`
    EmptyList(Place),
    /// `"[" expr { "," expr } [ "," ] "]"`, and whether a comma stands before the `]`.
    List {
        place: Place,
        first: Box<Expr>,
        rest: Vec<Expr>,
        comma: bool,
    },
    /// `"[" expr "for" NAME "in" expr "]"`: the places of `[` and of `for`.
    Comprehension {
        place: Place,
        element: Box<Expr>,
        for_place: Place,
        name: Named,
        source: Box<Expr>,
    },
}

/// `import = "import" ( "cvxpy" | "numpy" ) [ "as" NAME ] NEWLINE`: the places of `import` and of the module's name.
#[derive(Drop)]
pub struct Import {
    pub place: Place,
    pub module: Module,
    pub module_place: Place,
    pub alias: Option<Named>,
}

/// A line.
#[derive(Drop)]
pub enum Line {
    /// `import`
    Import(Import),
    /// `NAME "=" expr NEWLINE`
    Assign {
        name: Named,
        value: Expr,
    },
    /// `NAME "+=" expr NEWLINE`: the place of `+=`.
    AddTo {
        name: Named,
        place: Place,
        value: Expr,
    },
    /// `NAME "." "value" "=" expr NEWLINE`: the place of `value`.
    SetValue {
        name: Named,
        place: Place,
        value: Expr,
    },
    /// `expr NEWLINE`
    Evaluate(Expr),
    /// `"print" "(" balanced ")" NEWLINE`: the places of `print` and of `(`. What stands between the brackets isn't kept.
    Print {
        place: Place,
        open: Place,
    },
    /// `"for" NAME "in" expr ":" NEWLINE INDENT line { line } DEDENT`: the place of `for`.
    For {
        place: Place,
        name: Named,
        source: Expr,
        first: Box<Line>,
        rest: Vec<Line>,
    },
}

/// `script = { line }`
#[derive(Drop)]
pub struct Script {
    pub lines: Vec<Line>,
}
