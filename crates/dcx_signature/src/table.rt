//! The calls of the language as a table: their names, and their arguments in order.
ghost use Rattle.std.specs.Prelude.{◌≡◌, map, MatchOption};
ghost use Rattle.std.specs.List.{list_any};
ghost use Rattle.std.specs.Map.{lookup};
ghost use Rattle.dcx_point.specs.Pairs.{same_name};
ghost use Rattle.dcx_syntax.specs.Statements.{module_bytes};
ghost use Rattle.dcx_signature.specs.Table.{function_named, ignored_words};
ghost use Rattle.dcx_signature.specs.Table as table;
ghost use Rattle.dcx_signature.specs.View.{param_seen, row_seen, entry_seen};

use dcx_shape::Name;
use dcx_syntax::Module;

/// A call of the language.
#[derive(Clone, Copy)]
pub enum Function {
    /// `range(..)`
    Range,
    /// `cp.Variable(..)`
    Variable,
    /// `cp.Parameter(..)`
    Parameter,
    /// `cp.Constant(v)`
    Constant,
    /// `cp.Minimize(e)`
    Minimize,
    /// `cp.Maximize(e)`
    Maximize,
    /// `cp.Problem(objective, constraints)`
    Problem,
    /// `np.array(v)`
    Array,
    /// `np.ones(shape)`
    Ones,
    /// `np.zeros(shape)`
    Zeros,
    /// `np.eye(n)`
    Eye,
    /// `cp.multiply(a, b)`
    Multiply,
    /// `cp.vec(x)`
    Vectorize,
    /// `cp.reshape(x, shape, order)`
    Reshape,
    /// `cp.sum(x, axis)`
    Sum,
    /// `cp.mean(x, axis)`
    Mean,
    /// `cp.cumsum(x, axis)`
    CumSum,
    /// `cp.diff(x, k)`
    Diff,
    /// `cp.trace(X)`
    Trace,
    /// `cp.diag(x)`
    Diag,
    /// `cp.hstack(list)`
    HStack,
    /// `cp.vstack(list)`
    VStack,
    /// `cp.abs(x)`
    Abs,
    /// `cp.pos(x)`
    Pos,
    /// `cp.neg(x)`
    Neg,
    /// `cp.maximum(a1, a2, ..)`
    Maximum,
    /// `cp.minimum(a1, a2, ..)`
    Minimum,
    /// `cp.max(x, axis)`
    MaxOf,
    /// `cp.min(x, axis)`
    MinOf,
    /// `cp.norm1(x, axis)`
    Norm1,
    /// `cp.norm_inf(x, axis)`
    NormInf,
    /// `cp.sum_largest(x, k)`
    SumLargest,
    /// `cp.sum_smallest(x, k)`
    SumSmallest,
    /// `cp.cummax(x)`
    CumMax,
    /// `cp.norm(x, order)`
    Norm,
    /// `cp.tv(x)`
    TotalVariation,
}

/// What an argument may be.
#[derive(Clone, Copy)]
pub enum Takes {
    /// Any value.
    Anything,
    /// An expression, a plain number or array, or a list of numbers.
    Expression,
    /// A list of what `Expression` is.
    Expressions,
    /// A plain number or array, or a list of numbers.
    Numbers,
    /// A list of numbers, or a list of equally long lists of numbers.
    Rows,
    /// A whole number.
    Whole,
    /// A whole number other than 0.
    Step,
    /// A whole number, at least 0.
    Count,
    /// A whole number from 1 to the number of entries of x.
    Share,
    /// A whole number or at most two of them, each at least 1.
    Shape,
    /// A whole number or at most two of them, each at least 0.
    ShapeOfNone,
    /// None, 0 or 1, where x has such a side.
    Axis,
    /// "F" or "C".
    Order,
    /// A number or a text.
    NormOrder,
    /// A text.
    Text,
    /// True or False.
    Truth,
    /// What `cp.Minimize` and `cp.Maximize` give.
    Objective,
    /// A list of constraints.
    Constraints,
}

/// In which ways an argument may be given, and whether it must be.
#[derive(Clone, Copy)]
pub enum Way {
    /// By position or by name, and it must be.
    Must,
    /// By position or by name.
    May,
    /// By name alone.
    Keyword,
    /// By position alone, and it must be.
    MustByPosition,
    /// By position alone.
    MayByPosition,
}

impl Way {
    ghost use Rattle.dcx_signature.specs.View.{is_by_position, is_by_name, is_needed};

    /// Whether it may be given by position.
    pub fn is_by_position(self) -> bool
        ensures { result ≡ is_by_position self }
    {
        !matches!(self, Way::Keyword)
    }

    /// Whether it may be given by name.
    pub fn is_by_name(self) -> bool
        ensures { result ≡ is_by_name self }
    {
        matches!(self, Way::Must | Way::May | Way::Keyword)
    }

    /// Whether it must be given.
    pub fn is_needed(self) -> bool
        ensures { result ≡ is_needed self }
    {
        matches!(self, Way::Must | Way::MustByPosition)
    }
}

/// An argument that a call takes: its name, in which ways it may be given, and what it may be.
#[derive(Clone, Copy)]
pub struct Param {
    pub word: &'static str,
    pub way: Way,
    pub takes: Takes,
}

/// The arguments of a call in order; and what more of them by position may be, of which there are at least so many.
#[derive(Clone, Copy)]
pub struct Row {
    pub params: &'static [Param],
    pub rest: Option<Takes>,
    pub least: usize,
}

/// Of `range`, whose arguments have no names to be given by.
const RANGE: &[Param] = &[
    Param {
        word: "first",
        way: Way::MustByPosition,
        takes: Takes::Whole,
    },
    Param {
        word: "second",
        way: Way::MayByPosition,
        takes: Takes::Whole,
    },
    Param {
        word: "step",
        way: Way::MayByPosition,
        takes: Takes::Step,
    },
];

/// Of `cp.Variable`.
const VARIABLE: &[Param] = &[
    Param {
        word: "shape",
        way: Way::May,
        takes: Takes::Shape,
    },
    Param {
        word: "name",
        way: Way::Keyword,
        takes: Takes::Text,
    },
    Param {
        word: "nonneg",
        way: Way::Keyword,
        takes: Takes::Truth,
    },
    Param {
        word: "nonpos",
        way: Way::Keyword,
        takes: Takes::Truth,
    },
    Param {
        word: "symmetric",
        way: Way::Keyword,
        takes: Takes::Truth,
    },
    Param {
        word: "diag",
        way: Way::Keyword,
        takes: Takes::Truth,
    },
    Param {
        word: "boolean",
        way: Way::Keyword,
        takes: Takes::Truth,
    },
    Param {
        word: "integer",
        way: Way::Keyword,
        takes: Takes::Truth,
    },
];

/// Of `cp.Parameter`, where the last four are named to be refused.
const PARAMETER: &[Param] = &[
    Param {
        word: "shape",
        way: Way::May,
        takes: Takes::Shape,
    },
    Param {
        word: "name",
        way: Way::Keyword,
        takes: Takes::Text,
    },
    Param {
        word: "nonneg",
        way: Way::Keyword,
        takes: Takes::Truth,
    },
    Param {
        word: "nonpos",
        way: Way::Keyword,
        takes: Takes::Truth,
    },
    Param {
        word: "value",
        way: Way::Keyword,
        takes: Takes::Numbers,
    },
    Param {
        word: "symmetric",
        way: Way::Keyword,
        takes: Takes::Anything,
    },
    Param {
        word: "diag",
        way: Way::Keyword,
        takes: Takes::Anything,
    },
    Param {
        word: "boolean",
        way: Way::Keyword,
        takes: Takes::Anything,
    },
    Param {
        word: "integer",
        way: Way::Keyword,
        takes: Takes::Anything,
    },
];

/// Of `cp.Constant`.
const CONSTANT: &[Param] = &[Param {
    word: "v",
    way: Way::Must,
    takes: Takes::Numbers,
}];

/// Of `cp.Minimize` and `cp.Maximize`.
const OBJECTIVE: &[Param] = &[Param {
    word: "e",
    way: Way::Must,
    takes: Takes::Expression,
}];

/// Of `cp.Problem`.
const PROBLEM: &[Param] = &[
    Param {
        word: "objective",
        way: Way::Must,
        takes: Takes::Objective,
    },
    Param {
        word: "constraints",
        way: Way::May,
        takes: Takes::Constraints,
    },
];

/// Of `np.array`.
const ARRAY: &[Param] = &[Param {
    word: "v",
    way: Way::Must,
    takes: Takes::Rows,
}];

/// Of `np.ones` and `np.zeros`.
const FILLED: &[Param] = &[Param {
    word: "shape",
    way: Way::Must,
    takes: Takes::ShapeOfNone,
}];

/// Of `np.eye`.
const EYE: &[Param] = &[Param {
    word: "n",
    way: Way::Must,
    takes: Takes::Count,
}];

/// Of `cp.multiply`.
const MULTIPLY: &[Param] = &[
    Param {
        word: "a",
        way: Way::Must,
        takes: Takes::Expression,
    },
    Param {
        word: "b",
        way: Way::Must,
        takes: Takes::Expression,
    },
];

/// Of a call of one expression.
const ONE: &[Param] = &[Param {
    word: "x",
    way: Way::Must,
    takes: Takes::Expression,
}];

/// Of `cp.trace`.
const MATRIX: &[Param] = &[Param {
    word: "X",
    way: Way::Must,
    takes: Takes::Expression,
}];

/// Of a call of one expression, of all entries or along a side.
const ALONG: &[Param] = &[
    Param {
        word: "x",
        way: Way::Must,
        takes: Takes::Expression,
    },
    Param {
        word: "axis",
        way: Way::May,
        takes: Takes::Axis,
    },
];

/// Of a call of the largest or the smallest entries.
const SHARE: &[Param] = &[
    Param {
        word: "x",
        way: Way::Must,
        takes: Takes::Expression,
    },
    Param {
        word: "k",
        way: Way::Must,
        takes: Takes::Share,
    },
];

/// Of `cp.reshape`.
const RESHAPE: &[Param] = &[
    Param {
        word: "x",
        way: Way::Must,
        takes: Takes::Expression,
    },
    Param {
        word: "shape",
        way: Way::Must,
        takes: Takes::Shape,
    },
    Param {
        word: "order",
        way: Way::May,
        takes: Takes::Order,
    },
];

/// Of `cp.diff`.
const DIFF: &[Param] = &[
    Param {
        word: "x",
        way: Way::Must,
        takes: Takes::Expression,
    },
    Param {
        word: "k",
        way: Way::May,
        takes: Takes::Count,
    },
];

/// Of `cp.hstack` and `cp.vstack`.
const STACK: &[Param] = &[Param {
    word: "list",
    way: Way::Must,
    takes: Takes::Expressions,
}];

/// Of `cp.norm`, whose order has no name to be given by.
const NORM: &[Param] = &[
    Param {
        word: "x",
        way: Way::Must,
        takes: Takes::Expression,
    },
    Param {
        word: "order",
        way: Way::MustByPosition,
        takes: Takes::NormOrder,
    },
];

/// Of a solve, which looks at neither.
const SOLVE_PARAMS: &[Param] = &[
    Param {
        word: "solver",
        way: Way::Keyword,
        takes: Takes::Anything,
    },
    Param {
        word: "verbose",
        way: Way::Keyword,
        takes: Takes::Anything,
    },
];

/// These arguments and no more.
fn these(params: &'static [Param]) -> Row
    ensures { row_seen result ≡ table.these (map param_seen params.now) }
{
    Row {
        params,
        rest: None,
        least: 0,
    }
}

/// At least two expressions by position.
fn several() -> Row
    ensures { row_seen result ≡ table.at_least 2 Takes.Expression }
{
    Row {
        params: &[],
        rest: Some(Takes::Expression),
        least: 2,
    }
}

/// The arguments of a call that takes no more than these; none of one that takes any number of expressions.
fn params_of(function: Function) -> Option<&'static [Param]>
    ensures { MatchOption result (table.row function ≡ table.at_least 2 Takes.Expression) (λ ps. table.row function ≡ table.these (map param_seen ps.now)) }
{
    match function {
        Function::Range => Some(RANGE),
        Function::Variable => Some(VARIABLE),
        Function::Parameter => Some(PARAMETER),
        Function::Constant => Some(CONSTANT),
        Function::Minimize => Some(OBJECTIVE),
        Function::Maximize => Some(OBJECTIVE),
        Function::Problem => Some(PROBLEM),
        Function::Array => Some(ARRAY),
        Function::Ones => Some(FILLED),
        Function::Zeros => Some(FILLED),
        Function::Eye => Some(EYE),
        Function::Multiply => Some(MULTIPLY),
        Function::Vectorize => Some(ONE),
        Function::Reshape => Some(RESHAPE),
        Function::Sum => Some(ALONG),
        Function::Mean => Some(ALONG),
        Function::CumSum => Some(ALONG),
        Function::Diff => Some(DIFF),
        Function::Trace => Some(MATRIX),
        Function::Diag => Some(ONE),
        Function::HStack => Some(STACK),
        Function::VStack => Some(STACK),
        Function::Abs => Some(ONE),
        Function::Pos => Some(ONE),
        Function::Neg => Some(ONE),
        Function::Maximum => None,
        Function::Minimum => None,
        Function::MaxOf => Some(ALONG),
        Function::MinOf => Some(ALONG),
        Function::Norm1 => Some(ALONG),
        Function::NormInf => Some(ALONG),
        Function::SumLargest => Some(SHARE),
        Function::SumSmallest => Some(SHARE),
        Function::CumMax => Some(ONE),
        Function::Norm => Some(NORM),
        Function::TotalVariation => Some(ONE),
    }
}

/// The arguments that a call takes.
pub fn row_of(function: Function) -> Row
    ensures { row_seen result ≡ table.row function }
{
    match params_of(function) {
        Some(params) => these(params),
        None => several(),
    }
}

/// The arguments that a solve takes.
pub fn solve_row() -> Row
    ensures { row_seen result ≡ table.solve_row }
{
    these(SOLVE_PARAMS)
}

/// Whether a name is this word.
pub fn is_word(name: &Name, word: &str) -> bool
    ensures { result ≡ same_name name.now word.now }
{
    name.as_slice() == word.as_bytes()
}

/// Whether a solve takes an argument of this name without looking at it.
pub fn is_ignored_word(name: &Name) -> bool
    ensures { result ≡ list_any (same_name name.now) ignored_words }
{
    is_word(name, "solver") || is_word(name, "verbose")
}

/// The names of the module of calls.
const CVXPY: &[(&str, Function)] = &[
    ("Variable", Function::Variable),
    ("Parameter", Function::Parameter),
    ("Constant", Function::Constant),
    ("Minimize", Function::Minimize),
    ("Maximize", Function::Maximize),
    ("Problem", Function::Problem),
    ("multiply", Function::Multiply),
    ("vec", Function::Vectorize),
    ("reshape", Function::Reshape),
    ("sum", Function::Sum),
    ("mean", Function::Mean),
    ("cumsum", Function::CumSum),
    ("diff", Function::Diff),
    ("trace", Function::Trace),
    ("diag", Function::Diag),
    ("hstack", Function::HStack),
    ("vstack", Function::VStack),
    ("abs", Function::Abs),
    ("pos", Function::Pos),
    ("neg", Function::Neg),
    ("maximum", Function::Maximum),
    ("minimum", Function::Minimum),
    ("max", Function::MaxOf),
    ("min", Function::MinOf),
    ("norm1", Function::Norm1),
    ("norm_inf", Function::NormInf),
    ("sum_largest", Function::SumLargest),
    ("sum_smallest", Function::SumSmallest),
    ("cummax", Function::CumMax),
    ("norm", Function::Norm),
    ("tv", Function::TotalVariation),
];

/// The names of the module of arrays.
const NUMPY: &[(&str, Function)] = &[
    ("array", Function::Array),
    ("ones", Function::Ones),
    ("zeros", Function::Zeros),
    ("eye", Function::Eye),
];

/// The call of this name in a list of calls.
fn found(functions: &[(&str, Function)], name: &Name) -> Option<Function>
    ensures { result ≡ lookup (same_name name.now) (map entry_seen functions.now) }
{
    for (word, function) in functions {
        if is_word(name, *word) {
            return Some(*function);
        }
    }
    None
}

/// The call of this name in a module.
pub fn function_named(library: Module, name: &Name) -> Option<Function>
    ensures { result ≡ function_named library name.now }
{
    match library {
        Module::Cvxpy => found(CVXPY, name),
        Module::Numpy => found(NUMPY, name),
    }
}

/// The name of a module.
pub fn module_word(library: Module) -> &'static str
    ensures { result.now ≡ module_bytes library }
{
    match library {
        Module::Cvxpy => "cvxpy",
        Module::Numpy => "numpy",
    }
}
