//! What the rules say of a call, from what they say of its arguments.
ghost use Rattle.std.specs.Prelude.{◌≡◌, map, IfOk, slice_index_or};
ghost use Rattle.std.specs.List.{list_all};
ghost use Rattle.dcx_convex.specs.Rules.{is_constant, is_affine, is_bent, opposite, same_bend, scales, suits, all_suit, fixed_by, unparametrized_by, is_bent_by};
ghost use Rattle.dcx_call.specs.Calls.{trend_of};
ghost use Rattle.dcx_rules.specs.Judgements.{judgement_of, rules_of, signs_of, rules_head, bends_head, bends_pairing, no_judgement, composes, judged};

use dcx_affine::Pairing;
use dcx_atom::{Atom, Bend, Sign, Trend};
use dcx_tree::Call;
use std::alloc::{AllocError, Global};

/// Whose rules.
#[derive(Clone, Copy)]
pub enum Rules {
    /// A parameter is a number.
    Plain,
    /// A parameter is affine, as a variable is.
    Parametrized,
}

/// What the rules say of a node.
#[derive(Clone, Copy)]
pub struct Judgement {
    /// The sign of its value.
    pub sign: Sign,
    /// It reaches no variable.
    pub fixed: bool,
    /// It reaches no parameter.
    pub unparametrized: bool,
    /// Its value is convex.
    pub convex: bool,
    /// Its value is concave.
    pub concave: bool,
}

/// What the rules say of a call of arguments that are judged so.
pub fn judge(
    alloc: Global,
    rules: Rules,
    call: &Call,
    args: &[Judgement],
) -> Result<Judgement, AllocError>
    ensures { IfOk result (λ g. judgement_of g ≡ judged (rules_of rules) call.now (map judgement_of args.now)) }
{
    let signs = signs_of(alloc, args)?;
    Ok(Judgement {
        sign: call.sign(&signs),
        fixed: is_fixed(call, args),
        unparametrized: is_unparametrized(call, args),
        convex: is_bent_call(rules, Bend::Convex, call, args, &signs),
        concave: is_bent_call(rules, Bend::Concave, call, args, &signs),
    })
}

/// The signs of arguments.
fn signs_of(alloc: Global, args: &[Judgement]) -> Result<Vec<Sign>, AllocError>
    ensures { IfOk result (λ v. v.items ≡ signs_of args.now) }
{
    let mut signs = Vec::new(alloc);
    for g in args {
        signs.push(g.sign)?;
    }
    Ok(signs)
}

/// Whether a call reaches no variable.
fn is_fixed(call: &Call, args: &[Judgement]) -> bool
    ensures { result ≡ fixed_by (rules_head call.now) (map judgement_of args.now) }
{
    match call {
        Call::Variable(_) => false,
        Call::Parameter(_) => true,
        Call::Constant(_) => true,
        _ => are_fixed(args),
    }
}

/// Whether none reaches a variable.
fn are_fixed(args: &[Judgement]) -> bool
    ensures { result ≡ list_all (λ g. g.fixed) args.now }
{
    args.iter().all(|g| g.fixed)
}

/// Whether a call reaches no parameter.
fn is_unparametrized(call: &Call, args: &[Judgement]) -> bool
    ensures { result ≡ unparametrized_by (rules_head call.now) (map judgement_of args.now) }
{
    match call {
        Call::Variable(_) => true,
        Call::Parameter(_) => false,
        Call::Constant(_) => true,
        _ => are_unparametrized(args),
    }
}

/// Whether none reaches a parameter.
fn are_unparametrized(args: &[Judgement]) -> bool
    ensures { result ≡ list_all (λ g. g.unparametrized) args.now }
{
    args.iter().all(|g| g.unparametrized)
}

/// Whether a call is convex, or concave, as told.
fn is_bent_call(rules: Rules, bend: Bend, call: &Call, args: &[Judgement], signs: &[Sign]) -> bool
    requires { signs.now ≡ signs_of args.now }
    ensures { result ≡ is_bent_by (rules_of rules) bend (rules_head call.now) (map judgement_of args.now) }
{
    match call {
        Call::Variable(_) => true,
        Call::Parameter(_) => true,
        Call::Constant(_) => true,
        _ => composes(rules, bend, call, args, signs),
    }
}

/// Whether a call is constant, or bends so and each argument may stand in its place.
fn composes(rules: Rules, bend: Bend, call: &Call, args: &[Judgement], signs: &[Sign]) -> bool
    ensures { result ≡ composes (rules_of rules) bend call.now args.now signs.now }
{
    are_constant(rules, args)
        || (bends(rules, bend, call, args) && all_suit(bend, call, args, signs))
}

/// Whether the value counts as a number.
fn is_constant(rules: Rules, g: Judgement) -> bool
    ensures { result ≡ is_constant (rules_of rules) (judgement_of g) }
{
    match rules {
        Rules::Plain => g.fixed,
        Rules::Parametrized => g.fixed && g.unparametrized,
    }
}

/// Whether all values count as numbers.
fn are_constant(rules: Rules, args: &[Judgement]) -> bool
    ensures { result ≡ list_all (λ g. is_constant (rules_of rules) (judgement_of g)) args.now }
{
    args.iter().all(|g| is_constant(rules, *g))
}

/// Whether the value is convex and concave.
fn is_affine(g: Judgement) -> bool
    ensures { result ≡ is_affine (judgement_of g) }
{
    g.convex && g.concave
}

/// Argument `i`; where there is none, nothing is known of its sign, and it is a number.
fn argument(args: &[Judgement], i: usize) -> Judgement
    ensures { result ≡ slice_index_or args.now i no_judgement }
{
    match args.get(i) {
        Some(g) => *g,
        None => Judgement {
            sign: Sign {
                nonneg: false,
                nonpos: false,
            },
            fixed: true,
            unparametrized: true,
            convex: true,
            concave: true,
        },
    }
}

/// Whether a side of a product counts as a number beside the other one.
fn scales(rules: Rules, side: Judgement, other: Judgement) -> bool
    ensures { result ≡ scales (rules_of rules) (judgement_of side) (judgement_of other) }
{
    match rules {
        Rules::Plain => is_constant(rules, side),
        Rules::Parametrized => {
            is_constant(rules, side) || (side.fixed && (is_affine(side) && other.unparametrized))
        }
    }
}

/// Whether two ways are the same.
fn same_bend(left: Bend, right: Bend) -> bool
    ensures { result ≡ same_bend left right }
{
    match left {
        Bend::Convex => matches!(right, Bend::Convex),
        Bend::Concave => matches!(right, Bend::Concave),
    }
}

/// Whether a product or a quotient is convex and concave in these arguments.
fn pairs(rules: Rules, pairing: Pairing, args: &[Judgement]) -> bool
    ensures { (bend : Bend) → result ≡ bends_pairing (rules_of rules) bend pairing (map judgement_of args.now) }
{
    let left = argument(args, 0);
    let right = argument(args, 1);
    match pairing {
        Pairing::Times | Pairing::MatTimes => {
            scales(rules, left, right) || scales(rules, right, left)
        }
        Pairing::Over => is_constant(rules, right),
    }
}

/// Whether a call is convex, or concave, as told, in arguments of which nothing is known but that they suit it.
fn bends(rules: Rules, bend: Bend, call: &Call, args: &[Judgement]) -> bool
    ensures { result ≡ bends_head (rules_of rules) bend (rules_head call.now) (map judgement_of args.now) }
{
    match call {
        Call::Atom(atom) => same_bend(atom.bend(), bend),
        Call::Pairing(pairing) => pairs(rules, *pairing, args),
        _ => true,
    }
}

/// Whether the value is convex, or concave, as told.
fn is_bent(bend: Bend, g: Judgement) -> bool
    ensures { result ≡ is_bent bend (judgement_of g) }
{
    match bend {
        Bend::Convex => g.convex,
        Bend::Concave => g.concave,
    }
}

/// The other way.
fn opposite(bend: Bend) -> Bend
    ensures { result ≡ opposite bend }
{
    match bend {
        Bend::Convex => Bend::Concave,
        Bend::Concave => Bend::Convex,
    }
}

/// Whether an argument may stand where a call that bends so moves so with it.
fn suits(bend: Bend, trend: Trend, g: Judgement) -> bool
    ensures { result ≡ suits bend trend (judgement_of g) }
{
    is_affine(g)
        || ((is_bent(bend, g) && trend.rising) || (is_bent(opposite(bend), g) && trend.falling))
}

/// Whether each argument may stand in its place.
fn all_suit(bend: Bend, call: &Call, args: &[Judgement], signs: &[Sign]) -> bool
    ensures { result ≡ all_suit bend (trend_of call.now signs.now) (map judgement_of args.now) }
{
    let mut suited = true;
    for (i, g) in args.iter().enumerate() {
        let trend = call.trend(i, signs);
        let fits = suits(bend, trend, *g);
        suited = suited && fits;
    }
    suited
}
