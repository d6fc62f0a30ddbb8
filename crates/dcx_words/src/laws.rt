//! Laws above the definitions of `specs/`. There is no code: each clause is a statement about all words.
ghost use Rattle.dcx_words.specs.Laws.{OptionStandsAnywhere, OptionStandsOnce, WarmStandsAnywhere, WarmStandsApart, WarmStandsOnce};

/// The option may stand at any place among the operands, which gives the same command with its limit, and it stands
/// there once at most.
pub fn option_rules()
    ensures anywhere { OptionStandsAnywhere }
    ensures once { OptionStandsOnce }
{}

/// `--warm` may stand at any place among the operands of a `resolve`, but not between the option and its number, and
/// makes the same command warm. It stands there once where the command is warm, and nowhere else.
pub fn warm_rules()
    ensures anywhere { WarmStandsAnywhere }
    ensures apart { WarmStandsApart }
    ensures once { WarmStandsOnce }
{}
