//! Laws above the definitions of `specs/`. There is no code: each clause is a statement about all bytes, or all problems.
ghost use Rattle.dcx_front.specs.OneAnswer.{HasOneAnswer, HasOneJudgement, HasOneVerdict};

/// The bytes of a script give one answer: one accepted problem with its settings and its verdict, or one refusal. Want of
/// memory is free.
pub fn one_answer()
    ensures { HasOneAnswer }
{}

/// The rules accept a problem or refuse it, and not both, with one verdict or one refusal. Want of memory is free.
pub fn one_judgement()
    ensures { HasOneJudgement }
{}

/// No bytes are both at fault and accepted.
pub fn one_verdict()
    ensures { HasOneVerdict }
{}
