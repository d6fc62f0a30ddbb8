//! Laws above the definitions of `specs/`. There is no code: the clause is a statement about all answers.
ghost use Rattle.dcx_lp_answer.specs.Multipliers.{FormedIsRight};

/// Where the multiplier of a row is formed, it is the one by which an answer is right for its program.
pub fn formed_is_right()
    ensures { FormedIsRight }
{}
