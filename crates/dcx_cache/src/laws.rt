//! What holds of all answers of sessions. There is no code: each clause is a statement about all problems and settings.
ghost use Rattle.dcx_cache.specs.Laws.{AnswersAreRight, HasOneEnd, LimitsAreSmall, RightAnswersAgree, WarmAnswersAreRight, WarmAnswersAgree, AnsweredStaysAnswered, HasOneWarmEnd, HaveOneWarmEnds};
ghost use Rattle.dcx_cache.specs.DivisorLaws.{FracsDivideByNoZero, ParamFormsDivideByNoZero, FormedAreFitting};

/// Where a setting of an accepted problem is answered, it fits, and the answer is right for the problem there.
pub fn answers_are_right()
    ensures { AnswersAreRight }
{}

/// A setting has one answer, with all its numbers, or one stop; want of memory is free.
pub fn one_answer()
    ensures { HasOneEnd }
{}

/// A limit that stops the run on a program is below a number that the program's rows and columns bound.
pub fn limits_are_small()
    ensures { LimitsAreSmall }
{}

/// Two right answers at a setting have one status, and one value: so a re-solve from a map that is kept has the status and value of
/// a fresh solve whenever both answer.
pub fn answers_agree()
    ensures { RightAnswersAgree }
{}

/// Where a setting is answered from the columns of an earlier answer, it fits, and the answer is right for the problem there.
pub fn warm_answers_are_right()
    ensures { WarmAnswersAreRight }
{}

/// A warm answer has the status and the value of a fresh one, whatever limits both have.
pub fn warm_answers_agree()
    ensures { WarmAnswersAgree }
{}

/// A setting that a fresh solve answers is answered from columns that are kept too, unless memory runs out.
pub fn answered_stays_answered()
    ensures { AnsweredStaysAnswered }
{}

/// From the same columns a setting has one answer, warm or not, or one stop, and one list of columns after it; want of memory is free.
pub fn one_warm_answer()
    ensures { HasOneWarmEnd }
{}

/// Settings one after another have one list of answers and stops, from the same columns, until memory runs out.
pub fn one_warm_list()
    ensures { HaveOneWarmEnds }
{}

/// Where the nodes of an accepted problem are formed of fractions at a setting, no entry of a divisor is 0 there, at any point.
pub fn fracs_divide_by_no_zero()
    ensures { FracsDivideByNoZero }
{}

/// Where the nodes of a problem that is accepted where parameters are affine are formed of affine numbers, no entry of a divisor is
/// 0, at any setting and point.
pub fn param_forms_divide_by_no_zero()
    ensures { ParamFormsDivideByNoZero }
{}

/// A setting that fits the parameters, at which all nodes are formed, is a fitting one of the problem; so is each that fits them
/// where nodes are formed of affine numbers.
pub fn formed_are_fitting()
    ensures { FormedAreFitting }
{}
