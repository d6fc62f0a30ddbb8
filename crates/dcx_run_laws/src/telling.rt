//! Runs with the same report.
ghost use Rattle.dcx_run_laws.specs.Answers.{ReportsTellAnswers};

/// Two runs of `solve` or `resolve` over one problem have the same answers where their reports are the same, whatever their words, settings and
/// files are; and so have two runs of the same words over the same files. The tree of an answer in whole numbers isn't told, and may differ.
pub fn reports_tell_answers()
    ensures { ReportsTellAnswers }
{}
