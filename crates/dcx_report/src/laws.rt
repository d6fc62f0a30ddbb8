//! Laws of the report. Each function is a law: its clause is a statement about all runs, and the body is empty.
ghost use Rattle.dcx_report.specs.SameText.{SameTextSameAnswers};

/// Two runs over one problem with the same report have the same answers; the tree of an answer in whole numbers isn't told, and may differ.
pub fn same_text_same_answers()
    ensures { SameTextSameAnswers }
{}
