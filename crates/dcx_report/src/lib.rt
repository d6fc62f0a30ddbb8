//! How a run ends, and the bytes of its report.
//!
//! | what must hold | where |
//! |---|---|
//! | the report of a run is its text, byte for byte | `report_text`, `text_of` of `specs/ReportText.antt` |
//! | the usage line, and that memory is wanting, are told without memory | `usage_report`, `memory_report` |
//! | a value and a bound are told of the user's objective: negated back where it is maximized | `user_number` of `specs/AnswerText.antt` |
//! | a trial tells of each setting how it ends, on one line, an optimal value with it | `trial_lines` of `specs/TrialText.antt` |
//! | a refused certificate is told with its section, the check that fails there, and what that carries | `cert_refused_text` of `specs/CertifiedText.antt` |
//! | a line behind the outcomes counts the settings that are answered and those that are stopped | `count_line` of `specs/OutcomeText.antt` |
//! | of each setting it is told whether it is answered, and whether it is stopped for want of memory | `SettingEnd`, `specs/Ends.antt` |
//! | constraints that no point keeps together are told by their numbers, each with a point that keeps the others | `filter_lines` of `specs/FilterText.antt` |
//! | of a parameter it is told from where to where it may move, and the line that the user's objective goes along | `range_lines` of `specs/RangeText.antt` |
//! | a whole answer is told with the number of nodes of its run | `whole_text` of `specs/WholeText.antt` |
//! | a last line counts the outcomes that were found warm, where that was wanted | `warm_line` of `specs/OutcomeText.antt` |
//! | two runs over one problem with the same report have the same answers | `laws::same_text_same_answers` |
#![tactic(auto)]

mod answer_lines;
mod certified_lines;
mod check_lines;
mod counts;
mod ends;
mod filter_lines;
pub mod laws;
mod pieces;
mod range_lines;
mod refusal_line;
mod report;
mod run;
mod stop_line;
mod trial_lines;
mod whole_lines;

pub use dcx_answer::{
    Answer, BranchStop, CertFault, FilterEnd, FilterOutcome, FilterOutcomes, FilterStop, Filtered,
    Outcome, OutcomeEnd, Outcomes, RangeEnd, RangeOutcome, RangeOutcomes, RangeStop, Ranged, Stop,
    WholeAnswer,
};
pub use dcx_host::{FetchFault, Library, Sink, SinkFault};
pub use dcx_refusal::Refusal;
pub use dcx_tree::Sense;
pub use ends::SettingEnd;
pub use report::{memory_report, report_text, usage_report};
pub use run::{Run, Word};
