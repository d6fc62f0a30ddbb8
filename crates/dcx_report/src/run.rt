//! How a run ends.

use crate::{FilterOutcomes, Outcomes, RangeOutcomes, Refusal, Sense};
use dcx_answer::CertFault;
use dcx_refusal::Checked;
use dcx_shape::{Bytes, Name};

/// The word that a run's outcomes stand under.
#[derive(Clone, Copy)]
pub enum Word {
    /// Each outcome is of a `solve` of the script.
    Solve,
    /// Each outcome is of a setting of the settings file.
    Setting,
}

/// How a run ends.
#[derive(Drop)]
pub enum Run {
    /// The words of the command line are of no command.
    Usage,
    /// A file is refused.
    Refused(Refusal),
    /// The rules accept the problem, of which this is found.
    Checked(Checked),
    /// The problem was solved, by branch and bound where it has marked variables, or stopped, at each setting.
    Solved {
        /// What the outcomes stand under.
        word: Word,
        /// Which way the script's objective goes.
        sense: Sense,
        /// The outcomes, in order.
        outcomes: Outcomes,
        /// How many of them were found from the columns of an earlier answer, where that was wanted.
        warm: Option<u32>,
    },
    /// The text of a certificate: of the answers at each setting, or of sections that were read and hold.
    Certificates {
        /// The text.
        text: Bytes,
        /// Whether a setting stopped, so that its section shows nothing.
        stopped: bool,
    },
    /// Each section of a certificate holds at its setting.
    Certified {
        /// How many sections show an answer.
        sections: u32,
    },
    /// A certificate is refused.
    CertRefused {
        /// The section, counted from 1; 0 where the bytes are no text of a certificate for the problem.
        section: u32,
        /// Why it is refused.
        fault: CertFault,
    },
    /// The trial problem of this size was solved, or stopped, at each setting.
    Trial {
        /// How many points the trial problem fits a line to.
        size: u32,
        /// The outcomes, in order.
        outcomes: Outcomes,
    },
    /// The constraints of the problem were filtered, or stopped, at each setting.
    Filtered {
        /// The outcomes, in order.
        outcomes: FilterOutcomes,
    },
    /// How far a parameter of the problem may move was told, or stopped, at each setting.
    Ranged {
        /// The parameter's name.
        parameter: Name,
        /// Which way the script's objective goes.
        sense: Sense,
        /// The outcomes, in order.
        outcomes: RangeOutcomes,
    },
    /// A file could not be had.
    ReadFault,
    /// Memory ran out.
    Memory,
}
