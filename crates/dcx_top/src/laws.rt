//! Laws above the definitions of `specs/`. There is no code: each clause is a statement about all words and files,
//! whose library had `before` faults in front of the run and has `now` behind it.
ghost use Rattle.std.specs.Prelude.{ℕ, List};
ghost use Rattle.std.specs.declared.option.Option.{Option};
ghost use Rattle.dcx_host.specs.Faults.{Rose};
ghost use Rattle.dcx_host.specs.Files.{Files};
ghost use Rattle.dcx_report.specs.declared.run.Run.{Run};
ghost use Rattle.dcx_top.specs.Runs.{Causes};
ghost use Rattle.dcx_top.specs.Headline.{IsRightRun};
ghost use Rattle.dcx_top.specs.OneRun.{IsOnlyRun};
ghost use Rattle.dcx_top.specs.Migrated.{MigrateRefusesAsCertify};
ghost use Rattle.dcx_top.specs.SameReport.{SameContentsSameReport};
ghost use Rattle.dcx_top.specs.Verdicts.{IsRightVerdict};

/// Whatever run has its cause is right: so is its answer at each setting.
pub fn caused_are_right()
    ensures { (words : List (List ℕ)) (told : Option Files) (before now old new : ℕ) (run : Run) → Causes words told (Rose before now) old new run → IsRightRun words told run }
{}

/// Words and told files have one run, where neither a file nor memory is wanting.
pub fn one_run()
    ensures { (words : List (List ℕ)) (told : Option Files) (before now old new : ℕ) (run : Run) → Causes words told (Rose before now) old new run → IsOnlyRun words told run }
{}

/// A run with its cause refuses its files exactly where they are at fault, and goes on exactly where they are not.
pub fn right_verdict()
    ensures { (words : List (List ℕ)) (told : Option Files) (before now old new : ℕ) (run : Run) → Causes words told (Rose before now) old new run → IsRightVerdict words told run }
{}

/// Of the same files `migrate` refuses exactly where `certify` does, with the same contents.
pub fn migrate_refuses_as_certify()
    ensures { MigrateRefusesAsCertify }
{}

/// Two runs of one command over the same contents have the same report, byte by byte, and the same status; or one of them lacked a file or
/// memory, for itself or at a setting.
pub fn same_contents_same_report()
    ensures { SameContentsSameReport }
{}
