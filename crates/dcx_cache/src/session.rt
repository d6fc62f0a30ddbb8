//! A problem that is solved at setting after setting.
ghost use Rattle.std.specs.Prelude.{◌≡◌, ◌↔◌, ◌+◌, ◌≤◌, length, true, false, IsTrue, Ok, None, Some, IfOk, IfErr, OnOk, OnErr, MatchOption};
ghost use Rattle.dcx_fit.specs.Fit.{FitsParameters};
ghost use Rattle.dcx_rules.specs.Verdicts.{IsVerdictOf};
ghost use Rattle.dcx_tree.specs.Meaning.{IsAccepted, IsFitting, setting_of};
ghost use Rattle.dcx_right.specs.Answers.{IsRightFor};
ghost use Rattle.dcx_cache.specs.declared.session.Last.{Last as Found};
ghost use Rattle.dcx_cache.specs.Programs.{IsMapOf, HasMap, SessionGives, IsProgramAt, ProgramStops};
ghost use Rattle.dcx_cache.specs.Answers.{Answers};
ghost use Rattle.dcx_cache.specs.Columns.{Keeps};
ghost use Rattle.dcx_cache.specs.Sessions.{Shows};
ghost use Rattle.dcx_cache.specs.Warm.{WarmAnswers, ShowsWarm};

use crate::answering::solved;
use crate::columns::keep;
use crate::program::{formed, map_of};
use crate::rewarming::{Warmed, resolved};
use dcx_answer::{Answer, Stop};
use dcx_chained::Chained;
use dcx_frac::Frac;
use dcx_graph::Reduced;
use dcx_linear::ParamForm;
use dcx_lp_answer::LpAnswer;
use dcx_lp_solve::Solved;
use dcx_point::Setting;
use dcx_rules::Verdict;
use dcx_steps::Steps;
use dcx_tree::Problem;
use dcx_warm::Columns;
use std::alloc::Global;
use std::marker::Model;
use std::sync::ledger::Ledger;

/// How the last answer was found.
#[derive(Drop)]
pub struct Last {
    /// The program that was solved.
    pub reduced: Reduced<Frac>,
    /// How: its scaled program, the tableau at the last basis, and the answer that is read there.
    pub solved: Solved,
}

/// A problem that the rules accept, with what is kept of it from setting to setting.
#[derive(Drop)]
pub struct Session {
    problem: Problem,
    verdict: Verdict,
    map: Option<Reduced<ParamForm>>,
    last: Option<Last>,
    columns: Option<Columns>,
}

impl Model for Session {
    ghost use Rattle.std.specs.Prelude.{is_some};
    ghost use Rattle.dcx_cache.specs.Sessions.{State, IsKept};
    ghost use Rattle.dcx_cache.specs.Codes.{state_code};

    ghost Value = { State };

    ghost coded = { state_code };

    ghost view = { λ s. record { problem = s.problem; cached = is_some s.map; last = s.last; columns = s.columns } };

    ghost invariant = { λ s. IsKept s.problem s.verdict s.map s.columns };
}

impl Session {
    /// A session of a problem that the rules accept, with its verdict. The program with affine coefficients is built and kept where
    /// the verdict says that the rules accept the problem with parameters affine, and building it meets no more than 600 rows and
    /// 2,400 columns, no divisor that is 0 and no operation that passes 128 bits. One step is counted for each node then, and at
    /// most as many else.
    ///
    /// The one `Err` is want of memory, and gives the problem and the verdict back.
    pub fn begin<L: Ledger>(
        alloc: Global,
        problem: Problem,
        verdict: Verdict,
        steps: &mut Steps<L>,
    ) -> Result<Session, (Problem, Verdict)>
        requires accepted { IsAccepted problem }
        requires verdict { IsVerdictOf problem verdict }
        ensures problem { IfOk result (λ s. s.problem ≡ problem) }
        ensures cached { IfOk result (λ s. IsTrue s.cached ↔ HasMap problem) }
        ensures none { IfOk result (λ s. s.last ≡ None) }
        ensures columns { IfOk result (λ s. s.columns ≡ None) }
        ensures back { IfErr result (λ e. e ≡ (problem, verdict)) }
        ensures counted { IfOk result (λ s. IsTrue s.cached → steps.new ≡ steps.old + length problem.tree) }
        ensures few { steps.new ≤ steps.old + length problem.tree }
    {
        match map_of(alloc, &problem, &verdict, steps) {
            Ok(map) => Ok(Session {
                problem,
                verdict,
                map,
                last: None,
                columns: None,
            }),
            Err(_) => Err((problem, verdict)),
        }
    }

    /// Whether the program with affine coefficients is kept: exactly where the problem has one. Takes no memory.
    pub fn cached(&self) -> bool
        ensures value { result ≡ self.now.cached }
        ensures exact { IsTrue result ↔ HasMap self.now.problem }
    {
        self.map.is_some()
    }

    /// The problem. Takes no memory.
    pub fn problem(&self) -> &Problem
        ensures problem { result.now ≡ self.now.problem }
        ensures accepted { IsAccepted self.now.problem }
    {
        &self.problem
    }

    /// The program that the last answer is of, and the answer of its rows; `None` where the last setting was stopped, or none was
    /// asked. Takes no memory.
    pub fn last(&self) -> Option<(&Reduced<Frac>, &LpAnswer)>
        ensures { MatchOption result (self.now.last ≡ None) (λ r. (l : Found) × (self.now.last ≡ Some l) × (r.0.now ≡ l.reduced) × (r.1.now ≡ l.solved.answer)) }
    {
        match &self.last {
            Some(last) => Some((&last.reduced, &last.solved.answer)),
            None => None,
        }
    }

    /// The tableau at the basis from which the last answer was read; `None` where the last setting was stopped, or none was asked.
    /// Takes no memory.
    pub fn tableau(&self) -> Option<&Chained>
        ensures { MatchOption result (self.now.last ≡ None) (λ t. (l : Found) × (self.now.last ≡ Some l) × (t.now ≡ l.solved.tableau)) }
    {
        match &self.last {
            Some(last) => Some(&last.solved.tableau),
            None => None,
        }
    }

    /// The program with affine coefficients, where it is kept: exactly where the problem has one. Takes no memory.
    pub fn map(&self) -> Option<&Reduced<ParamForm>>
        ensures map { MatchOption result (¬ (HasMap self.now.problem)) (λ m. IsMapOf self.now.problem m.now.program) }
        ensures cached { MatchOption result (self.now.cached ≡ false) (λ m. self.now.cached ≡ true) }
    {
        self.map.as_ref()
    }

    /// The answer to the problem at a setting, found with at most `limit` pivots. It is right for the problem there.
    ///
    /// An `Err` is the first of: a name of the setting that no parameter has (`UnknownParam`); the first parameter, in order of
    /// declaration, without a value (`MissingParam`), with one of another shape (`ParamShape`) or sign (`ParamSign`); over 600 rows
    /// or 2,400 columns (`TooLarge`); the first divisor that is 0 (`ZeroDivisor`), or operation that passes 128 bits (`Wide`), while
    /// the program is formed, node by node and row by row; `Wide` in the run, or its limit (`PivotLimit`); `Wide` at a multiplier.
    /// `Memory` where there is none. After any of them the session answers as if this setting had not been asked.
    pub fn solve<L: Ledger>(
        &mut self,
        alloc: Global,
        setting: &Setting,
        limit: u64,
        steps: &mut Steps<L>,
    ) -> Result<Answer, Stop>
        ensures answers { Answers self.old.problem setting.now limit result }
        ensures right { IfOk result (λ a. IsFitting self.old.problem setting.now × IsRightFor self.old.problem (setting_of self.old.problem setting.now) a) }
        ensures shows { IfOk result (λ a. Shows self.old.problem setting.now limit self.old.cached a self.new.last) }
        ensures none { OnErr result (self.new.last ≡ None) }
        ensures columns { Keeps self.old.columns result self.new.last self.new.columns }
        ensures same { (self.new.problem ≡ self.old.problem) × (self.new.cached ≡ self.old.cached) }
        ensures counted { HasMap self.old.problem → steps.new ≡ steps.old }
        ensures few { steps.new ≤ steps.old + length self.old.problem.tree }
    {
        drop(self.last.take()); // a stop leaves nothing to show
        let map = self.map.as_ref();
        let (answer, found) = solved(
            alloc,
            &self.problem,
            &self.verdict,
            map,
            setting,
            limit,
            steps,
        )?;
        match keep(alloc, &answer, found, &mut self.last, &mut self.columns) {
            Ok(()) => {}
            Err(_) => {
                drop(answer);
                return Err(Stop::Memory);
            }
        }
        Ok(answer)
    }

    /// The answer to the problem at a setting, from the basic columns of the last optimal answer of this session where that can be:
    /// `kept` tells it. It can exactly where the map is kept, these columns are there and none is an artificial of the program at
    /// this setting, the warm run from them with at most `limit` pivots ends optimal, and no multiplier passes 128 bits. Else the
    /// answer is that of `solve`. It is right for the problem at the setting, so it has the status and the value of `solve`'s.
    ///
    /// An `Err` is that of `solve` at this setting, or `Memory`. After it the session answers as if this setting had not been asked.
    pub fn solve_warm<L: Ledger>(
        &mut self,
        alloc: Global,
        setting: &Setting,
        limit: u64,
        steps: &mut Steps<L>,
    ) -> Result<Warmed, Stop>
        ensures answers { WarmAnswers self.old.problem setting.now limit self.old.columns result self.new.columns }
        ensures right { IfOk result (λ w. IsFitting self.old.problem setting.now × IsRightFor self.old.problem (setting_of self.old.problem setting.now) w.answer) }
        ensures shows { IfOk result (λ w. ShowsWarm self.old.problem setting.now limit self.old.columns self.old.cached w self.new.columns self.new.last) }
        ensures none { OnErr result (self.new.last ≡ None) }
        ensures same { (self.new.problem ≡ self.old.problem) × (self.new.cached ≡ self.old.cached) }
        ensures counted { HasMap self.old.problem → steps.new ≡ steps.old }
        ensures few { steps.new ≤ steps.old + length self.old.problem.tree }
    {
        drop(self.last.take());
        let map = self.map.as_ref();
        let columns = self.columns.as_ref();
        let (warm, found) = match resolved(
            alloc,
            &self.problem,
            &self.verdict,
            map,
            columns,
            setting,
            limit,
            steps,
        ) {
            Ok(pair) => pair,
            Err(stop) => return Err(stop),
        };
        match keep(
            alloc,
            &warm.answer,
            found,
            &mut self.last,
            &mut self.columns,
        ) {
            Ok(()) => {}
            Err(_) => {
                drop(warm);
                return Err(Stop::Memory);
            }
        }
        Ok(warm)
    }

    /// The program that is solved at a setting. It is a reduced program of the problem there.
    ///
    /// An `Err` is the first of: a misfit of the setting (`UnknownParam`, `MissingParam`, `ParamShape`, `ParamSign`); over 600 rows
    /// or 2,400 columns (`TooLarge`); the first divisor that is 0 (`ZeroDivisor`), or operation that passes 128 bits (`Wide`), while
    /// the program is formed. `Memory` where there is none. There is no last answer then, and the columns of the last optimal
    /// answer stay.
    pub fn program<L: Ledger>(
        &mut self,
        alloc: Global,
        setting: &Setting,
        steps: &mut Steps<L>,
    ) -> Result<Reduced<Frac>, Stop>
        ensures fits { OnOk result (FitsParameters self.old.problem.parameters setting.now) }
        ensures gives { IfOk result (λ r. SessionGives self.old.problem setting.now (Ok r.program)) }
        ensures from_map { IfOk result (λ r. r.from_map ≡ self.old.cached) }
        ensures reduced { IfOk result (λ r. IsProgramAt self.old.problem setting.now r.program) }
        ensures stops { IfErr result (ProgramStops self.old.problem setting.now) }
        ensures none { self.new.last ≡ None }
        ensures columns { self.new.columns ≡ self.old.columns }
        ensures same { (self.new.problem ≡ self.old.problem) × (self.new.cached ≡ self.old.cached) }
        ensures counted { HasMap self.old.problem → steps.new ≡ steps.old }
        ensures few { steps.new ≤ steps.old + length self.old.problem.tree }
    {
        drop(self.last.take());
        let map = self.map.as_ref();
        formed(alloc, &self.problem, &self.verdict, map, setting, steps)
    }
}
