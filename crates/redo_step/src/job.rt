//! A target's script as a job that stops and goes on.

ghost use Rattle.std.specs.Prelude.{◌≡◌, ◌+◌, ◌<◌, ◌^◌, IfOk, option_map, Some};
ghost use Rattle.std.specs.Arc.{arc_value};
ghost use Rattle.redo_record.specs.Answers.{Ask as AskOf};
ghost use Rattle.redo_step.specs.Statements.{result_of};
ghost use Rattle.redo_step.specs.Runs.{ends};
ghost use Rattle.redo_step.specs.Results.{outcome_of};
ghost use Rattle.redo_record.specs.Entries.{search_deps};
ghost use Rattle.redo_script.specs.View.{script_of};
ghost use Rattle.redo_script.specs.Syntax.{finish};
ghost use Rattle.redo_step.specs.Place.{all_of, left_at};
ghost use Rattle.redo_step.specs.inside.Stands.{stands_at};
ghost use Rattle.redo_step.specs.inside.Kept.{IsKept};
ghost use Rattle.redo_step.specs.inside.Machine.{state_of, end_of, Comes};
ghost use Rattle.redo_step.specs.Job.{begun, Advances};
ghost use Rattle.redo_step.specs.inside.Endings.{IsRefused, IsEnded, after_end, by_both};
ghost use Rattle.redo_step.specs.JobView.{IsFit, record_so_far};
ghost use Rattle.redo_step.specs.inside.Scene.{scene_setting, job_inputs_setting};

use crate::answers::Answers;
use crate::halt::Ending;
use crate::limits::Limits;
use crate::machine::{Effects, RunEnd, resume};
use crate::parsed::Parsed;
use crate::place::StopPlace;
use crate::scene::Scene;
use crate::shell::Shell;
use crate::wait::WaitingChange;
use redo_path::Path;
use redo_record::{Deps, Outcome, Record, Why};
use redo_script::{ScriptFault, Stmt};
use redo_tree::{Content, Tree};
use redo_which::Rule;
use std::alloc::{AllocError, Global};
use std::marker::Model;
use std::sync::Arc;

/// What a job is given for good: a target, its rule and script, and what the script's commands see.
#[derive(Drop)]
pub struct JobInputs {
    /// Where the job takes its memory.
    pub alloc: Global,
    /// The sources.
    pub tree: Arc<Tree>,
    pub target: Path,
    pub rule: Rule,
    /// What reading the rule's script came to.
    pub parsed: Arc<Parsed>,
    pub limits: Limits,
}

impl JobInputs {
    /// What the script's commands go by, with these answers.
    #[tactic(auto, unfolding(crate::specs::Setting::setting_by))]
    fn shell<'s, 'a, A: Answers>(&'s self, answers: &'a A) -> Shell<'s, 'a, A>
        ensures setting { scene_setting result.scene ≡ job_inputs_setting self.now }
        ensures answers { result.answers.now ≡ answers.now }
    {
        let scene = Scene {
            alloc: self.alloc,
            tree: &self.tree,
            target: &self.target,
            args: &self.rule.args,
            limit: self.limits.file_bytes() as usize,
            bound: Vec::new(self.alloc),
        };
        Shell { scene, answers }
    }

    /// Runs the rest of the script after a pause.
    fn resume<A: Answers>(
        &self,
        answers: &A,
        effects: &mut Effects,
        stmts: &[Stmt],
        pause: Pause<'_>,
    ) -> Result<RunEnd, AllocError>
        requires { IsKept (stands_at pause.place.now (job_inputs_setting self.now) (script_of stmts.now))
            (state_of effects.old) pause.kept }
        ensures { IfOk result (λ progress. Comes (job_inputs_setting self.now) (A.ask answers.now) (script_of stmts.now)
            (left_at pause.entry.place.now (job_inputs_setting self.now) (script_of stmts.now))
            (all_of (job_inputs_setting self.now) finish) (state_of effects.old) progress (state_of effects.new)) }
    {
        resume(
            &self.shell(answers),
            effects,
            stmts,
            pause.place,
            pause.kept,
        )
    }
}

/// Where a script goes on, and the redo-ifchange that waited there.
#[derive(Drop)]
struct Pause<'a> {
    place: &'a StopPlace,
    kept: Option<WaitingChange>,
}

/// A job's inputs, and how far its script has come.
#[derive(Drop)]
struct JobState {
    inputs: JobInputs,
    place: StopPlace,
    effects: Effects,
    turn: u64,
    /// The redo-ifchange that waits at the place. Contracts don't see it; the invariant of [`Job`] ties it to the
    /// statement at the place.
    kept: Option<WaitingChange>,
}

/// A target's script, the place where it stopped, and what it has done. Boxed, as a job is large and is moved at each
/// stop.
#[derive(Drop)]
pub struct Job {
    state: Box<JobState>,
}

impl Model for Job {
    ghost use Rattle.std.specs.Arc.{arc_value};
    ghost use Rattle.redo_which.specs.Views.{arguments_view};
    ghost use Rattle.redo_step.specs.inside.Machine.{state_of};
    ghost use Rattle.redo_step.specs.JobView.{JobView};
    ghost use Rattle.redo_script.specs.contracts.ast.Stmt as stmts;
    ghost use Rattle.redo_step.specs.contracts.place.StopPlace as places;
    ghost use Rattle.std.specs.Coded.{codes};

    ghost Value = { JobView };

    ghost coded = { Prim.hlevel (codes, stmts.the_row.coded, places.the_row.coded) };

    ghost view = { λ j. let s = j.state.value in record {
      tree = arc_value s.inputs.tree;
      target = s.inputs.target;
      do_file = s.inputs.rule.do_file;
      missing = s.inputs.rule.missing;
      arguments = arguments_view s.inputs.rule.args;
      limits = s.inputs.limits;
      parsed = arc_value s.inputs.parsed;
      place = s.place;
      state = state_of s.effects;
      turn = s.turn;
    } };

    ghost use Rattle.redo_step.specs.Parsed.{parsed_of};
    ghost use Rattle.redo_step.specs.inside.Scene.{job_inputs_setting};
    ghost use Rattle.redo_step.specs.inside.Kept.{IsKeptIn};

    ghost invariant = { λ j. let s = j.state.value in
        IsKeptIn (job_inputs_setting s.inputs) (parsed_of (arc_value s.inputs.parsed)) s.place (state_of s.effects)
        s.kept };
}

/// The outcome of a target whose script has ended, and its record.
#[derive(Drop)]
pub struct Done {
    pub outcome: Outcome,
    pub deps: Record,
}

/// What an advance came to.
#[derive(Drop)]
pub enum Step {
    /// The script ended.
    Ended(Done),
    /// The script lacks the answers for these paths, each named once.
    Asks { job: Job, paths: Vec<Path> },
}

impl Job {
    /// A job before the first statement of its script.
    pub fn begin(inputs: JobInputs) -> Result<Job, AllocError>
        ensures job { IfOk result (λ job. job ≡
            begun (arc_value inputs.tree) inputs.target inputs.rule (arc_value inputs.parsed) inputs.limits) }
        ensures fits { IfOk result (λ job. (ask : AskOf) → IsFit job ask) }
    {
        let alloc = inputs.alloc;
        let effects = Effects {
            output: Vec::new(alloc),
            third: None,
            deps: Deps::new(alloc),
        };
        let state = JobState {
            inputs,
            place: StopPlace::Before(0),
            effects,
            turn: 0,
            kept: None,
        };
        let state = Box::new(alloc, state)?;
        Ok(Job { state })
    }

    /// The target that the script makes.
    pub fn target(&self) -> &Path
        ensures { result.now ≡ self.now.target }
    {
        &self.state.inputs.target
    }

    /// How often the script has stopped.
    pub fn turn(&self) -> u64
        ensures { result ≡ self.now.turn }
    {
        self.state.turn
    }

    /// What the script itself has declared so far.
    pub fn declared(&self) -> &Deps
        ensures { result.now ≡ self.now.state.entries }
    {
        &self.state.effects.deps
    }

    /// The target's record so far: the entries of the search, then those that the script declared.
    pub fn record(&self) -> Result<Record, AllocError>
        ensures { IfOk result (λ deps. deps ≡ record_so_far self.now) }
    {
        let JobState {
            inputs,
            effects,
            ..
        } = &*self.state;
        Record::so_far(inputs.alloc, &inputs.rule, &effects.deps)
    }

    /// Runs until the script ends, or until redo-ifchange(1) lacks an answer. The answers have to fit the job: any fit
    /// one that was just begun, and those that keep the earlier answers to its operands fit one that stopped. Sources
    /// are looked up in the tree alone. Without memory the job is lost.
    pub fn advance<A: Answers>(self, answers: &A) -> Result<Step, AllocError>
        requires fits { IsFit self (A.ask answers.now) }
        requires turn { self.turn + 1 < 2 ^ 64 }
        ensures { IfOk result (Advances (A.ask answers.now) self) }
    {
        let Job { mut state } = self;
        let JobState {
            inputs,
            place,
            effects,
            kept,
            ..
        } = &mut *state;
        let script = match &*inputs.parsed {
            Parsed::Read(script) => script,
            Parsed::Refused(refusal) => {
                let fault = refusal.fault;
                return refused(state, fault);
            }
        };
        let pause = Pause {
            place,
            kept: kept.take(),
        };
        match inputs.resume(answers, effects, &script.stmts, pause)? {
            RunEnd::Finished => ended(state, Ending::Exited(0)),
            RunEnd::Ended(ending) => ended(state, ending),
            RunEnd::Stopped(paths, place, kept) => {
                let here = &mut *state;
                here.place = place;
                here.kept = kept;
                here.turn += 1;
                let job = Job { state };
                Ok(Step::Asks { job, paths })
            }
        }
    }
}

/// The step of a job whose script can't be read.
fn refused(state: Box<JobState>, fault: ScriptFault) -> Result<Step, AllocError>
    ensures { IfOk result (λ step.
        IsRefused (search_deps state.value.inputs.rule.missing state.value.inputs.rule.do_file) fault step) }
{
    let JobInputs { alloc, rule, .. } = Box::into_inner(state).inputs;
    Ok(Step::Ended(Done {
        outcome: Outcome::Failed(Why::Script(fault)),
        deps: Record::of_script(alloc, rule, Deps::new(alloc))?,
    }))
}

/// The step of a job whose script has ended.
fn ended(state: Box<JobState>, ending: Ending) -> Result<Step, AllocError>
    ensures { IfOk result (λ step.
        IsEnded (search_deps state.value.inputs.rule.missing state.value.inputs.rule.do_file)
        (ends (end_of ending) (state_of state.value.effects)) step) }
{
    let JobState {
        inputs,
        effects,
        ..
    } = Box::into_inner(state);
    let JobInputs { alloc, rule, .. } = inputs;
    let Effects {
        output,
        third,
        deps,
    } = effects;
    let deps = Record::of_script(alloc, rule, deps)?;
    let outcome = outcome_after(ending, output, third)?;
    Ok(Step::Ended(Done { outcome, deps }))
}

/// The outcome of a target, from how its script ended and what it wrote.
fn outcome_after(
    ending: Ending,
    output: Vec<u8>,
    third: Option<Vec<u8>>,
) -> Result<Outcome, AllocError>
    ensures { IfOk result (λ outcome. Some outcome ≡
        option_map outcome_of (result_of (after_end (end_of ending) output third))) }
{
    match ending {
        Ending::Exited(0) => made(output, third),
        Ending::Exited(status) => Ok(Outcome::Failed(Why::Exit(status))),
        Ending::Faulted(why) => Ok(Outcome::Failed(why)),
    }
}

/// The outcome of a target whose script ended with status 0.
fn made(output: Vec<u8>, third: Option<Vec<u8>>) -> Result<Outcome, AllocError>
    ensures { IfOk result (λ outcome. outcome ≡ outcome_of (by_both output third)) }
{
    match third {
        None if output.is_empty() => Ok(Outcome::Built(None)),
        None => Ok(Outcome::Built(Some(Content::new(output)?))),
        Some(bytes) if output.is_empty() => Ok(Outcome::Built(Some(Content::new(bytes)?))),
        Some(_) => Ok(Outcome::Failed(Why::BothOutputs)),
    }
}
