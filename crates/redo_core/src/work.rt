//! Jobs on their way to a worker and back.
ghost use Rattle.std.specs.Prelude.{◌≡◌, ◌↔◌, [], None, MatchOption, is_some, option_copied, true, IfOk, IsTrue};
ghost use Rattle.std.specs.Arc.{arc_value};
ghost use Rattle.redo_build.specs.Lacking.{lacking_under};
ghost use Rattle.redo_record.specs.Answers.{file_in};
ghost use Rattle.redo_rules.specs.Build.{rules_for};
ghost use Rattle.redo_core.specs.Views.{told_by};
ghost use Rattle.redo_core.specs.inside.Works.{IsUnreadWork, IsWorkWith, HoldsOutcomes, all_asked, found_as, known_in};
ghost use Rattle.redo_core.specs.inside.Works.{told_in};
ghost use Rattle.redo_core.specs.inside.Decided.{IsDecided};
ghost use Rattle.redo_core.specs.inside.Ends.{IsEndAt, end_progress};
ghost use Rattle.redo_core.specs.inside.Scripts.{IsScriptOf, script_known, script_target, script_turn};

use crate::fact::Fact;
use crate::facts::{Facts, has_file_of, is_any_large};
use crate::given::Given;
use crate::scripts::{job_of, may_loop_long};
use redo_path::Path;
use redo_record::{Deps, Outcome};
use redo_step::{Done, Job, Step};
use redo_which::Rule;
use std::alloc::{AllocError, Global};
use std::marker::Model;
use std::sync::Arc;

/// A job with the outcomes of all that it asked for. It is moved and never cloned, so each part of a script runs once.
/// It is advanced without a board, so another thread can do it. The script is read when it is first advanced.
#[derive(Drop)]
pub struct Work {
    given: Arc<Given>,
    /// The number of the target in the table of the board that gave the work.
    number: u32,
    script: ScriptStage,
}

/// A target's script: not read yet, or begun. Both are boxed, so that a target takes little room on the board, and a
/// job is handed on without being moved.
#[derive(Drop)]
pub(crate) enum ScriptStage {
    Unread(Box<Unread>),
    Begun(Box<Begun>),
}

/// A target whose script hasn't been read yet, with its rule and the facts of what its check asked for.
#[derive(Drop)]
pub(crate) struct Unread {
    target: Path,
    rule: Rule,
    facts: Facts,
}

/// A script that was begun, with the facts of what it asked for.
#[derive(Drop)]
pub(crate) struct Begun {
    pub(crate) job: Job,
    pub(crate) facts: Facts,
    /// Whether loops may make it take long.
    loops_long: bool,
}

impl Model for Work {
    ghost use Rattle.std.specs.Arc.{arc_value};
    ghost use Rattle.redo_core.specs.Views.{WorkView};

    ghost Value = { WorkView };

    ghost use Rattle.redo_core.specs.inside.Scripts.{IsScriptOf, script_target, script_turn, script_deps, script_known};

    ghost view = { λ w. record {
      given = arc_value w.given;
      target = script_target w.script;
      turn = script_turn w.script;
      deps = script_deps w.script;
      known = script_known w.script;
    } };

    ghost invariant = { λ w. IsScriptOf (arc_value w.given) w.script };
}

/// How far a job came, for the board to take in. It is made by `Work::advance` alone.
#[derive(Drop)]
pub struct Piece {
    given: Arc<Given>,
    number: u32,
    target: Path,
    turn: u64,
    pub(crate) end: End,
}

/// How far a script came. It ended, and its target's check had asked for these entries before; or it stopped, as these
/// paths lack answers.
#[derive(Drop)]
pub(crate) enum End {
    Ended(Fact, Deps),
    Stopped { begun: Box<Begun>, paths: Vec<Path> },
}

impl Model for Piece {
    ghost use Rattle.std.specs.Arc.{arc_value};
    ghost use Rattle.redo_core.specs.Views.{PieceView};

    ghost Value = { PieceView };

    ghost use Rattle.redo_core.specs.inside.Ends.{end_progress, IsEndAt};

    ghost view = { λ p. record {
      given = arc_value p.given;
      target = p.target;
      turn = p.turn;
      progress = end_progress p.end;
    } };

    ghost invariant = { λ p. IsEndAt (arc_value p.given) p.target p.turn p.end };
}

impl Work {
    /// A target whose script hasn't been read yet, with the rule that the search finds for it and the facts of what its
    /// check asked for.
    pub(crate) fn unread(
        alloc: Global,
        given: Arc<Given>,
        target: Path,
        rule: Rule,
        facts: Facts,
    ) -> Result<Work, AllocError>
        requires { IsUnreadWork (arc_value given) target (found_as rule) facts }
        ensures { IfOk result (λ w. w ≡
            record {
              given = arc_value given;
              target = target;
              turn = 0;
              deps = facts.asked;
              known = known_in facts;
            }) }
    {
        let unread = Box::new(
            alloc,
            Unread {
                target,
                rule,
                facts,
            },
        )?;
        Ok(Work {
            given,
            number: 0,
            script: ScriptStage::Unread(unread),
        })
    }

    /// A job with the facts of all that it asked for.
    pub(crate) fn of(given: Arc<Given>, begun: Box<Begun>) -> Work
        requires { IsWorkWith (arc_value given) begun.value.job begun.value.facts }
        ensures { result ≡
            record {
              given = arc_value given;
              target = begun.value.job.target;
              turn = begun.value.job.turn;
              deps = all_asked begun.value.job begun.value.facts;
              known = known_in begun.value.facts;
            } }
    {
        Work {
            given,
            number: 0,
            script: ScriptStage::Begun(begun),
        }
    }

    /// The same work, with the number of its target.
    pub(crate) fn numbered(self, number: u32) -> Work
        ensures same { result ≡ self }
        ensures holds { HoldsOutcomes self }
    {
        let Work {
            given,
            number: _,
            script,
        } = self;
        Work {
            given,
            number,
            script,
        }
    }

    /// The target whose script this is.
    pub fn target(&self) -> &Path
        ensures { result.now ≡ self.now.target }
    {
        match &self.script {
            ScriptStage::Unread(unread) => &unread.target,
            ScriptStage::Begun(begun) => begun.job.target(),
        }
    }

    /// How often the script has stopped: at turn 0 it is about to begin.
    pub fn turn(&self) -> u64
        ensures { result ≡ self.now.turn }
    {
        match &self.script {
            ScriptStage::Unread(_) => 0,
            ScriptStage::Begun(begun) => begun.job.turn(),
        }
    }

    /// Whether it is about to read at least `least` bytes at once: its script at turn 0, and later one of the first few
    /// files that it asked for. So whoever gives out works can tell which are worth a thread of their own. No report
    /// depends on it.
    pub fn reads(&self, least: usize) -> bool {
        let sources = self.given.sources();
        match &self.script {
            ScriptStage::Unread(unread) => has_file_of(sources, &unread.rule.do_file, least),
            ScriptStage::Begun(begun) => begun.facts.has_file_of(sources, least),
        }
    }

    /// Whether loops may make the script take long, by the length of its text and the loops in it. No report depends on
    /// it.
    pub fn loops_long(&self) -> bool {
        match &self.script {
            ScriptStage::Unread(unread) => {
                let text = self.given.sources().file(&unread.rule.do_file);
                text.is_some_and(|text| may_loop_long(text))
            }
            ScriptStage::Begun(begun) => begun.loops_long,
        }
    }

    /// Advances the script as far as the outcomes of the work allow: to its end, or to the first redo-ifchange(1) that
    /// lacks an answer. Without memory the work is lost.
    pub fn advance(self) -> Result<Piece, AllocError>
        ensures place { IfOk result (λ p. (p.given ≡ self.given) × (p.target ≡ self.target) ×
            (p.turn ≡ self.turn)) }
        ensures progress { IfOk result (λ p. p.progress ≡
            (rules_for self.given).progress self.target (told_by self.known)) }
        ensures ended { IfOk result (λ p. (p.progress.outcome ≡ None → ⊥) ↔
            (lacking_under (rules_for self.given) self.target (told_by self.known) ≡ [])) }
    {
        let Work {
            given,
            number,
            script,
        } = self;
        let begun = script.into_begun(&given)?;
        let target = begun.job.target().clone()?;
        let turn = begun.job.turn();
        let end = begun.advance(&given, &target)?;
        Ok(Piece {
            given,
            number,
            target,
            turn,
            end,
        })
    }
}

impl ScriptStage {
    /// The script as far as it has come. One that is unread is read.
    fn into_begun(self, given: &Arc<Given>) -> Result<Begun, AllocError>
        requires { IsScriptOf (arc_value given.now) self }
        ensures work { IfOk result (λ begun. IsWorkWith (arc_value given.now) begun.job begun.facts) }
        ensures target { IfOk result (λ begun. begun.job.target ≡ script_target self) }
        ensures turn { IfOk result (λ begun. begun.job.turn ≡ script_turn self) }
        ensures known { IfOk result (λ begun. known_in begun.facts ≡ script_known self) }
    {
        match self {
            ScriptStage::Unread(unread) => {
                let alloc = *Box::allocator(&unread);
                let Unread {
                    target,
                    rule,
                    facts,
                } = Box::into_inner(unread);
                let (job, loops_long) = job_of(alloc, given, target, rule)?;
                Ok(Begun {
                    job,
                    facts,
                    loops_long,
                })
            }
            ScriptStage::Begun(begun) => Ok(Box::into_inner(begun)),
        }
    }
}

impl Begun {
    /// Advances the script of a target with the facts of all that it asked for.
    fn advance(self, given: &Given, target: &Path) -> Result<End, AllocError>
        requires work { IsWorkWith given.now self.job self.facts }
        requires target { target.now ≡ self.job.target }
        ensures end { IfOk result (IsEndAt given.now self.job.target self.job.turn) }
        ensures progress { IfOk result (λ end. end_progress end ≡
            (rules_for given.now).progress self.job.target (told_in self.facts)) }
    {
        let Begun {
            job,
            facts,
            loops_long,
        } = self;
        let alloc = facts.allocator();
        match job.advance(&facts)? {
            Step::Ended(done) => {
                let fact = fact_of(alloc, given, target, done)?;
                Ok(End::Ended(fact, facts.into_asked()))
            }
            Step::Asks { job, paths } => {
                let begun = Box::new(
                    alloc,
                    Begun {
                        job,
                        facts,
                        loops_long,
                    },
                )?;
                Ok(End::Stopped { begun, paths })
            }
        }
    }
}

/// Makes the digest of an outcome and keeps it, if it is to be made at once. Made here, it is made beside other scripts.
fn keep_digest(given: &Given, outcome: &mut Outcome)
    ensures { outcome.new ≡ outcome.old }
{
    if given.digests_at_once(outcome) {
        outcome.keep_digest();
    }
}

/// The fact of a target whose script has ended.
fn fact_of(alloc: Global, given: &Given, target: &Path, done: Done) -> Result<Fact, AllocError>
    requires { IsDecided given.now target.now done.outcome done.deps true }
    ensures { IfOk result (λ fact. fact ≡
        record {
          given = given.now;
          target = target.now;
          outcome = done.outcome;
          deps = done.deps;
          begun = true;
        }) }
{
    let Done { mut outcome, deps } = done;
    keep_digest(given, &mut outcome);
    let target = target.clone()?;
    let deps = Arc::new(alloc, deps)?;
    Ok(Fact::of(given, target, outcome, deps, true))
}

impl Piece {
    /// The target whose script was advanced.
    pub fn target(&self) -> &Path
        ensures { result.now ≡ self.now.target }
    {
        &self.target
    }

    /// The turn at which its work was taken.
    pub fn turn(&self) -> u64
        ensures { result ≡ self.now.turn }
    {
        self.turn
    }

    /// The number of the target in the table of the board that gave its work.
    pub(crate) fn number(&self) -> usize {
        self.number as usize
    }

    /// Whether the piece is of a build that is given this.
    pub(crate) fn is_of(&self, given: &Given) -> bool
        ensures { IsTrue result ↔ (self.now.given ≡ given.now) }
    {
        self.given.is_same(given)
    }

    /// How far the script came.
    pub(crate) fn into_end(self) -> End
        ensures { IsEndAt self.given self.target self.turn result }
    {
        self.end
    }

    /// The file that the script made, if it has ended and made one.
    pub fn file(&self) -> Option<&[u8]>
        ensures { MatchOption self.now.progress.outcome (result ≡ None) (λ outcome.
            option_copied result ≡ file_in outcome) }
    {
        match &self.end {
            End::Ended(fact, _) => fact.outcome().file(),
            End::Stopped { .. } => None,
        }
    }

    /// Whether one of the first files that the script has declared so far is a source of at least `least` bytes. So
    /// whoever gives out works can tell what the next ones may be like. No report depends on it.
    pub fn has_large_source(&self, least: usize) -> bool {
        let sources = self.given.sources();
        match &self.end {
            End::Ended(fact, _) => is_any_large(sources, fact.deps().parts().own, least),
            End::Stopped { begun, .. } => {
                is_any_large(sources, begun.job.declared().as_slice(), least)
            }
        }
    }

    /// Whether the script ended, in whatever way. If not, its target waits.
    pub fn ended(&self) -> bool
        ensures { result ≡ is_some self.now.progress.outcome }
    {
        matches!(self.end, End::Ended(_, _))
    }
}
