//! The reading of a target's script.
ghost use Rattle.std.specs.Prelude.{◌≡◌, IfOk};
ghost use Rattle.std.specs.Arc.{arc_value};
ghost use Rattle.redo_script.specs.Texts.{script_in};
ghost use Rattle.redo_step.specs.Parsed.{parsed_of};
ghost use Rattle.redo_which.specs.Rule.{Rule as IsRule, found_of};
ghost use Rattle.redo_which.specs.Views.{arguments_view};
ghost use Rattle.redo_core.specs.inside.Scripts.{IsFirstJob};

use crate::given::Given;
use redo_path::Path;
use redo_step::{Job, JobInputs, Parsed};
use redo_which::Rule;
use std::alloc::{AllocError, Global};
use std::marker::Model;
use std::sync::Arc;

/// A text, and what reading it came to.
#[derive(Drop)]
pub(crate) struct Reading {
    text: Vec<u8>,
    parsed: Arc<Parsed>,
}

impl Model for Reading {
    ghost use Rattle.std.specs.Prelude.{◌≡◌, List, ℕ};
    ghost use Rattle.std.specs.Arc.{arc_value};
    ghost use Rattle.redo_script.specs.Texts.{script_in};
    ghost use Rattle.redo_step.specs.Parsed.{parsed_of};

    ghost Value = { List ℕ };

    ghost view = { λ r. r.text.items };

    ghost invariant = { λ r. parsed_of (arc_value r.parsed) ≡ script_in r.text.items };
}

impl Reading {
    /// Reads a text.
    fn of(alloc: Global, text: &[u8]) -> Result<Reading, AllocError>
        ensures { IfOk result (λ r. r ≡ text.now) }
    {
        let mut own = Vec::with_capacity(alloc, text.len())?;
        own.extend_from_slice(text)?;
        let parsed = parsed(alloc, text)?;
        Ok(Reading { text: own, parsed })
    }

    /// What reading the text came to.
    fn parsed(&self) -> Result<Arc<Parsed>, AllocError>
        ensures { IfOk result (λ parsed. parsed_of (arc_value parsed) ≡ script_in self.now) }
    {
        Ok(Arc::try_clone(&self.parsed)?)
    }
}

/// Reads a text.
fn parsed(alloc: Global, text: &[u8]) -> Result<Arc<Parsed>, AllocError>
    ensures { IfOk result (λ parsed. parsed_of (arc_value parsed) ≡ script_in text.now) }
{
    Ok(Arc::new(alloc, Parsed::of(alloc, text)?)?)
}

/// Reads a script. If the search didn't find it as its first candidate, which has the target's own name, its name begins
/// with `default` and it may make several targets. So what it came to is kept, and the same text isn't read again.
fn script(alloc: Global, given: &Given, rule: &Rule, text: &[u8]) -> Result<Arc<Parsed>, AllocError>
    ensures { IfOk result (λ parsed. parsed_of (arc_value parsed) ≡ script_in text.now) }
{
    if rule.missing.len() == 0 {
        return parsed(alloc, text);
    }
    match given.reading(&rule.do_file)? {
        Some(known) if known.read().text.as_slice() == text => known.read().parsed(),
        Some(_) => parsed(alloc, text),
        None => {
            let reading = Reading::of(alloc, text)?;
            let parsed = reading.parsed()?;
            given.keep(&rule.do_file, reading)?;
            Ok(parsed)
        }
    }
}

/// What a loop begins with.
const LOOP: &[u8] = b"for ";

/// Loops are looked for in scripts of at least so many bytes, and in the first bytes of long ones.
const LEAST: usize = 64;

const FRONT: usize = 1_024;

/// So many bytes in the turns of loops take long.
const LONG: usize = 1 << 18;

/// Whether loops may make a script take long. A loop has fewer turns than the text has bytes, and each turn goes over
/// less than the text. So a text of 512 bytes with one loop may take long, or one of 64 bytes with two.
pub(crate) fn may_loop_long(text: &[u8]) -> bool {
    if text.len() < LEAST {
        return false;
    }
    let front = &text[..text.len().min(FRONT)];
    let mut bytes = front.len();
    for word in front.windows(LOOP.len()) {
        if word == LOOP {
            bytes = bytes.saturating_mul(front.len());
        }
    }
    bytes >= LONG
}

/// Reads the script of a target and makes its job, and says whether loops may make it take long. The .do file that the
/// search found is a file of the tree.
pub(crate) fn job_of(
    alloc: Global,
    given: &Arc<Given>,
    target: Path,
    rule: Rule,
) -> Result<(Job, bool), AllocError>
    requires { found_of (arc_value given.now).past.sources target ≡
        IsRule rule.do_file rule.missing (arguments_view rule.args) }
    ensures { IfOk result (λ read. IsFirstJob (arc_value given.now) target read.0) }
{
    let tree = Arc::try_clone(given.sources())?;
    let Some(text) = tree.file(&rule.do_file) else {
        unreachable!()
    };
    let loops_long = may_loop_long(text);
    let parsed = script(alloc, given, &rule, text)?;
    let job = Job::begin(JobInputs {
        alloc,
        tree,
        target,
        rule,
        parsed,
        limits: given.limits(),
    })?;
    Ok((job, loops_long))
}
