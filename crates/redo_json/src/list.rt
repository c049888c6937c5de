//! A list of targets that are out of date.

ghost use Rattle.std.specs.Prelude.{◌≡◌, ◌++◌, IfOk, OnOk, flat_map};
ghost use Rattle.redo_json.specs.Lists.{list_text, list_tokens, listed_tokens};

use crate::members::Tokens;
use crate::paths::{push_path, push_readable};
use redo_list::Listed;
use std::alloc::{AllocError, Global};

/// Adds a target.
fn push_listed(alloc: Global, out: &mut Tokens, listed: &Listed) -> Result<(), AllocError>
    ensures { OnOk result (out.new ≡ out.old ++ listed_tokens listed.now) }
{
    out.begin_object()?;
    push_path(alloc, out, &listed.target)?;
    out.text("state", listed.state.word())?;
    push_readable(alloc, out, "why", &listed.why)?;
    out.end_object()
}

/// Adds targets.
fn push_all(alloc: Global, out: &mut Tokens, targets: &[Listed]) -> Result<(), AllocError>
    ensures { OnOk result (out.new ≡ out.old ++ flat_map listed_tokens targets.now) }
{
    for target in targets {
        push_listed(alloc, out, target)?;
    }
    Ok(())
}

/// The tokens of a list's text.
fn tokens_of(alloc: Global, targets: &[Listed], status: u8) -> Result<Tokens, AllocError>
    ensures { IfOk result (λ tokens. tokens ≡ list_tokens status targets.now) }
{
    let mut out = Tokens::new(alloc);
    out.begin_object()?;
    out.number("status", u64::from(status))?;
    out.begin_array("targets")?;
    push_all(alloc, &mut out, targets)?;
    out.end_array()?;
    out.end_object()?;
    Ok(out)
}

/// The targets that are out of date, in this order, as JSON: one object and a newline. `status` is the status with
/// which the program ends.
pub fn list_json(alloc: Global, targets: &[Listed], status: u8) -> Result<Vec<u8>, AllocError>
    ensures { IfOk result (λ text. text.items ≡ list_text status targets.now) }
{
    let tokens = tokens_of(alloc, targets, status)?;
    tokens.into_line()
}
