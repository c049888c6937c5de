//! The rings of a report.

ghost use Rattle.std.specs.Prelude.{◌≡◌, ◌++◌, OnOk, flat_map};
ghost use Rattle.redo_json.specs.Members.{ring_tokens, rings_member};

use crate::members::Tokens;
use crate::paths::push_paths;
use redo_rings::Ring;
use std::alloc::{AllocError, Global};

/// Adds a ring.
fn push_ring(alloc: Global, out: &mut Tokens, ring: &Ring) -> Result<(), AllocError>
    ensures { OnOk result (out.new ≡ out.old ++ ring_tokens ring.now) }
{
    out.begin_object()?;
    push_paths(alloc, out, "paths", &ring.members)?;
    out.number("waiting", ring.waiting as u64)?;
    out.end_object()
}

/// Adds each ring.
fn push_each(alloc: Global, out: &mut Tokens, rings: &[Ring]) -> Result<(), AllocError>
    ensures { OnOk result (out.new ≡ out.old ++ flat_map ring_tokens rings.now) }
{
    for ring in rings {
        push_ring(alloc, out, ring)?;
    }
    Ok(())
}

/// Adds the rings.
pub(crate) fn push_rings(alloc: Global, out: &mut Tokens, rings: &[Ring]) -> Result<(), AllocError>
    ensures { OnOk result (out.new ≡ out.old ++ rings_member rings.now) }
{
    out.begin_array("rings")?;
    push_each(alloc, out, rings)?;
    out.end_array()
}
