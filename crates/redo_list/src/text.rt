//! A list in words, one target a line.

ghost use Rattle.std.specs.Prelude.{◌≡◌, ◌++◌, IfOk, OnOk, map};
ghost use Rattle.redo_list.specs.Lists.{line_of, list_text, listed_view};

use crate::listed::Listed;
use std::alloc::{AllocError, Global};

/// Adds the line of a target.
fn push_line(text: &mut Vec<u8>, listed: &Listed) -> Result<(), AllocError>
    ensures { OnOk result (text.new.items ≡ text.old.items ++ line_of (listed_view listed.now)) }
{
    text.extend_from_slice(listed.state.word().as_bytes())?;
    text.extend_from_slice(b" ")?;
    text.extend_from_slice(listed.target.text())?;
    text.extend_from_slice(b": ")?;
    text.extend_from_slice(&listed.why)?;
    text.extend_from_slice(b"\n")?;
    Ok(())
}

/// The lines of a list, in its order: of each target its state, its path and why it is listed. Nothing for an empty list.
pub fn text_of(alloc: Global, targets: &[Listed]) -> Result<Vec<u8>, AllocError>
    ensures lines { IfOk result (λ text. text.items ≡ list_text (map listed_view targets.now)) }
{
    let mut text = Vec::new(alloc);
    for target in targets {
        push_line(&mut text, target)?;
    }
    Ok(text)
}
