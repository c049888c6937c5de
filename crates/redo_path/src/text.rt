//! Splitting a path's text, and limits on its length.

ghost use Rattle.std.specs.Prelude.{◌≡◌, ◌++◌, ◌∷◌, [], IfSome, option_copied};
ghost use Rattle.redo_path.specs.Names.{IsPath, name_of, names, parent_of};
ghost use Rattle.redo_path.specs.inside.Walking.{IsNameStart};

use bstr::ByteSlice;

/// The most bytes in a name.
pub const LONGEST_NAME: usize = 255;

/// The most bytes in a path.
pub const LONGEST_PATH: usize = 1024;

/// The text of the directory that contains the path with this text; `None` for the root. For a [`Path`](crate::Path)
/// use [`parent_text`](crate::Path::parent_text).
pub fn parent_of_text(text: &[u8]) -> Option<&[u8]>
    requires { IsPath text.now }
    ensures text { option_copied result ≡ parent_of text.now }
    ensures path { IfSome result (λ up. IsPath up.now) }
    ensures names { IfSome result (λ up. names text.now ≡ names up.now ++ name_of text.now ∷ []) }
{
    if text.is_empty() {
        return None;
    }
    let end = name_start(text).saturating_sub(1);
    Some(&text[..end])
}

/// The last name of a path's text.
pub(crate) fn last_name(text: &[u8]) -> &[u8]
    ensures { result.now ≡ name_of text.now }
{
    &text[name_start(text)..]
}

/// The offset at which the last name of a text begins.
pub(crate) fn name_start(text: &[u8]) -> usize
    ensures { IsNameStart text.now result }
{
    match text.rfind_byte(b'/') {
        Some(slash) => slash + 1,
        None => 0,
    }
}
