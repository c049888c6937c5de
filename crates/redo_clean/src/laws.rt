//! Laws of cleans. The function does nothing: its contract is a law.

ghost use Rattle.std.specs.Prelude.{◌≡◌};
ghost use Rattle.redo_past.specs.Past.{PastView};
ghost use Rattle.redo_clean.specs.Planned.{HaveSameTargets, changed_targets, generated_files};

/// What a clean removes and keeps depends on the book and on the files of its targets: it is the same for each past
/// with that book whose tree has the same files there, whatever else it has.
pub fn cleans_rest_on_targets()
    ensures removed { (one two : PastView) → HaveSameTargets one two → generated_files two ≡ generated_files one }
    ensures kept { (one two : PastView) → HaveSameTargets one two → changed_targets two ≡ changed_targets one }
{}
