//! What is told of a row.

ghost use Rattle.std.specs.Prelude.{◌≡◌, option_copied};
ghost use Rattle.redo_told.specs.Rows.{first_change, is_changed as has_changed, rule_in};

use redo_path::Path;
use redo_record::{Dep, DepKind, Record};
use redo_report::Row;
use redo_tree::Tree;

/// The path of the first change entry among these.
fn first_of(entries: &[Dep]) -> Option<&Path>
    ensures { option_copied result ≡ first_change entries.now }
{
    for entry in entries {
        if entry.kind == DepKind::Change {
            return Some(&entry.path);
        }
    }
    None
}

/// The .do file that made a target or would, by the target's record; none for a source and a target without a rule.
pub fn rule_of(deps: &Record) -> Option<&Path>
    ensures { option_copied result ≡ rule_in deps.now }
{
    let parts = deps.parts();
    match parts.do_file {
        Some(file) => Some(file),
        None => first_of(parts.own),
    }
}

/// Whether a target was built with a file that has other bytes than the tree had at its path, or where there was none.
/// `before` is the tree as it was read.
pub fn is_changed(before: &Tree, row: &Row) -> bool
    ensures { result ≡ has_changed before.now row.now }
{
    match row.outcome.file() {
        Some(made) => match before.file(&row.path) {
            Some(old) => old != made,
            None => true,
        },
        None => false,
    }
}
