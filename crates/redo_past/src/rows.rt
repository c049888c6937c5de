//! The rows of a report, found by their paths.

ghost use Rattle.std.specs.Prelude.{◌≡◌, IfOk, option_copied};
ghost use Rattle.redo_past.specs.NewBook.{row_at};
ghost use Rattle.redo_past.specs.inside.Books.{AreRows, FindsRows};

use redo_names::PathSet;
use redo_path::Path;
use redo_report::Row;
use std::alloc::{AllocError, Global};
use std::marker::Model;

/// The paths of these rows, each with the index of its row as its number. The rows are in path order.
pub(crate) fn numbers_of(alloc: Global, rows: &[Row]) -> Result<PathSet, AllocError>
    requires { AreRows rows.now }
    ensures { IfOk result (λ numbers. FindsRows numbers rows.now) }
{
    let mut numbers = PathSet::with_capacity(alloc, rows.len())?;
    for row in rows {
        numbers.insert(row.path.clone()?)?;
    }
    Ok(numbers)
}

/// The rows of a report, with the set of their paths, which finds each. In a contract it is the list of rows.
#[derive(Drop)]
pub(crate) struct Rows<'a> {
    in_order: &'a [Row],
    numbers: &'a PathSet,
}

impl<'a> Model for Rows<'a> {
    ghost use Rattle.std.specs.Prelude.{List};
    ghost use Rattle.redo_report.specs.declared.report.Row.{Row as ReportRow};
    ghost use Rattle.redo_past.specs.inside.Books.{AreRows, FindsRows};

    ghost Value = { List ReportRow };

    ghost view = { λ r. r.in_order.now };

    ghost invariant = { λ r. AreRows r.in_order.now × FindsRows r.numbers.now r.in_order.now };
}

impl<'a> Rows<'a> {
    /// These rows, which are in path order, with their paths.
    pub(crate) fn new(in_order: &'a [Row], numbers: &'a PathSet) -> Rows<'a>
        requires order { AreRows in_order.now }
        requires numbers { FindsRows numbers.now in_order.now }
        ensures { result ≡ in_order.now }
    {
        Rows { in_order, numbers }
    }

    /// The rows in path order.
    pub(crate) fn in_order(&self) -> &'a [Row]
        ensures rows { result.now ≡ self.now }
        ensures order { AreRows self.now }
    {
        self.in_order
    }

    /// The row of a path, if there is one.
    pub(crate) fn find(&self, path: &Path) -> Option<&'a Row>
        ensures { option_copied result ≡ row_at self.now path.now }
    {
        match self.numbers.number_of(path) {
            Some(number) => Some(&self.in_order[number]),
            None => None,
        }
    }
}
