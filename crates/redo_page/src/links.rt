//! Which row has a path, which rows need it, and what else is known of it.

ghost use Rattle.std.specs.Prelude.{◌≡◌, ◌<◌, ◌==◌, ◌&&◌, ◌||◌, ◌++◌, ◌∷◌, [], IfOk, List, OnOk, bytes_eq};
ghost use Rattle.std.specs.Prelude.{flat_map, if◌then◌else◌, is_some, length, option_copied, ℕ};
ghost use Rattle.std.specs.Map.{lookup};
ghost use Rattle.redo_names.specs.Paths.{is_among};
ghost use Rattle.redo_page.specs.Pages.{entry_users, is_number, is_of, link_pieces, path_pieces, row_of as row_in};
ghost use Rattle.redo_told.specs.Rows.{is_changed as has_changed};
ghost use Rattle.redo_page.specs.Pages.{changed_in, users_from, users_of as users_in};
ghost use Rattle.redo_page.specs.Parts.{text_of};
ghost use Rattle.redo_page.specs.inside.Links.{known_by, number_in, targets_of as targets_in, users_at};

use crate::parts::{Part, Tag};
use crate::whys::Whys;
use crate::writer::Writer;
use redo_diagnose::Diagnosis;
use redo_names::{PathMap, PathSet};
use redo_path::Path;
use redo_record::{Dep, DepKind};
use redo_report::Row;
use redo_told::is_changed;
use redo_tree::Tree;
use std::alloc::{AllocError, Global};

/// The number of each row, from 0, by its path.
type Numbers = PathMap<usize>;

/// The numbers of the rows that need each row.
type Users = Vec<Vec<usize>>;

/// What is known of paths and rows.
#[derive(Drop)]
pub(crate) struct Links<'a> {
    /// Why each begun script was begun, by its target.
    whys: &'a Whys,
    numbers: Numbers,
    /// The numbers of the rows that need each row, in ascending order.
    users: Users,
    /// The targets that have a diagnosis.
    diagnosed: PathSet,
    /// The targets that were built with other bytes than before.
    changed: PathSet,
}

impl<'a> Links<'a> {
    /// The links of these rows, with their diagnoses and reasons.
    pub(crate) fn of(
        alloc: Global,
        before: &Tree,
        rows: &[Row],
        diagnoses: &[Diagnosis],
        whys: &'a Whys,
    ) -> Result<Links<'a>, AllocError>
        ensures whys { IfOk result (λ links. links.whys.now ≡ whys.now) }
        ensures rows { IfOk result (λ links. (p : List ℕ) → lookup (bytes_eq p) links.numbers ≡ row_in rows.now p) }
        ensures users { IfOk result (λ links. (m : ℕ) → m < length rows.now →
            users_at links.users.items m ≡ users_in rows.now m) }
        ensures diagnosed { IfOk result (λ links. (p : List ℕ) →
            is_among links.diagnosed p ≡ is_among (targets_in diagnoses.now) p) }
        ensures changed { IfOk result (λ links. (p : List ℕ) →
            is_among links.changed p ≡ is_among (changed_in before.now rows.now) p) }
    {
        let numbers = numbers_of(alloc, rows)?;
        let users = users_of(alloc, rows, &numbers)?;
        let diagnosed = targets_of(alloc, diagnoses)?;
        let changed = changed_of(alloc, before, rows)?;
        Ok(Links {
            whys,
            numbers,
            users,
            diagnosed,
            changed,
        })
    }

    /// The number of the row with this path.
    pub(crate) fn row_of(&self, path: &Path) -> Option<usize>
        ensures { result ≡ (known_by self.now).row_of path.now }
    {
        self.numbers.get(path).copied()
    }

    /// The numbers of the rows that need the row with this number.
    pub(crate) fn users(&self, number: usize) -> &[usize]
        ensures { result.now ≡ (known_by self.now).users number }
    {
        match self.users.get(number) {
            Some(users) => users,
            None => &[],
        }
    }

    /// Whether a target has a diagnosis.
    pub(crate) fn is_told(&self, path: &Path) -> bool
        ensures { result ≡ (known_by self.now).is_told path.now }
    {
        self.diagnosed.contains(path)
    }

    /// Whether a target was built with other bytes than before.
    pub(crate) fn is_changed(&self, path: &Path) -> bool
        ensures { result ≡ (known_by self.now).is_changed path.now }
    {
        self.changed.contains(path)
    }

    /// Whether a target's script was begun.
    pub(crate) fn is_begun(&self, path: &Path) -> bool
        ensures { result ≡ is_some ((known_by self.now).why path.now) }
    {
        self.whys.get(path).is_some()
    }

    /// Why a target's script was begun; `None` if it wasn't.
    pub(crate) fn why(&self, path: &Path) -> Option<&[u8]>
        ensures { option_copied result ≡ (known_by self.now).why path.now }
    {
        match self.whys.get(path) {
            Some(why) => Some(why),
            None => None,
        }
    }
}

/// The targets of diagnoses.
fn targets_of(alloc: Global, diagnoses: &[Diagnosis]) -> Result<PathSet, AllocError>
    ensures { IfOk result (λ set. (p : List ℕ) → is_among set p ≡ is_among (targets_in diagnoses.now) p) }
{
    let mut set = PathSet::with_capacity(alloc, diagnoses.len())?;
    for diagnosis in diagnoses {
        set.insert(diagnosis.target.clone()?)?;
    }
    Ok(set)
}

/// Adds a row's target, if it was built with other bytes than the tree had before.
fn add_changed(set: &mut PathSet, before: &Tree, row: &Row) -> Result<(), AllocError>
    ensures { OnOk result ((p : List ℕ) → is_among set.new p ≡
        (is_among set.old p || (has_changed before.now row.now && bytes_eq row.now.path p))) }
{
    if is_changed(before, row) {
        set.insert(row.path.clone()?)?;
    }
    Ok(())
}

/// The targets that were built with other bytes than the tree had before.
fn changed_of(alloc: Global, before: &Tree, rows: &[Row]) -> Result<PathSet, AllocError>
    ensures { IfOk result (λ set. (p : List ℕ) → is_among set p ≡ is_among (changed_in before.now rows.now) p) }
{
    let mut set = PathSet::new(alloc);
    for row in rows {
        add_changed(&mut set, before, row)?;
    }
    Ok(set)
}

/// Whether a path has a row.
fn has_row(numbers: &Numbers, path: &Path) -> bool
    ensures { result ≡ is_some (lookup (bytes_eq path.now) numbers.now) }
{
    numbers.get(path).is_some()
}

/// The number of each row.
fn numbers_of(alloc: Global, rows: &[Row]) -> Result<Numbers, AllocError>
    ensures { IfOk result (λ numbers. (p : List ℕ) → lookup (bytes_eq p) numbers ≡ row_in rows.now p) }
{
    let mut numbers = PathMap::with_capacity(alloc, rows.len())?;
    for (number, row) in rows.iter().enumerate() {
        if !has_row(&numbers, &row.path) {
            numbers.insert(row.path.clone()?, number)?;
        }
    }
    Ok(numbers)
}

/// This many empty lists.
fn no_users(alloc: Global, count: usize) -> Result<Users, AllocError>
    ensures many { IfOk result (λ users. length users.items ≡ count) }
    ensures none { IfOk result (λ users. (m : ℕ) → users_at users.items m ≡ []) }
{
    let mut users = Vec::with_capacity(alloc, count)?;
    for _ in 0..count {
        users.push(Vec::new(alloc))?;
    }
    Ok(users)
}

/// Adds a number to the list at a place, if there is one.
fn push_at(users: &mut Users, place: usize, number: usize) -> Result<(), AllocError>
    ensures many { OnOk result (length users.new.items ≡ length users.old.items) }
    ensures added { OnOk result ((m : ℕ) → m < length users.old.items →
        users_at users.new.items m ≡ users_at users.old.items m ++ (if place == m then number ∷ [] else [])) }
{
    if place < users.len() {
        users[place].push(number)?;
    }
    Ok(())
}

/// The number of the row that an entry of a record is of.
fn needed_by(numbers: &Numbers, entry: &Dep) -> Option<usize>
    ensures { (m : ℕ) → is_number m result ≡
        is_of m entry.now.kind (lookup (bytes_eq entry.now.path) numbers.now) }
{
    match entry.kind {
        DepKind::Change | DepKind::Create => numbers.get(&entry.path).copied(),
        DepKind::Always => None,
    }
}

/// Notes that the row with this number has an entry.
fn note_user(
    users: &mut Users,
    numbers: &Numbers,
    number: usize,
    entry: &Dep,
) -> Result<(), AllocError>
    ensures many { OnOk result (length users.new.items ≡ length users.old.items) }
    ensures noted { OnOk result ((m : ℕ) → m < length users.old.items → users_at users.new.items m ≡
        users_at users.old.items m ++ entry_users (number_in numbers.now) m number entry.now) }
{
    match needed_by(numbers, entry) {
        Some(needed) => push_at(users, needed, number),
        None => Ok(()),
    }
}

/// Notes that the row with this number has these entries.
fn note_users(
    users: &mut Users,
    numbers: &Numbers,
    number: usize,
    entries: &[Dep],
) -> Result<(), AllocError>
    ensures many { OnOk result (length users.new.items ≡ length users.old.items) }
    ensures noted { OnOk result ((m : ℕ) → m < length users.old.items → users_at users.new.items m ≡
        users_at users.old.items m ++ flat_map (entry_users (number_in numbers.now) m number) entries.now) }
{
    for entry in entries {
        note_user(users, numbers, number, entry)?;
    }
    Ok(())
}

/// The rows that need each row.
fn users_of(alloc: Global, rows: &[Row], numbers: &Numbers) -> Result<Users, AllocError>
    ensures { IfOk result (λ users. (m : ℕ) → m < length rows.now →
        users_at users.items m ≡ users_from (number_in numbers.now) m 0 rows.now) }
{
    let mut users = no_users(alloc, rows.len())?;
    for (number, row) in rows.iter().enumerate() {
        let entries = row.deps.entries(alloc)?;
        note_users(&mut users, numbers, number, &entries)?;
    }
    Ok(users)
}

/// Adds a link to the row with this number.
pub(crate) fn push_link(out: &mut Writer, number: usize, path: &Path) -> Result<(), AllocError>
    ensures { OnOk result (out.new ≡ out.old ++ text_of (link_pieces number path.now)) }
{
    out.fixed(Part::Tag(Tag::Link))?;
    out.number(number as u64)?;
    out.fixed(Part::Tag(Tag::LinkText))?;
    out.text(path.text())?;
    out.fixed(Part::Tag(Tag::LinkEnd))
}

/// Adds a path, as a link if it has a row.
pub(crate) fn push_path(
    out: &mut Writer,
    number: Option<usize>,
    path: &Path,
) -> Result<(), AllocError>
    ensures { OnOk result (out.new ≡ out.old ++ text_of (path_pieces number path.now)) }
{
    match number {
        Some(number) => push_link(out, number, path),
        None => out.text(path.text()),
    }
}
