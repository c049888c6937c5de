//! What is published in a cell, and what is found there.
ghost use Rattle.std.specs.Prelude.{◌≡◌, ◌<◌, length};
ghost use Rattle.std.specs.Arc.{arc_value};

use redo_sync::Cells;
use std::alloc::AllocError;
use std::sync::atomic::AtomicU64;
use std::sync::atomic::Ordering::SeqCst;
use std::sync::{Arc, Wait};
use std::test::Fail;
use std::thread;

/// How often the threads of a test together may look in vain.
const MOST_TRIES: u64 = 1_000_000;

/// The value that is found in a cell.
fn found(cells: &Arc<Cells<u64>>, index: usize) -> Result<Option<u64>, AllocError>
    requires { index < length (arc_value cells.now) }
{
    match Cells::look(cells, index)? {
        Some(known) => Ok(Some(*known.read())),
        None => Ok(None),
    }
}

/// Publishes a value, and returns whether it is the one in the cell.
fn is_first(cells: &Arc<Cells<u64>>, index: usize, value: u64) -> Result<bool, Fail>
    requires { index < length (arc_value cells.now) }
{
    let known = Cells::publish(cells, index, value).map_err(|e| e.1)?;
    let again = known.again()?;
    if *known.read() != value || *again.read() != value || again.in_cell() != known.in_cell() {
        Err("another value")?;
    }
    Ok(known.in_cell())
}

#[test]
fn a_cell_keeps_its_first_value(rt: HostRuntime) -> Result<(), Fail> {
    let cells = Cells::new(rt.alloc(), 2)?;
    assert_eq!(rt; found(&cells, 0)?, None);
    assert!(rt; is_first(&cells, 0, 7)?);
    assert!(rt; !is_first(&cells, 0, 8)?);
    assert_eq!(rt; found(&cells, 1)?, None);
    assert!(rt; is_first(&cells, 1, 9)?);
    assert_eq!(rt; (found(&cells, 0)?, found(&cells, 1)?), (Some(7), Some(9)));
    Ok(())
}

#[test]
fn two_that_look_find_one_value_which_outlives_its_row(rt: HostRuntime) -> Result<(), Fail> {
    let cells = Cells::new(rt.alloc(), 1)?;
    assert!(rt; is_first(&cells, 0, 7)?);
    let one = Cells::look(&cells, 0)?.ok_or("the cell is empty")?;
    let two = Cells::look(&cells, 0)?.ok_or("the cell is empty")?;
    one.meet(&two);
    drop(cells);
    assert!(rt; *one.read() == 7 && *two.read() == 7);
    Ok(())
}

/// Looks into each of 1,000 cells until it is written. Returns how many hold the double of their index, up to the first
/// that doesn't.
fn doubles_found<R: Wait>(
    rt: &R,
    cells: &Arc<Cells<u64>>,
    tries: &AtomicU64,
) -> Result<usize, AllocError>
    requires { length (arc_value cells.now) ≡ 1000 }
{
    let mut index = 0usize;
    for _ in rt.forever() {
        if index >= 1000 || tries.load(SeqCst) >= MOST_TRIES {
            break;
        }
        match Cells::look(cells, index)? {
            Some(known) => {
                if *known.read() != 2 * index as u64 {
                    break;
                }
                index += 1;
            }
            None => {
                tries.fetch_add(1, SeqCst);
                thread::yield_now();
            }
        }
    }
    Ok(index)
}

#[test]
fn three_threads_find_what_a_fourth_publishes(rt: HostRuntime) -> Result<(), Fail> {
    let cells: Arc<Cells<u64>> = Cells::new(rt.alloc(), 1000)?;
    let tries = AtomicU64::new(0);
    let (shared, counted, handle) = (&cells, &tries, &rt);
    let found = thread::scope(
        thread::scope_env(),
        &rt,
        |scope| -> Result<[usize; 3], AllocError>
            requires { length (arc_value shared.now) ≡ 1000 }
        {
            let first = scope.spawn(move || doubles_found(handle, shared, counted))?;
            let second = scope.spawn(move || doubles_found(handle, shared, counted))?;
            let third = scope.spawn(move || doubles_found(handle, shared, counted))?;
            for index in 0..1000usize {
                if let Err((_, error)) = Cells::publish(shared, index, 2 * index as u64) {
                    return Err(error);
                }
            }
            Ok([
                first.join(handle)?,
                second.join(handle)?,
                third.join(handle)?,
            ])
        },
    )?;
    assert_eq!(rt; found, [1000, 1000, 1000]);
    Ok(())
}
