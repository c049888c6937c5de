//! Tests of what can't be seen from outside the program.
//!
//! Whole runs are tested by the scripts in `tests/`, which need no proof. Here is what they can't reach: calls that the
//! program makes in only one way, or not at all, and what a refused call leaves behind. The crate has no code of its
//! own, and calls only what the others make public.
//!
//! - `cells`, `relay`: what threads share without a lock;
//! - `trees`: trees, as bundles, and what else the tests share;
//! - `pieces`: pieces that don't belong to a board, and a board at its limit;
//! - `picks`: builds in a given order;
//! - `observers`: which jobs workers take up, and how many at a time;
//! - `ends`: a writer that fails at any of its calls;
//! - `answers`, `surface`: calls that no run makes;
//! - `memory_dir`: a directory in memory; `work_dirs`: runs over one;
//! - `memory`: what a call that is refused memory leaves; `tests/refused-memory` refuses it.
#![tactic(auto)]

#[cfg(test)]
mod answers;
#[cfg(test)]
mod cells;
#[cfg(test)]
mod ends;
#[cfg(test)]
mod memory;
#[cfg(test)]
mod memory_dir;
#[cfg(test)]
mod observers;
#[cfg(test)]
mod picks;
#[cfg(test)]
mod pieces;
#[cfg(test)]
mod relay;
#[cfg(test)]
mod surface;
#[cfg(test)]
mod trees;
#[cfg(test)]
mod work_dirs;
