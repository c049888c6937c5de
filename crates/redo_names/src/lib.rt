//! Sets and maps of paths. A look-up takes few steps, whatever names the paths have.
//!
//! A build looks up paths all the time, and whoever writes a tree chooses its names. With a fixed seed, chosen names
//! can all collide in a hash table; with a random seed, the time for one input would differ from run to run. So the
//! hash of a path leads to at most eight places, and if others have taken all of these, to an ordered map: a look-up
//! compares at most eight texts and then descends a tree. Up to eight paths have no places, and a look-up compares
//! each without a hash.
//!
//! - `set`: [`PathSet`], paths with their numbers; `map`: [`PathMap`], a value for each path;
//! - `index`: how numbers are stored and found.
#![tactic(auto)]

mod index;
mod map;
mod set;

pub use map::PathMap;
pub use set::PathSet;
