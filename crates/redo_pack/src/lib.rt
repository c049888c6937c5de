//! A tree as a bundle, for whoever wants to send it or to build it elsewhere, and back.
//!
//! [`pack`] writes a tree, of which a directory may hold files that no bundle takes. [`unpack`] makes a tree's
//! directories and files where there are none.
//!
//! - `packing`: a tree as a bundle; `faults`: why there is none;
//! - `unpacking`: a tree's directories and files; `making`: what is asked of the directory in which they are made;
//! - `system_top`: such a directory of the system.
#![tactic(auto)]

mod faults;
mod making;
mod packing;
mod system_top;
mod unpacking;

pub use faults::PackFault;
pub use making::{Drafted, Making};
pub use packing::pack;
pub use system_top::{Made, SystemDraft, SystemTop};
pub use unpacking::{UnpackFault, unpack};
