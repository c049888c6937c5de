//! The program's version.

/// What `--version` prints after the name. `bin/build` and `bin/prove` add, in the copy that they build, the commit,
/// the kit, and whether the program was proved.
pub(crate) const VERSION: &str = "0.2.0";
