//! A call that no run makes, with ample memory.

use crate::trees::tree_of;
use redo_bundle::{Plain, write_bundle};
use std::test::Fail;

/// A directory with a file, and a script.
const TREE: &str = "dir d\nfile 2 d/f\na\n\nfile 8 hello.do\necho hi\n\nend\n";

#[test]
fn a_tree_is_written(rt: HostRuntime) -> Result<(), Fail> {
    let alloc = rt.alloc();
    let tree = tree_of(alloc, TREE)?;
    let mut writer = Plain::new(Vec::new(alloc));
    write_bundle(alloc, &mut writer, &tree)?;
    assert_eq!(rt; writer.stream.as_slice(), TREE.as_bytes());
    Ok(())
}
