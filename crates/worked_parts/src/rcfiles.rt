//! What an rcfile says.

use mairix_options::{Rc, read_rc};
use or_memory::OrMemory;
use std::test::Fail;

/// Whether an rcfile says just these names.
fn says(rc: &Rc, paths: [&str; 2], database: &str, mfolder: &str) -> bool {
    let [first, second] = paths;
    let has_paths = match rc.paths.as_slice() {
        [a, b] => a.as_str() == first && b.as_str() == second,
        _ => false,
    };
    has_paths && rc.database.as_str() == database && rc.mfolder.as_str() == mfolder
}

#[test]
fn an_rcfile_is_accepted(rt: HostRuntime) -> Result<(), Fail> {
    let rc = read_rc(
        rt.alloc(),
        b"mbox=a.mbox:b.mbox\ndatabase=m.idx\nmfolder=hits\n",
    )?;
    assert!(rt; says(&rc, ["a.mbox", "b.mbox"], "m.idx", "hits"));
    Ok(())
}

/// The gate refuses each allocation in turn.
#[test]
fn sweep_read_rc(rt: HostRuntime) {
    let as_wanted = match read_rc(rt.alloc(), b"mbox=a:b\nmbox=c\ndatabase=d\nmfolder=f\n") {
        Ok(rc) => rc.paths.as_slice().len() == 3,
        Err(fault) => matches!(fault, OrMemory::Memory),
    };
    assert!(rt; as_wanted);
}
