//! A folder in memory, and new files that take their names in it.

use named_files::{
    Folder, Item, KeptFile, Look, MemoryFolder, NameFault, PlainName, Refusal, clear_leftover,
    replace_file,
};
use std::alloc::Global;

/// The name of a file, and the name that it has until it is whole.
#[derive(Drop)]
struct Names {
    own: PlainName,
    temporary: PlainName,
}

/// Returns the names of a file.
fn made_names(alloc: Global) -> Option<Names> {
    Some(Names {
        own: PlainName::new(alloc, "t").ok()?,
        temporary: PlainName::new(alloc, "t.new").ok()?,
    })
}

/// Whether a file takes the place of an older one, and is read then. It is None if memory runs out, and so are the
/// results below.
fn is_replaced(alloc: Global) -> Option<bool> {
    let mut folder = MemoryFolder::new(alloc);
    let Names { own, temporary } = made_names(alloc)?;
    let old = b"old".to_vec(alloc).ok()?;
    folder.put(alloc, "t", Item::File(old)).ok()?;
    let mut reports = folder.no_reports();
    replace_file(
        &mut folder,
        alloc,
        &mut reports,
        &temporary,
        &own,
        b"a new one",
    )
    .ok()?;
    let mut file = folder.open(alloc, &own).ok()?;
    let mut read = [0; 8];
    let count = file.read_at(6, &mut read).ok()?;
    let as_wanted = folder.bytes("t") == Some(b"a new one".as_slice())
        && folder.bytes("t.new").is_none()
        && &read[..count] == b"one".as_slice()
        && matches!(file.length(), Ok(9));
    Some(as_wanted)
}

/// Whether what has the temporary name stays, and a file that a killed run left there is removed.
fn only_leftovers_are_removed(alloc: Global) -> Option<bool> {
    let mut folder = MemoryFolder::new(alloc);
    let Names { own, temporary } = made_names(alloc)?;
    folder.put(alloc, "t.new", Item::Folder).ok()?;
    let mut reports = folder.no_reports();
    let is_refused = matches!(
        replace_file(&mut folder, alloc, &mut reports, &temporary, &own, b"new"),
        Err(NameFault::NotNamed(Refusal::Refused))
    ) && matches!(
        clear_leftover(&mut folder, alloc, &mut reports, &temporary),
        Err(Refusal::Refused)
    ) && matches!(
        folder.look(alloc, &mut reports, &temporary),
        Ok(Look::Folder)
    );
    folder.leave(alloc, "t.new", Vec::new(alloc)).ok()?;
    clear_leftover(&mut folder, alloc, &mut reports, &temporary).ok()?;
    replace_file(&mut folder, alloc, &mut reports, &temporary, &own, b"new").ok()?;
    Some(is_refused && folder.bytes("t") == Some(b"new".as_slice()))
}

#[test]
fn files_take_their_names(rt: HostRuntime) {
    assert!(rt; is_replaced(rt.alloc()).unwrap_or(false));
    assert!(rt; only_leftovers_are_removed(rt.alloc()).unwrap_or(false));
}
