//! What no clause says of threads: that they are found if there is enough memory.
ghost use Rattle.std.specs.Prelude.{◌<◌};
ghost use Rattle.std.specs.List.{AllByRecursion};
ghost use Rattle.mail_index.specs.Tables.{RisesFrom};

use crate::answered::{COUSINS, indexed};
use mail_answer::with_threads;
use mail_index::IndexView;
use std::alloc::Global;

// The index of six messages by their link ids only, without words. The first has the id 1@x, the second 2@x and refers
// to 1@x, the third 3@x and replies to 2@x. The fourth has no id. The fifth has 5@x, the sixth 6@x, and both refer to
// 0@x, which no message has.
const LINKED: &[u8] = b"MAIRIX\r\n\
    \0\0\0\x01\0\0\0\x01\0\0\0\x06\0\0\0\x06\0\0\0\0\0\0\0\x12\0\0\0\0\0\0\0\x12\0\0\0\0\0\0\0\x09\
    \0\0\0\0\0\0\x01\xa5\0\0\0\x06m.mbox\
    \0\0\0\0\0\0\0\0\0\0\0\0\0\0\0\0\0\0\0\0\0\0\0\x3d\0\0\0\0\0\0\0\x16\0\0\0\0\0\0\0\0\
    \0\0\0\0\0\0\0\0\0\0\0\0\0\0\0\x3d\0\0\0\0\0\0\0\x4f\0\0\0\0\0\0\0\x28\0\0\0\0\0\0\0\0\
    \0\0\0\0\0\0\0\0\0\0\0\0\0\0\0\x8c\0\0\0\0\0\0\0\x50\0\0\0\0\0\0\0\x29\0\0\0\0\0\0\0\0\
    \0\0\0\0\0\0\0\0\0\0\0\0\0\0\0\xdc\0\0\0\0\0\0\0\x2b\0\0\0\0\0\0\0\x04\0\0\0\0\0\0\0\0\
    \0\0\0\0\0\0\0\0\0\0\0\0\0\0\x01\x07\0\0\0\0\0\0\0\x4f\0\0\0\0\0\0\0\x28\0\0\0\0\0\0\0\0\
    \0\0\0\0\0\0\0\0\0\0\0\0\0\0\x01\x56\0\0\0\0\0\0\0\x4f\0\0\0\0\0\0\0\x28\0\0\0\0\0\0\0\0\
    \x08\0\0\0\0\0\0\x03\0\0\0\0\0\0\0\0\0\0\0\0\0\0\0\0\
    \x08\0\0\0\0\0\0\x03\0\0\0\0\0\0\0\x03\0\0\0\0\0\0\0\x02\
    \x08\0\0\0\0\0\0\x03\0\0\0\0\0\0\0\x06\0\0\0\0\0\0\0\x04\
    \x08\0\0\0\0\0\0\x03\0\0\0\0\0\0\0\x09\0\0\0\0\0\0\0\x06\
    \x08\0\0\0\0\0\0\x03\0\0\0\0\0\0\0\x0c\0\0\0\0\0\0\0\x07\
    \x08\0\0\0\0\0\0\x03\0\0\0\0\0\0\0\x0f\0\0\0\0\0\0\0\x08\
    0@x1@x2@x3@x5@x6@x\
    \x05\x01\x01\x01\x02\x01\x03\x05\x06\
    \xa8\xdc\x30\x35\xd8\xf7\x04\x8e\x2f\x0b\x81\x18\x38\x5f\x37\x5c\
    \x16\xf6\xad\x9e\x63\x02\x8f\x60\x52\xf4\xde\xd5\x9d\x4e\xde\x9d";

// One message without ids.
const ALONE: &[u8] = b"MAIRIX\r\n\
    \0\0\0\x01\0\0\0\x01\0\0\0\x01\0\0\0\0\0\0\0\0\0\0\0\x12\0\0\0\0\0\0\0\0\0\0\0\0\0\0\0\0\
    \0\0\0\0\0\0\0\x2b\0\0\0\x06m.mbox\
    \0\0\0\0\0\0\0\0\0\0\0\0\0\0\0\0\0\0\0\0\0\0\0\x2b\0\0\0\0\0\0\0\x04\0\0\0\0\0\0\0\0\
    \xec\x6c\x1c\xa2\x93\xbd\x6c\x3f\xf6\x53\x57\x49\xdb\x94\x88\x38\
    \x93\x48\x64\xf0\x13\x92\x7b\x2f\x78\x38\x95\x5f\xfe\xce\x06\x56";

/// Whether an index of this many messages gives these threads for some of them.
fn are(alloc: Global, file: &[u8], count: u32, numbers: &[u32], threads: &[u32]) -> bool
    requires rises { RisesFrom 0 numbers.now }
    requires within { AllByRecursion (λ n. n < count) numbers.now }
{
    match IndexView::open(file) {
        Ok(index) if index.message_count() == count => {
            match with_threads(alloc, &index, numbers) {
                Ok(found) => found.as_slice() == threads,
                Err(_) => false,
            }
        }
        _ => false,
    }
}

/// Whether each choice of messages has its threads: among the six, for the message without ids, and for two that refer
/// to a third one, which no archive has.
fn have_threads(alloc: Global) -> Option<[bool; 7]> {
    let cousins = indexed(alloc, &COUSINS)?;
    Some([
        are(alloc, LINKED, 6, &[], &[]),
        are(alloc, LINKED, 6, &[0], &[0, 1, 2]),
        // A message without ids.
        are(alloc, LINKED, 6, &[3], &[3]),
        // Two messages with an id that no message has.
        are(alloc, LINKED, 6, &[4], &[4, 5]),
        are(alloc, LINKED, 6, &[1, 2, 3], &[0, 1, 2, 3]),
        are(alloc, ALONE, 1, &[0], &[0]),
        are(alloc, &cousins, 2, &[0], &[0, 1]),
    ])
}

#[test]
fn messages_have_threads(rt: HostRuntime) {
    let reported = have_threads(rt.alloc());
    assert!(rt; reported == Some([true; 7]), "{reported:?}");
}

/// Whether the threads of two messages are whole, or lack of memory is reported.
fn are_whole_or_wanting(alloc: Global) -> bool {
    match IndexView::open(LINKED) {
        Ok(index) if index.message_count() == 6 => {
            match with_threads(alloc, &index, &[2, 4]) {
                Ok(threads) => threads.as_slice() == [0, 1, 2, 4, 5].as_slice(),
                Err(_) => true,
            }
        }
        _ => false,
    }
}

// Each refused allocation is reported as lack of memory, and the result is either that or everything.
#[test]
fn sweep_all_threads_or_want_of_memory(rt: HostRuntime) {
    assert!(rt; are_whole_or_wanting(rt.alloc()));
}
