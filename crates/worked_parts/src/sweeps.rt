//! A builder of which each allocation is refused in turn: the gate runs these tests with a library that refuses the
//! first allocation, then the second, and so on. A call that is refused reports lack of memory, and each later call
//! returns `Failed`.
ghost use Rattle.mail_index.specs.Builders.{IsBetweenArchives};

use crate::builders::{PATH, build, is_lost};
use crate::counted::Counted;
use mail_index::{BuildFault, Builder, Digests, Kind, is_path};
use std::alloc::Global;

/// A key that has memory of its own.
const LONG_ID: &[u8] = b"an.id.of.more.than.15.bytes@x.org";

/// The number of bytes of an index file of an archive at [`PATH`] with a message that has two keys, this one and one of
/// five bytes.
const SIZE: u64 = 80 + 50 + 40 + 2 * 24 + 38 + 2;

/// Whether a builder writes this many bytes.
fn has_size(builder: &Builder) -> bool
    requires phase { IsBetweenArchives builder.now }
{
    let mut out = Counted { bytes: 0 };
    matches!(builder.write(&mut out, Digests::Computed), Ok(SIZE)) && out.bytes == SIZE
}

/// Whether the archive is built, or the call that is refused leaves nothing. If it is built and `writes` is true, it is
/// also written.
fn is_built_or_lost(alloc: Global, writes: bool) -> bool {
    if !is_path(PATH) {
        return false;
    }
    let mut builder = Builder::new(alloc, 2);
    let answer = build(&mut builder, PATH, Kind::OwnId, LONG_ID);
    match answer {
        Ok(()) => !writes || has_size(&builder),
        Err(_) => is_lost(&mut builder, answer, BuildFault::OutOfMemory),
    }
}

#[test]
fn sweep_builder(rt: HostRuntime) {
    assert!(rt; is_built_or_lost(rt.alloc(), false));
}

/// Writing takes no memory, so no allocation of it is refused.
#[test]
fn sweep_builder_takes_no_more(rt: HostRuntime) {
    assert!(rt; is_built_or_lost(rt.alloc(), true));
}
