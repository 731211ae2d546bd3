//! Checks that archives have the lengths that were indexed.
ghost use Rattle.std.specs.Prelude.{◌≡◌, ◌≢◌, ◌<◌, ◌-◌, ◌^◌, length, min, false, Ok, Err, IfErr, OnOk, IfSome};
ghost use Rattle.contract_words.specs.Devices.{Counted};
ghost use Rattle.mail_answer.specs.Asked.{FindsLengths, HoldsArchives};
ghost use Rattle.mail_answer.specs.Faults.{has_fault, is_of_archives, is_of_output, IfStale};
ghost use Rattle.mail_answer.specs.Stale.{stale_archive, ReportsStale};

use crate::archives::Archives;
use crate::fault::AnswerFaultKind;
use mail_index::IndexView;

/// Fails with the first archive that isn't as long as it was when it was indexed, or if a length can't be read.
/// Compares the numbers of archives first: if they differ, the smaller one is reported as stale, and no length is read.
pub(crate) fn check_archives<A: Archives>(
    index: &IndexView<'_>,
    archives: &mut A,
) -> Result<(), AnswerFaultKind>
    requires { A.failures archives.old < 2 ^ 64 - 1 }
    ensures keeps { HoldsArchives A.Archives archives.old archives.new }
    ensures stale { IfSome (A.held archives.new) (λ bytes. ReportsStale
        (stale_archive index.now.archives bytes) result) }
    ensures same_count { OnOk result (A.number archives.old ≡ length index.now.archives) }
    ensures other_count { A.number archives.old ≢ length index.now.archives
        → result ≡ Err (AnswerFaultKind.Stale (min (A.number archives.old)
        (length index.now.archives))) }
    ensures unasked { A.number archives.old ≢ length index.now.archives
        → archives.new ≡ archives.old }
    ensures asked { A.number archives.old ≡ length index.now.archives
        → FindsLengths A.Archives index.now.archives archives.old archives.new result }
    ensures below { A.number archives.old ≡ length index.now.archives
        → IfErr result (λ kind. IfStale kind (λ n. n < length index.now.archives)) }
    ensures count { Counted (has_fault is_of_archives result) (A.failures archives.old)
        (A.failures archives.new) }
    ensures own { IfErr result (λ kind. (is_of_output kind ≡ false)
        × (kind ≢ AnswerFaultKind.OutOfMemory)) }
{
    let count = archives.count();
    let indexed = index.archive_count();
    if count != indexed {
        return Err(AnswerFaultKind::Stale(count.min(indexed)));
    }
    let mut named = index.archives();
    let mut n: u32 = 0;
    while let Some(archive) = named.next() {
        let Ok(length) = archives.length(n) else {
            return Err(AnswerFaultKind::Device);
        };
        if length != archive.length {
            return Err(AnswerFaultKind::Stale(n));
        }
        n += 1;
    }
    Ok(())
}
