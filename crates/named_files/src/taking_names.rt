//! A new file that takes its name once it is whole, and is removed otherwise.
ghost use Rattle.std.specs.Prelude.{◌≡◌, ◌≢◌, ◌⊎◌, ◌<◌, ◌-◌, ◌^◌, ℕ, true, false, List, None, Some, IfErr, IfSome, OnOk, ◌&&◌};
ghost use Rattle.named_files.specs.Crashes.{LeavesOnly};
ghost use Rattle.named_files.specs.Entries.{Entry, File, Nothing, Leads, SameWhere};
ghost use Rattle.named_files.specs.Refusals.{HasCause, has_name, refusal_of_name};
ghost use Rattle.named_files.specs.AddedReports.{AddsReports};
ghost use Rattle.named_files.specs.TakingNames.{Replaces, TakesName};

use crate::folder::Folder;
use crate::name_fault::NameFault;
use crate::new_file::NewFile;
use crate::refusal::Refusal;
use mbox_cutter::{DeviceFault, send};
use std::alloc::Global;

/// Gives the file that is made its name, once all of it is on the disk, and brings the name to the disk.
///
/// # Errors
///
/// `NotNamed` if the file can't be brought to the disk or renamed: then it is removed, and a name that is apart from the
/// temporary name leads to what it led to before. `NotSynced` if only the name can't be brought to the disk: then the file
/// has it.
pub fn take_name<F: Folder>(
    folder: &mut F,
    alloc: Global,
    new: F::New,
    temporary: &F::Name,
    name: &F::Name,
) -> Result<(), NameFault>
    requires making { F.making folder.old ≡ Some (F.Name.text temporary.now) }
    requires count { F.New.failures new < 2 ^ 64 - 1 }
    // The name leads to all that was written; or, without the name, to what it led to before, if it is apart from the
    // temporary name.
    ensures named { has_name result ≡ true
        → Leads (F.holds folder.new (F.Name.text name.now)) (F.New.taken new) }
    ensures not_named { has_name result ≡ false
        → F.apart folder.old (F.Name.text name.now) (F.Name.text temporary.now) ≡ true
        → F.holds folder.new (F.Name.text name.now) ≡ F.holds folder.old (F.Name.text name.now) }
    // Each other name leads to what it led to before.
    ensures others { SameWhere (λ n. F.apart folder.old n (F.Name.text temporary.now)
        && F.apart folder.old n (F.Name.text name.now)) (F.holds folder.old) (F.holds folder.new) }
    // A crash at any moment of the call leaves under the name, if it is apart from the temporary name, what it might have
    // left before, or the whole new file.
    ensures any_moment { LeavesOnly F.moment F.left_since folder.old folder.new
        (Replaces (F.apart folder.old) (F.may_leave folder.old) (F.Name.text temporary.now)
        (F.Name.text name.now)
        (F.New.taken new)) }
    // A crash after the call leaves the whole new file.
    ensures kept { OnOk result (IfSome (F.New.taken new) (λ bytes. (c : Entry)
        → F.may_leave folder.new (F.Name.text name.now) c → c ≡ File bytes)) }
    ensures none { F.making folder.new ≡ None }
    // It is on the disk when it is renamed, and then its name is brought to the disk. It is removed only if it wasn't
    // named.
    ensures calls { TakesName F.renames F.syncs F.discards (F.Name.text name.now) result folder.old
        folder.new }
    // It doesn't give up by itself.
    ensures refused { IfErr result (λ fault. HasCause (refusal_of_name fault)
        (F.can_refuse ⊎ F.writes_can_fail)) }
{
    let _ = temporary;
    let mut new = new;
    if let Err(DeviceFault) = folder.sync_new(&mut new, name) {
        folder.discard(new);
        return Err(NameFault::NotNamed(Refusal::Refused));
    }
    if let Err((why, back)) = folder.rename(alloc, new, name) {
        folder.discard(back);
        return Err(NameFault::NotNamed(why));
    }
    folder.sync_name(alloc, name).map_err(NameFault::NotSynced)
}

/// Makes a file of these bytes under a temporary name, and gives it its name once all of it is on the disk.
///
/// # Errors
///
/// `NotNamed` if the file can't be made, written or renamed: then it is removed, and a name that is apart from the temporary
/// name leads to what it led to before. `NotSynced` if only the name can't be brought to the disk: then the file has it.
pub fn replace_file<F: Folder>(
    folder: &mut F,
    alloc: Global,
    reports: &mut F::Reports,
    temporary: &F::Name,
    name: &F::Name,
    bytes: &[u8],
) -> Result<(), NameFault>
    requires making { F.making folder.old ≡ None }
    ensures reports { AddsReports F.Folder reports.old reports.new }
    // The name leads to exactly these bytes; or, without the name, to what it led to before, if it is apart from the
    // temporary name.
    ensures named { has_name result ≡ true → F.holds folder.new (F.Name.text name.now)
        ≡ File bytes.now }
    ensures not_named { has_name result ≡ false
        → F.apart folder.old (F.Name.text name.now) (F.Name.text temporary.now) ≡ true
        → F.holds folder.new (F.Name.text name.now) ≡ F.holds folder.old (F.Name.text name.now) }
    // Each other name leads to what it led to before.
    ensures others { SameWhere (λ n. F.apart folder.old n (F.Name.text temporary.now)
        && F.apart folder.old n (F.Name.text name.now)) (F.holds folder.old) (F.holds folder.new) }
    // A crash at any moment of the call leaves under the name, if it is apart from the temporary name, what it might have
    // left before, or the whole new file.
    ensures any_moment { LeavesOnly F.moment F.left_since folder.old folder.new
        (Replaces (F.apart folder.old) (F.may_leave folder.old) (F.Name.text temporary.now)
        (F.Name.text name.now)
        (Some bytes.now)) }
    // A crash after the call leaves the whole new file.
    ensures kept { OnOk result ((c : Entry) → F.may_leave folder.new (F.Name.text name.now) c
        → c ≡ File bytes.now) }
    ensures none { F.making folder.new ≡ None }
    // It doesn't give up by itself.
    ensures refused { IfErr result (λ fault. HasCause (refusal_of_name fault)
        ((F.holds folder.old (F.Name.text temporary.now) ≢ Nothing)
        ⊎ (F.can_refuse ⊎ F.writes_can_fail))) }
{
    let mut new = match folder.create(alloc, reports, temporary) {
        Ok(new) => new,
        Err(why) => return Err(NameFault::NotNamed(why)),
    };
    if let Err(DeviceFault) = send(&mut new, bytes) {
        folder.discard(new);
        return Err(NameFault::NotNamed(Refusal::Refused));
    }
    take_name(folder, alloc, new, temporary, name)
}
