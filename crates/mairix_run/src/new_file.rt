//! The file that a run makes.
ghost use Rattle.std.specs.Prelude.{◌≡◌, ◌≢◌, ◌⊎◌, ◌<◌, ◌-◌, ◌^◌, ◌++◌, ◌&&◌, if◌then◌else◌, ℕ, true, false, List, [], None, Some, codes, is_ok, string_bytes, IfOk, IfErr, OnOk, OnErr};
ghost use Rattle.std.specs.Result.{MatchResult};
ghost use Rattle.named_files.specs.Crashes.{LeavesOnly};
ghost use Rattle.named_files.specs.OtherNames.{LeavesAloneThroughout};
ghost use Rattle.named_files.specs.Refusals.{HasCause, refusal_of_name};
ghost use Rattle.named_files.specs.AddedReports.{AddsReports};
ghost use Rattle.named_files.specs.TakingNames.{Replaces};
ghost use Rattle.mairix_run.specs.OldIndexes.{IsNotReplaced};
ghost use Rattle.mairix_run.specs.MadeFiles.{IsNotMade, IsRefusal, IsSettled, LeadToOldOrNew, LeadsForGood, MakesFile, MayBeMade, fault_of_refusal, SettlesFile, is_final_name, is_open_to, is_special, taken_name, unfit_name};
ghost use Rattle.mairix_run.specs.ReadFiles.{are_all_apart as are_all_apart_from, names_read};
ghost use Rattle.run_faults.specs.declared.fault.Fault.TheVariants.{Out};

use crate::file_names::NewNames;
use crate::read_names::{ReadNames, are_all_apart};
use crate::stopped::Stopped;
use named_files::{FileName, Folder, Look, NameFault, Refusal, clear_leftover, take_name};
use run_faults::Fault;
use std::alloc::{AllocError, Global};

/// Returns the name that a file has until it is whole.
pub fn temporary_name(alloc: Global, name: &str) -> Result<String, AllocError>
    ensures { IfOk result (λ temporary. string_bytes temporary ≡ name.now ++ codes ".new") }
{
    format!(in alloc; "{name}.new")
}

/// Makes a new file that is to have a name, under a temporary name.
///
/// # Errors
///
/// `CannotOpen`, with nothing touched, if the name has no last part, or ends with `.new`; if another file under one of both
/// names would change one that the run reads; if another file under the temporary name would change what the name leads to; and if the name
/// leads to a device, a pipe or a socket, or the system doesn't show what it leads to. The same, with at most what a
/// killed run left removed, if no file can be made under the temporary name: another run is making its own there, or
/// anything is there that no killed run left, or the system refuses. Otherwise lack of memory.
#[tactic(auto, using(crate::proofs::MadeFiles::apart_of_fit, crate::proofs::MadeFiles::refused_unfit, crate::proofs::MadeFiles::refused_special, crate::proofs::MadeFiles::refused_temporary))]
pub fn create_file<F: Folder>(
    folder: &mut F,
    alloc: Global,
    reports: &mut F::Reports,
    names: &NewNames<F::Name>,
    read: &ReadNames<'_, F::Name>,
) -> Result<F::New, Stopped>
    requires { F.making folder.old ≡ None }
    // A file is made only if neither name is refused.
    ensures serves { OnOk result (F.agree reports.new ≡ true
        → MayBeMade (F.holds folder.old) (F.apart folder.old) (F.is_leftover folder.old)
        (names_read F.Name.text read.now) (F.Name.text names.now.temporary)
        (F.Name.text names.now.name)) }
    // It doesn't give up by itself, and names the path that is refused.
    ensures refused { IfErr result (λ stopped. F.agree reports.new ≡ true → IsNotMade
        (unfit_name (F.apart folder.old) (names_read F.Name.text read.now)
        (F.Name.text names.now.temporary) (F.Name.text names.now.name))
        (taken_name (F.holds folder.old) (F.is_leftover folder.old)
        (F.Name.text names.now.temporary) (F.Name.text names.now.name))
        (F.Name.text names.now.temporary) (F.Name.text names.now.name) F.can_refuse folder.old
        folder.new stopped) }
    ensures empty { IfOk result (λ new. (F.New.taken new ≡ Some []) × (F.New.failures new ≡ 0)) }
    ensures making { MatchResult result
        (λ _. F.making folder.new ≡ Some (F.Name.text names.now.temporary))
        (λ _. F.making folder.new ≡ None) }
    // Each other name is left alone at any moment of the call.
    ensures others { LeavesAloneThroughout F.apart F.holds F.may_leave F.moment F.left_since
        (λ n. F.apart folder.old n (F.Name.text names.now.temporary)) folder.old folder.new }
    // Without a file each name leads to what it led to before, but for what a killed run left.
    ensures stays { OnErr result (F.is_leftover folder.old (F.Name.text names.now.temporary) ≡ false
        → (n : List ℕ) → F.holds folder.new n ≡ F.holds folder.old n) }
    ensures calls { MakesFile F.removes F.creates (F.Name.text names.now.temporary) (is_ok result)
        folder.old folder.new }
    ensures reports { AddsReports F.Folder reports.old reports.new }
{
    if let Err(stopped) = check_names(folder, alloc, reports, names, read) {
        return Err(stopped);
    }
    if let Err(stopped) = check_not_special(folder, alloc, reports, &names.name) {
        return Err(stopped);
    }
    match make_file(folder, alloc, reports, &names.temporary) {
        Ok(new) => Ok(new),
        Err(Refusal::Memory) => Err(Stopped::Fault(Fault::Memory)),
        Err(Refusal::Refused) => Err(Stopped::cannot_open(alloc, names.temporary.as_str())),
    }
}

/// Refuses a name that can't be that of a complete file, and names whose use would change a file that the run reads, or
/// before the new file is complete what its name leads to.
fn check_names<F: Folder>(
    folder: &F,
    alloc: Global,
    reports: &mut F::Reports,
    names: &NewNames<F::Name>,
    read: &ReadNames<'_, F::Name>,
) -> Result<(), Stopped>
    ensures ok { OnOk result (F.agree reports.new ≡ true
        → unfit_name (F.apart folder.now) (names_read F.Name.text read.now)
        (F.Name.text names.now.temporary) (F.Name.text names.now.name) ≡ None) }
    ensures err { IfErr result (λ stopped. F.agree reports.new ≡ true → IsRefusal
        (unfit_name (F.apart folder.now) (names_read F.Name.text read.now)
        (F.Name.text names.now.temporary) (F.Name.text names.now.name))
        None (F.Name.text names.now.temporary) (F.Name.text names.now.name) ⊥ stopped) }
    ensures reports { AddsReports F.Folder reports.old reports.new }
{
    if !is_final_name(names.name.as_str()) {
        return Err(Stopped::cannot_open(alloc, names.name.as_str()));
    }
    let are_apart = are_all_apart(folder, alloc, reports, read, &names.name)?;
    if !are_apart {
        return Err(Stopped::cannot_open(alloc, names.name.as_str()));
    }
    let is_apart = is_temporary_apart(folder, alloc, reports, names, read)?;
    if !is_apart {
        return Err(Stopped::cannot_open(alloc, names.temporary.as_str()));
    }
    Ok(())
}

/// Whether a file can take a temporary name without changing one that the run reads, or what the name leads to.
fn is_temporary_apart<F: Folder>(
    folder: &F,
    alloc: Global,
    reports: &mut F::Reports,
    names: &NewNames<F::Name>,
    read: &ReadNames<'_, F::Name>,
) -> Result<bool, AllocError>
    ensures exact { IfOk result (λ is. F.agree reports.new ≡ true
        → is ≡ (are_all_apart_from (F.apart folder.now) (names_read F.Name.text read.now)
        (F.Name.text names.now.temporary)
        && F.apart folder.now (F.Name.text names.now.name) (F.Name.text names.now.temporary))) }
    ensures reports { AddsReports F.Folder reports.old reports.new }
{
    let are_apart = are_all_apart(folder, alloc, reports, read, &names.temporary)?;
    if !are_apart {
        return Ok(false);
    }
    folder.is_apart(alloc, reports, &names.name, &names.temporary)
}

/// Whether a name can be that of a complete file. The temporary name of another one can't: a run whose file is to have that
/// name would take this one for what a killed run left.
#[tactic(auto, using(crate::proofs::MadeFiles::ends_as_text))]
fn is_final_name(name: &str) -> bool
    ensures { result ≡ is_final_name name.now }
{
    !name.is_empty() && !name.ends_with("/") && !name.ends_with(".new")
}

/// Checks that a name doesn't lead to a device, a pipe or a socket. It is refused too if the system doesn't show what it
/// leads to.
fn check_not_special<F: Folder>(
    folder: &F,
    alloc: Global,
    reports: &mut F::Reports,
    name: &F::Name,
) -> Result<(), Stopped>
    ensures ok { OnOk result (F.agree reports.new ≡ true
        → is_special (F.holds folder.now (F.Name.text name.now)) ≡ false) }
    ensures err { IfErr result (λ stopped. F.agree reports.new ≡ true
        → IsNotReplaced (F.Name.text name.now)
        ((is_special (F.holds folder.now (F.Name.text name.now)) ≡ true) ⊎ F.can_refuse) stopped) }
    ensures reports { AddsReports F.Folder reports.old reports.new }
{
    match folder.look(alloc, reports, name) {
        Ok(Look::Other) => Err(Stopped::cannot_open(alloc, name.as_str())),
        Ok(_) => Ok(()),
        Err(Refusal::Refused) => Err(Stopped::cannot_open(alloc, name.as_str())),
        Err(Refusal::Memory) => Err(Stopped::Fault(Fault::Memory)),
    }
}

/// Makes a new file under a name, after what a killed run left there was removed.
#[tactic(auto, using(crate::proofs::MadeFiles::makes_file, crate::proofs::MadeFiles::makes_none))]
fn make_file<F: Folder>(
    folder: &mut F,
    alloc: Global,
    reports: &mut F::Reports,
    name: &F::Name,
) -> Result<F::New, Refusal>
    requires { F.making folder.old ≡ None }
    ensures free { OnOk result (F.agree reports.new ≡ true
        → is_open_to (F.holds folder.old) (F.is_leftover folder.old) (F.Name.text name.now)
        ≡ true) }
    ensures refused { IfErr result (λ why. F.agree reports.new ≡ true → HasCause why
        ((is_open_to (F.holds folder.old) (F.is_leftover folder.old) (F.Name.text name.now) ≡ false)
        ⊎ F.can_refuse)) }
    ensures empty { IfOk result (λ new. (F.New.taken new ≡ Some []) × (F.New.failures new ≡ 0)) }
    ensures making { MatchResult result (λ _. F.making folder.new ≡ Some (F.Name.text name.now))
        (λ _. F.making folder.new ≡ None) }
    ensures others { LeavesAloneThroughout F.apart F.holds F.may_leave F.moment F.left_since
        (λ n. F.apart folder.old n (F.Name.text name.now)) folder.old folder.new }
    ensures stays { OnErr result (F.is_leftover folder.old (F.Name.text name.now) ≡ false
        → (n : List ℕ) → F.holds folder.new n ≡ F.holds folder.old n) }
    ensures calls { MakesFile F.removes F.creates (F.Name.text name.now) (is_ok result) folder.old
        folder.new }
    ensures reports { AddsReports F.Folder reports.old reports.new }
{
    if let Err(why) = clear_leftover(folder, alloc, reports, name) {
        return Err(why);
    }
    folder.create(alloc, reports, name)
}

/// Gives a file its name if all of it was written, and returns the status; otherwise removes it, and returns the fault of
/// the run. If the name can't be given or brought to the disk, the output has failed, or memory ran out.
#[tactic(auto, using(crate::proofs::MadeFiles::fails_to_take))]
pub fn settle_file<F: Folder>(
    folder: &mut F,
    alloc: Global,
    new: F::New,
    names: &NewNames<F::Name>,
    written: Result<u8, Fault>,
) -> Result<u8, Fault>
    requires making { F.making folder.old ≡ Some (F.Name.text names.now.temporary) }
    requires count { F.New.failures new < 2 ^ 64 - 1 }
    ensures status { IsSettled written result }
    // The output fails only with a cause.
    ensures refused { OnOk written (IfErr result (λ fault. fault ≡ Out
        → F.can_refuse ⊎ F.writes_can_fail)) }
    // With a status, the name leads to all that was written, also after a crash.
    ensures named { OnOk result (LeadsForGood (F.holds folder.new (F.Name.text names.now.name))
        (F.may_leave folder.new (F.Name.text names.now.name)) (F.New.taken new)) }
    // After a fault of the run, each name that is apart from the temporary name is left alone, also the name itself.
    ensures not_named { OnErr written (LeavesAloneThroughout F.apart F.holds F.may_leave F.moment
        F.left_since (λ n. F.apart folder.old n (F.Name.text names.now.temporary)) folder.old
        folder.new) }
    // If only the output failed, the name leads to what it led to before, or to all that was written. Each other name
    // leads to what it led to before.
    ensures others { LeadToOldOrNew (F.apart folder.old) (F.Name.text names.now.temporary)
        (F.Name.text names.now.name) (F.New.taken new)
        (F.holds folder.old) (F.holds folder.new) }
    // A crash at any moment of the call leaves under the name what it might have left before, or the whole new file.
    ensures any_moment { LeavesOnly F.moment F.left_since folder.old folder.new
        (Replaces (F.apart folder.old) (F.may_leave folder.old) (F.Name.text names.now.temporary)
        (F.Name.text names.now.name)
        (F.New.taken new)) }
    ensures none { F.making folder.new ≡ None }
    ensures calls { SettlesFile F.renames F.syncs F.discards (F.Name.text names.now.name) written
        result folder.old
        folder.new }
{
    let status = match written {
        Ok(status) => status,
        Err(fault) => {
            folder.discard(new);
            return Err(fault);
        }
    };
    match take_name(folder, alloc, new, &names.temporary, &names.name) {
        Ok(()) => Ok(status),
        Err(fault) => Err(fault_of_name(fault)),
    }
}

/// Returns the fault of a run whose file doesn't have its name for good.
fn fault_of_name(fault: NameFault) -> Fault
    ensures { result ≡ fault_of_refusal (refusal_of_name fault) }
{
    match fault {
        NameFault::NotNamed(Refusal::Memory) | NameFault::NotSynced(Refusal::Memory) =>
            Fault::Memory,
        _ => Fault::Out,
    }
}
