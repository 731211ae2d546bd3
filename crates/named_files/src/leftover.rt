//! What a killed run left under the name of a new file.
ghost use Rattle.std.specs.Prelude.{◌≡◌, ◌≢◌, ◌⊎◌, ℕ, true, false, List, is_ok, IfErr, OnOk, OnErr};
ghost use Rattle.named_files.specs.Entries.{Nothing};
ghost use Rattle.named_files.specs.OtherNames.{LeavesAloneThroughout};
ghost use Rattle.named_files.specs.Refusals.{HasCause};
ghost use Rattle.named_files.specs.AddedReports.{AddsReports};

use crate::folder::Folder;
use crate::refusal::Refusal;
use std::alloc::Global;

/// Removes what a killed run left under a name, so that nothing has the name. Does nothing if nothing has it.
///
/// # Errors
///
/// `Refused` if anything else has the name, which stays, or if the system refuses; `Memory` if memory runs out. Nothing
/// is removed then.
pub fn clear_leftover<F: Folder>(
    folder: &mut F,
    alloc: Global,
    reports: &mut F::Reports,
    name: &F::Name,
) -> Result<(), Refusal>
    ensures free { OnOk result (F.agree reports.new ≡ true
        → F.holds folder.new (F.Name.text name.now) ≡ Nothing) }
    ensures reports { AddsReports F.Folder reports.old reports.new }
    // What is removed was left by a killed run.
    ensures only_leftover { F.is_leftover folder.old (F.Name.text name.now) ≡ false → folder.new
        ≡ folder.old }
    // A crash at any moment of the call leaves under each other name what it might have left before.
    ensures others { LeavesAloneThroughout F.apart F.holds F.may_leave F.moment F.left_since
        (λ n. F.apart folder.old n (F.Name.text name.now)) folder.old folder.new }
    ensures stays { OnErr result ((n : List ℕ) → F.holds folder.new n ≡ F.holds folder.old n) }
    ensures making { F.making folder.new ≡ F.making folder.old }
    // One call removes it, and no other call changes anything.
    ensures calls { (folder.new ≡ folder.old)
        ⊎ F.removes folder.old (F.Name.text name.now) (is_ok result) folder.new }
    // It doesn't give up by itself.
    ensures refused { IfErr result (λ why. HasCause why
        (((F.holds folder.old (F.Name.text name.now) ≢ Nothing)
        × (F.is_leftover folder.old (F.Name.text name.now) ≡ false))
        ⊎ F.can_refuse)) }
{
    match folder.find_leftover(alloc, reports, name)? {
        Some(left) => folder.remove_leftover(alloc, left),
        None => Ok(()),
    }
}
