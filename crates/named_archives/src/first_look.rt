//! The states in which the files of some names are found first.
ghost use Rattle.std.specs.Prelude.{◌≡◌, ◌⊎◌, ◌<◌, ◌+◌, ◌&&◌, ◌∷◌, ◌++◌, List, true, Some, None, length, take, is_some, IfOk, IfErr, OnOk, vec_len, slice_get};
ghost use Rattle.std.specs.List.{list_all};
ghost use Rattle.named_files.specs.Entries.{bytes_of};
ghost use Rattle.named_files.specs.Refusals.{HasCause};
ghost use Rattle.named_files.specs.AddedReports.{AddsReports};
ghost use Rattle.named_archives.specs.Names.{files_of};
ghost use Rattle.named_archives.specs.States.{AreStatesOf, IsStateOf, noted_states};

use named_files::{Folder, KeptFile, Refusal};
use std::alloc::Global;

/// A file of which no state could be taken.
#[derive(Clone, Copy, Debug)]
pub struct Unopened {
    /// The number of its name, from 0.
    pub number: usize,
    /// Why it couldn't be opened, or why its state couldn't be read.
    pub why: Refusal,
}

/// Returns the state of the file of each name, in order. One file is open at a time, and is given back.
///
/// # Errors
///
/// The first name whose file can't be opened, or whose state can't be taken, with the reason; `Memory` if memory runs
/// out. No file after it is opened.
pub fn first_states<F: Folder>(
    folder: &F,
    alloc: Global,
    reports: &mut F::Reports,
    names: &[F::Name],
) -> Result<Vec<<F::File as KeptFile>::State>, Unopened>
    ensures states { IfOk result (λ v. AreStatesOf F.File.state_found F.File.rest
        (files_of F.Name.text (F.holds folder.now) names.now) v.items) }
    ensures count { IfOk result (λ v. vec_len v ≡ length names.now) }
    // If all reports agree, each name leads to a file.
    ensures noted { OnOk result (F.agree reports.new ≡ (F.agree reports.old
        && list_all (λ file. is_some file) (files_of F.Name.text (F.holds folder.now) names.now))) }
    // What is noted of the files is that they were found in these states, and no other file was given back.
    ensures found { IfOk result (λ v. F.found reports.new
        ≡ noted_states v.items ++ F.found reports.old) }
    ensures reports { AddsReports F.Folder reports.old reports.new }
    ensures refused { IfErr result (λ e. (e.number < length names.now) × HasCause e.why
        ((slice_get (files_of F.Name.text (F.holds folder.now) names.now) e.number ≡ Some None)
        ⊎ F.can_refuse ⊎ F.reads_can_fail)) }
    // What is reported is of the files before it, and maybe of its own.
    ensures opened { IfErr result (λ e.
        (F.agree reports.new ≡ (F.agree reports.old && list_all (λ file. is_some file)
        (files_of F.Name.text (F.holds folder.now) (take e.number names.now))))
        ⊎ (F.agree reports.new ≡ (F.agree reports.old && list_all (λ file. is_some file)
        (files_of F.Name.text (F.holds folder.now) (take (e.number + 1) names.now))))) }
{
    let mut states = Vec::new(alloc);
    for (number, name) in names.iter().enumerate() {
        let state = match first_state(folder, alloc, reports, name) {
            Ok(state) => state,
            Err(why) => return Err(Unopened { number, why }),
        };
        if states.push(state).is_err() {
            let why = Refusal::Memory;
            return Err(Unopened { number, why });
        }
    }
    Ok(states)
}

/// Opens a file, takes its state, and gives it back.
fn first_state<F: Folder>(
    folder: &F,
    alloc: Global,
    reports: &mut F::Reports,
    name: &F::Name,
) -> Result<<F::File as KeptFile>::State, Refusal>
    ensures state { IfOk result (λ state. IsStateOf F.File.state_found F.File.rest
        (bytes_of (F.holds folder.now (F.Name.text name.now))) state) }
    ensures noted { OnOk result (F.agree reports.new ≡ (F.agree reports.old
        && is_some (bytes_of (F.holds folder.now (F.Name.text name.now))))) }
    ensures opened { (F.agree reports.new ≡ F.agree reports.old)
        ⊎ (F.agree reports.new ≡ (F.agree reports.old
        && is_some (bytes_of (F.holds folder.now (F.Name.text name.now))))) }
    ensures found { IfOk result (λ state. F.found reports.new ≡ Some state ∷ F.found reports.old) }
    ensures reports { AddsReports F.Folder reports.old reports.new }
    ensures refused { IfErr result (λ why. HasCause why
        ((bytes_of (F.holds folder.now (F.Name.text name.now)) ≡ None) ⊎ F.can_refuse
        ⊎ F.reads_can_fail)) }
{
    let mut file = folder.open(alloc, name)?;
    let state = file.state();
    folder.take_back(reports, file);
    match state {
        Ok(state) => Ok(state),
        Err(_) => Err(Refusal::Refused),
    }
}
