//! The names of the files of a run.
ghost use Rattle.std.specs.Prelude.{◌≡◌, ◌++◌, Some, codes, map, string_bytes, IfOk};
ghost use Rattle.std.specs.Option.{option_map, ForSome};
ghost use Rattle.mairix_run.specs.AskedNames.{AsksFor};
ghost use Rattle.mairix_run.specs.NamesUsed.{both_names, file_asked, names_given};

use crate::new_file::temporary_name;
use crate::program::is_index_run;
use crate::run_files::RunFiles;
use mairix_options::{Plan, Rc, answer_file};
use named_files::Folder;
use std::alloc::AllocError;

/// The names of the files that words and rcfile give to a run. The rcfile's own isn't among them.
#[derive(Drop)]
pub(crate) struct FileNames<N: Drop> {
    /// The archives' names, in the rcfile's order.
    pub(crate) archives: Vec<N>,
    /// The index's name.
    pub(crate) database: N,
    /// The names of the file that is made, if one is.
    pub(crate) file: Option<NewNames<N>>,
}

/// The names of a file that is made.
#[derive(Drop)]
pub struct NewNames<N: Drop> {
    /// Its own name.
    pub name: N,
    /// The name that it has until it is whole.
    pub temporary: N,
}

/// Makes the names of the files that words and rcfile give.
#[tactic(auto, using(crate::proofs::AskedNames::given_archives))]
pub(crate) fn names_of_files<F: Folder>(
    files: &RunFiles<F>,
    names: &mut F::Names,
    plan: &Plan,
    rc: &Rc,
) -> Result<FileNames<F::Name>, AllocError>
    ensures archives { IfOk result (λ made. map F.Name.text made.archives.items
        ≡ rc.now.paths) }
    ensures database { IfOk result (λ made. F.Name.text made.database ≡ rc.now.database) }
    ensures file { IfOk result (λ made. option_map (λ new. F.Name.text new.name) made.file
        ≡ file_asked plan.now rc.now) }
    ensures temporary { IfOk result (λ made. ForSome made.file (λ new.
        F.Name.text new.temporary ≡ F.Name.text new.name ++ codes ".new")) }
    ensures asked { AsksFor (names_given plan.now rc.now) (F.agree files.now.reports)
        (F.made names.old) (F.made names.new) }
{
    let archives = names_of(files, names, rc.paths.as_slice())?;
    let database = files
        .folder
        .name(files.alloc, names, &files.reports, rc.database.as_str())?;
    let file = names_of_file(files, names, plan, rc)?;
    Ok(FileNames {
        archives,
        database,
        file,
    })
}

/// Makes names of these texts, in order.
fn names_of<F: Folder>(
    files: &RunFiles<F>,
    names: &mut F::Names,
    texts: &[String],
) -> Result<Vec<F::Name>, AllocError>
    ensures text { IfOk result (λ v. map F.Name.text v.items ≡ map string_bytes texts.now) }
    ensures asked { AsksFor (map string_bytes texts.now) (F.agree files.now.reports)
        (F.made names.old) (F.made names.new) }
{
    let mut made = Vec::with_capacity(files.alloc, texts.len())?;
    for text in texts {
        let name = files
            .folder
            .name(files.alloc, names, &files.reports, text.as_str())?;
        made.push(name)?;
    }
    Ok(made)
}

/// Makes both names of a file.
#[tactic(auto, using(crate::proofs::AskedNames::asks_none))]
fn names_of_new<F: Folder>(
    files: &RunFiles<F>,
    names: &mut F::Names,
    name: &str,
) -> Result<NewNames<F::Name>, AllocError>
    ensures name { IfOk result (λ new. F.Name.text new.name ≡ name.now) }
    ensures temporary { IfOk result (λ new. F.Name.text new.temporary
        ≡ F.Name.text new.name ++ codes ".new") }
    ensures asked { AsksFor (both_names (Some name.now)) (F.agree files.now.reports)
        (F.made names.old) (F.made names.new) }
{
    let temporary = temporary_name(files.alloc, name)?;
    let name = files.folder.name(files.alloc, names, &files.reports, name)?;
    let temporary = files
        .folder
        .name(files.alloc, names, &files.reports, temporary.as_str())?;
    Ok(NewNames { name, temporary })
}

/// Makes both names of the file that a run makes: of the index, or of the answer. Returns None if the answer goes to
/// standard output.
#[tactic(auto, using(crate::proofs::AskedNames::asks_none))]
fn names_of_file<F: Folder>(
    files: &RunFiles<F>,
    names: &mut F::Names,
    plan: &Plan,
    rc: &Rc,
) -> Result<Option<NewNames<F::Name>>, AllocError>
    ensures name { IfOk result (λ file. option_map (λ new. F.Name.text new.name) file
        ≡ file_asked plan.now rc.now) }
    ensures temporary { IfOk result (λ file. ForSome file (λ new.
        F.Name.text new.temporary ≡ F.Name.text new.name ++ codes ".new")) }
    ensures asked { AsksFor (both_names (file_asked plan.now rc.now)) (F.agree files.now.reports)
        (F.made names.old) (F.made names.new) }
{
    if is_index_run(plan) {
        let new = names_of_new(files, names, rc.database.as_str())?;
        return Ok(Some(new));
    }
    match answer_file(files.alloc, plan, rc)? {
        Some(name) => {
            let new = names_of_new(files, names, name.as_str())?;
            Ok(Some(new))
        }
        None => Ok(None),
    }
}
