//! Checks names of files, and puts them under the rcfile's base.
ghost use Rattle.std.specs.Prelude.{◌≡◌, ◌++◌, map, IfOk, OnOk, string_bytes};
ghost use Rattle.std.specs.List.{list_all};
ghost use Rattle.mairix_options.specs.Path.{is_path, has_expansion, has_wildcard, under, archive_path, mfolder_path};

use crate::owned_text::{Text, Texts};
use memchr::{memchr, memchr3};
use std::alloc::{AllocError, Global};

/// Returns whether a text can name a file: it has 1 to 4,096 bytes, none of them LF or NUL. An index asks the same of
/// an archive's path.
pub(crate) fn is_path(text: &str) -> bool
    ensures { result ≡ is_path text.now }
{
    mail_index::is_path(text)
}

/// Returns whether each of the texts can name a file.
#[tactic(auto, using(crate::proofs::Searches::list_all_map))]
pub(crate) fn all_are_paths(texts: &Texts) -> bool
    ensures { result ≡ list_all is_path texts.now }
{
    are_paths(texts.as_slice())
}

fn are_paths(texts: &[String]) -> bool
    ensures { result ≡ list_all (λ text. is_path (string_bytes text)) texts.now }
{
    texts.iter().all(|text| is_path(text.as_str()))
}

/// Returns whether a shell would expand the text: it has a `$` anywhere, or a `~` at the front.
pub(crate) fn has_expansion(text: &str) -> bool
    ensures { result ≡ has_expansion text.now }
{
    memchr(b'$', text.as_bytes()).is_some() || text.starts_with("~")
}

/// Returns whether the text is a pattern for several names: it has `*`, `?`, `[` or `...` anywhere.
pub(crate) fn has_wildcard(text: &str) -> bool
    ensures { result ≡ has_wildcard text.now }
{
    memchr3(b'*', b'?', b'[', text.as_bytes()).is_some() || text.contains("...")
}

/// Appends the paths of these archives. A name that doesn't begin with `/` is put under the base, if there is one.
pub(crate) fn add_archive_paths(
    alloc: Global,
    paths: &mut Texts,
    base: &Option<Text>,
    names: &Texts,
) -> Result<(), AllocError>
    ensures { OnOk result (paths.new ≡ paths.old ++ map (archive_path base.now) names.now) }
{
    let written = names.as_slice();
    for name in written {
        let name = name.as_str();
        let path = under(alloc, base, name.starts_with("/"), name)?;
        paths.add(path)?;
    }
    Ok(())
}

/// Returns whether the paths of these archives under the base can name files.
pub(crate) fn archives_fit(
    alloc: Global,
    base: &Option<Text>,
    names: &Texts,
) -> Result<bool, AllocError>
    ensures { IfOk result (λ fit. fit ≡ list_all is_path
        (map (archive_path base.now) names.now)) }
{
    let mut paths = Texts::new(alloc);
    add_archive_paths(alloc, &mut paths, base, names)?;
    Ok(all_are_paths(&paths))
}

/// Returns the path of an `mfolder`. A name that begins with neither `/` nor `.` is put under the base, if there is
/// one.
pub(crate) fn mfolder_path(
    alloc: Global,
    base: &Option<Text>,
    name: &str,
) -> Result<Text, AllocError>
    ensures { IfOk result (λ path. path ≡ mfolder_path base.now name.now) }
{
    let is_own = name.starts_with("/") || name.starts_with(".");
    under(alloc, base, is_own, name)
}

/// Returns whether the path of an `mfolder` under the base can name a file.
pub(crate) fn mfolder_fits(
    alloc: Global,
    base: &Option<Text>,
    name: &str,
) -> Result<bool, AllocError>
    ensures { IfOk result (λ fits. fits ≡ is_path (mfolder_path base.now name.now)) }
{
    let path = mfolder_path(alloc, base, name)?;
    Ok(is_path(path.as_str()))
}

fn under(
    alloc: Global,
    base: &Option<Text>,
    as_written: bool,
    name: &str,
) -> Result<Text, AllocError>
    ensures { IfOk result (λ path. path ≡ under base.now as_written name.now) }
{
    match base {
        Some(base) if !as_written => {
            let base = base.as_str();
            let path = format!(in alloc; "{base}/{name}")?;
            Ok(Text::of(path))
        }
        _ => Text::new(alloc, name),
    }
}
