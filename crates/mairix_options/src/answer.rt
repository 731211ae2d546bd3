//! The form of an answer, and the file that it goes to.
ghost use Rattle.std.specs.Prelude.{◌≡◌, IfOk};
ghost use Rattle.mairix_options.specs.AnswerFiles.{answer_format, answer_file};

use crate::command_line::Plan;
use crate::mail_format::MailFormat;
use crate::owned_text::Text;
use crate::path::mfolder_path;
use crate::rcfile::Rc;
use std::alloc::{AllocError, Global};

/// Returns the form of the answer. `-r` and `-x` override the rcfile's `mformat`.
pub fn answer_format(plan: &Plan, rc: &Rc) -> MailFormat
    ensures { result ≡ answer_format plan.now rc.now }
{
    if plan.raw {
        return MailFormat::Raw;
    }
    if plan.excerpt {
        return MailFormat::Excerpt;
    }
    rc.format
}

/// Returns the path of the file that the answer goes to, or None for standard output.
///
/// Raw lines and excerpts go to standard output, and so does an mbox with `--stdout`. Any other mbox goes to the file
/// of `-o`, or to the rcfile's `mfolder` if there is no `-o`. The name of `-o` is under the rcfile's base if it begins
/// with neither `/` nor `.`. It isn't checked: the result may be too long for a path, or have an LF.
pub fn answer_file(alloc: Global, plan: &Plan, rc: &Rc) -> Result<Option<Text>, AllocError>
    ensures { IfOk result (λ file. file ≡ answer_file plan.now rc.now) }
{
    if plan.stdout || !matches!(answer_format(plan, rc), MailFormat::Mbox) {
        return Ok(None);
    }
    let file = match &plan.mfolder {
        Some(name) => mfolder_path(alloc, &rc.base, name.as_str()),
        None => Text::new(alloc, rc.mfolder.as_str()),
    };
    file.map(Some)
}
