//! The form of an answer.
ghost use Rattle.std.specs.Prelude.{◌≡◌};
ghost use Rattle.mairix_options.specs.Rcfile.{format_of};

/// The form of an answer.
#[derive(Clone, Copy)]
pub enum MailFormat {
    /// An mbox of the messages.
    Mbox,
    /// A line for each message: offset, length and path.
    Raw,
    /// For each message its archive's path and its main header lines.
    Excerpt,
}

impl MailFormat {
    pub(crate) fn of(value: &str) -> Option<MailFormat>
        ensures { result ≡ format_of value.now }
    {
        match value {
            "mbox" => Some(MailFormat::Mbox),
            "raw" => Some(MailFormat::Raw),
            "excerpt" => Some(MailFormat::Excerpt),
            _ => None,
        }
    }
}
