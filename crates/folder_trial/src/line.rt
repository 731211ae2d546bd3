//! A line of a script.

/// A line of a script, in its parts. A part that it hasn't is empty.
#[derive(Clone, Copy)]
pub(crate) struct Line<'t> {
    pub(crate) verb: &'t str,
    pub(crate) name: &'t str,
    /// What comes after the first name: another name, bytes, or a number.
    pub(crate) rest: &'t str,
}

impl<'t> Line<'t> {
    /// Parts a line at its first two spaces.
    pub(crate) fn of(text: &'t str) -> Line<'t> {
        let (verb, after) = parted(text);
        let (name, rest) = parted(after);
        Line { verb, name, rest }
    }

    /// Returns the second name, and what comes after it.
    pub(crate) fn other(&self) -> (&'t str, &'t str) {
        parted(self.rest)
    }
}

/// Returns what is before the first space, and what is after it.
fn parted(text: &str) -> (&str, &str) {
    text.split_once(' ').unwrap_or((text, ""))
}
