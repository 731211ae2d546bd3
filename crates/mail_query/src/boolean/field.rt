//! The prefixes of the boolean language, and sets of them.
ghost use Rattle.std.specs.Prelude.{◌≡◌};
ghost use Rattle.mail_query.specs.BooleanTerms as terms;

/// A prefix of a term.
#[derive(Clone, Copy)]
pub(crate) enum Field {
    From,
    To,
    Subject,
    Body,
    Id,
    Date,
}

/// Each prefix with its name.
const NAMES: [(&str, Field); 6] = [
    ("from", Field::From),
    ("to", Field::To),
    ("subject", Field::Subject),
    ("body", Field::Body),
    ("id", Field::Id),
    ("date", Field::Date),
];

/// Returns the prefix with this name. Names are in lower case.
pub(crate) fn field_of(name: &str) -> Option<Field>
    ensures { result ≡ terms.field_of name.now }
{
    for (known, field) in &NAMES {
        if name == *known {
            return Some(*field);
        }
    }
    None
}

/// A set of prefixes.
#[derive(Clone, Copy)]
pub(crate) struct Fields {
    from: bool,
    to: bool,
    subject: bool,
    body: bool,
    id: bool,
    date: bool,
}

impl Fields {
    ghost use Rattle.mail_query.specs.BooleanTerms.{has_field, with_field};

    pub(crate) const NONE: Fields = Fields {
        from: false,
        to: false,
        subject: false,
        body: false,
        id: false,
        date: false,
    };

    /// Returns whether the prefix is in the set, and false if there is none.
    pub(crate) fn has(self, prefix: Option<Field>) -> bool
        ensures { result ≡ has_field self prefix }
    {
        match prefix {
            None => false,
            Some(Field::From) => self.from,
            Some(Field::To) => self.to,
            Some(Field::Subject) => self.subject,
            Some(Field::Body) => self.body,
            Some(Field::Id) => self.id,
            Some(Field::Date) => self.date,
        }
    }

    /// Returns the set with this prefix added, if there is one.
    pub(crate) fn with(mut self, prefix: Option<Field>) -> Fields
        ensures { result ≡ with_field prefix self }
    {
        match prefix {
            None => {}
            Some(Field::From) => self.from = true,
            Some(Field::To) => self.to = true,
            Some(Field::Subject) => self.subject = true,
            Some(Field::Body) => self.body = true,
            Some(Field::Id) => self.id = true,
            Some(Field::Date) => self.date = true,
        }
        self
    }
}
