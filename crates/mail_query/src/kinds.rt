//! Sets of the kinds of text in which a query looks for a word.
ghost use Rattle.std.specs.Prelude.{◌≡◌};

use mail_words::TextKind;

/// A set of places to look in: the seven kinds of text, and a message's own id.
#[derive(Clone, Copy, PartialEq, Eq)]
pub struct Kinds {
    pub to: bool,
    pub cc: bool,
    pub bcc: bool,
    pub from: bool,
    pub subject: bool,
    pub body: bool,
    pub name: bool,
    pub own_id: bool,
}

/// Makes the set with these fields of `Kinds`.
macro_rules! kinds {
    ($($kind:ident),*) => {
        {
            let mut kinds = Kinds::NONE;
            $(kinds.$kind = true;)*
            kinds
        }
    };
}

pub(crate) use kinds;

impl Kinds {
    ghost use Rattle.mail_query.specs.Kinds.{has_kind};

    /// The empty set.
    pub const NONE: Kinds = Kinds {
        to: false,
        cc: false,
        bcc: false,
        from: false,
        subject: false,
        body: false,
        name: false,
        own_id: false,
    };

    /// Returns whether the kind of text is in the set. For the own id, read the field `own_id`.
    pub fn has(self, kind: TextKind) -> bool
        ensures { result ≡ has_kind self kind }
    {
        match kind {
            TextKind::To => self.to,
            TextKind::Cc => self.cc,
            TextKind::Bcc => self.bcc,
            TextKind::From => self.from,
            TextKind::Subject => self.subject,
            TextKind::Body => self.body,
            TextKind::Name => self.name,
        }
    }
}
