//! The texts that report a refused query.

use crate::fault::{QueryFault, QueryFaultKind};
use std::error::Error;
use std::fmt;

impl fmt::Display for QueryFaultKind {
    ghost use Rattle.std.specs.Prelude.{Some};
    ghost use Rattle.mail_query.specs.FaultTexts.{text_of_kind};

    ghost output = { λ kind. Some (text_of_kind kind) };

    fn fmt<W: fmt::Write>(&self, f: &mut fmt::Formatter<W>) -> fmt::Result {
        f.write_str(match self {
            QueryFaultKind::NoPattern => "no pattern",
            QueryFaultKind::BadPrefix => "bad prefix",
            QueryFaultKind::BadWord => "bad word",
            QueryFaultKind::Approximate => "approximate match not supported",
            QueryFaultKind::BadDate => "bad date",
            QueryFaultKind::BadSize => "bad size",
            QueryFaultKind::BadFlag => "bad flag",
            QueryFaultKind::NeedsOperator => "operator needed",
            QueryFaultKind::BadParenthesis => "bad parenthesis",
            QueryFaultKind::MissingTerm => "term missing",
            QueryFaultKind::TooDeep => "too deep",
            QueryFaultKind::Phrase => "phrase not supported",
        })
    }
}

impl Error for QueryFaultKind {}

impl fmt::Display for QueryFault {
    ghost use Rattle.std.specs.Prelude.{Some};
    ghost use Rattle.mail_query.specs.FaultTexts.{text_of_query};

    ghost output = { λ fault. Some (text_of_query fault) };

    fn fmt<W: fmt::Write>(&self, f: &mut fmt::Formatter<W>) -> fmt::Result {
        write!(f, "query item {}: {}", self.number, self.kind)
    }
}

impl Error for QueryFault {}
