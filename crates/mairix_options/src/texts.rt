//! The texts that report a refused command line or rcfile.

use crate::command_line::UsageFault;
use crate::rcfile::{Name, RcFault};
use std::error::Error;
use std::fmt;

impl fmt::Display for UsageFault {
    ghost use Rattle.std.specs.Prelude.{Some};
    ghost use Rattle.mairix_options.specs.FaultTexts.{text_of_usage};

    ghost output = { λ fault. Some (text_of_usage fault) };

    fn fmt<W: fmt::Write>(&self, f: &mut fmt::Formatter<W>) -> fmt::Result {
        f.write_str(match self {
            UsageFault::Parse => "bad words",
            UsageFault::TwoFormats => "-r and -x exclude each other",
            UsageFault::Help => "help",
            UsageFault::Version => "version",
        })
    }
}

impl Error for UsageFault {}

impl fmt::Display for RcFault {
    ghost use Rattle.std.specs.Prelude.{Some};
    ghost use Rattle.mairix_options.specs.FaultTexts.{text_of_rc};

    ghost output = { λ fault. Some (text_of_rc fault) };

    fn fmt<W: fmt::Write>(&self, f: &mut fmt::Formatter<W>) -> fmt::Result {
        let (line, reason) = match *self {
            RcFault::BadLine(line) => (line, "not option=value"),
            RcFault::NotSupported(line) => (line, "option not supported"),
            RcFault::Wildcard(line) => (line, "wildcard not supported"),
            RcFault::Expansion(line) => (line, "expansion not supported"),
            RcFault::BadFormat(line) => (line, "unknown format"),
            RcFault::Missing(Name::Mbox) => return f.write_str("rcfile: mbox missing"),
            RcFault::Missing(Name::Database) => return f.write_str("rcfile: database missing"),
            RcFault::Missing(Name::Mfolder) => return f.write_str("rcfile: mfolder missing"),
        };
        write!(f, "rcfile line {line}: {reason}")
    }
}

impl Error for RcFault {}
