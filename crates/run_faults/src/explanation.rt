//! The texts that report the faults of a run.
ghost use Rattle.std.specs.Prelude.{◌≡◌, IfOk};
ghost use Rattle.std.specs.String.{string_bytes};
ghost use Rattle.run_faults.specs.FaultTexts.{text_of_fault};

use crate::fault::Fault;
use std::alloc::{AllocError, Global};
use std::error::Error;
use std::fmt;

/// The text for lack of memory, in every layer.
pub const OUT_OF_MEMORY: &str = "out of memory";

/// Returns the text of a fault, without the program's name and without a line end. Fails only for lack of memory.
///
/// All numbers in the text count from 1. So the number of an archive, which counts from 0 in the fault, is printed
/// plus 1.
pub fn fault_text(alloc: Global, fault: &Fault) -> Result<String, AllocError>
    ensures { IfOk result (λ text. string_bytes text ≡ text_of_fault fault.now) }
{
    fault.to_string(alloc)
}

impl fmt::Display for Fault {
    ghost use Rattle.std.specs.Prelude.{Some};

    ghost output = { λ fault. Some (text_of_fault fault) };

    fn fmt<W: fmt::Write>(&self, f: &mut fmt::Formatter<W>) -> fmt::Result {
        let text = match self {
            Fault::Usage(fault) => return fault.fmt(f),
            Fault::Rc(fault) => return fault.fmt(f),
            Fault::Query(fault) => return fault.fmt(f),
            Fault::Archive { number, fault } => {
                let number = u128::from(*number) + 1;
                return write!(f, "archive {number}: {fault}");
            }
            Fault::Index(fault) => return write!(f, "index: {fault}"),
            Fault::Stale(number) => {
                let number = u128::from(*number) + 1;
                return write!(f, "archive {number}: changed since it was indexed");
            }
            Fault::OldIndex => "index: too old, build it again",
            Fault::Device => "archive read failed",
            Fault::Out => "output failed",
            Fault::Memory => OUT_OF_MEMORY,
            Fault::TooMany => "too many messages or keys",
        };
        f.write_str(text)
    }
}

impl Error for Fault {}
