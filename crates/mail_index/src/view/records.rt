//! The records of a file, read in place.
ghost use Rattle.std.specs.Prelude.{◌≡◌, ◌<◌, ◌*◌, length};
ghost use Rattle.std.specs.List.{slice_get};
ghost use Rattle.mail_index.specs.Steps.{add_steps};
ghost use Rattle.mail_index.specs.Places.{record_size};
ghost use Rattle.mail_index.specs.Records.{read_records};

use crate::places::RECORD;
use crate::record::Record;
use crate::view::steps::Steps;
use std::marker::Model;

/// The records of all messages. Each look at one is a step.
#[derive(Drop)]
pub struct Records<'a> {
    bytes: &'a [u8],
    count: u32,
}

impl<'a> Model for Records<'a> {
    ghost use Rattle.std.specs.Prelude.{List, length, ◌≡◌, ◌*◌};
    ghost use Rattle.mail_index.specs.declared.record.Record.{Record};
    ghost use Rattle.mail_index.specs.Places.{record_size};
    ghost use Rattle.mail_index.specs.Records.{read_records};

    ghost Value = { List Record };

    ghost view = { λ s. read_records s.count s.bytes.now };

    ghost invariant = { λ s. length s.bytes.now ≡ record_size * s.count };
}

impl<'a> Records<'a> {
    /// The records in these bytes, of which there are `count`.
    pub(crate) fn of(bytes: &'a [u8], count: u32) -> Self
        requires { length bytes.now ≡ record_size * count }
        ensures { result ≡ read_records count bytes.entry.now }
    {
        Records { bytes, count }
    }

    /// How many records there are.
    #[tactic(auto, using(crate::proofs::ViewLaws::Opening::count_records))]
    pub fn len(&self) -> u32
        ensures { result ≡ length self.now }
    {
        self.count
    }

    /// The record of the message with this number, from 0: a step.
    pub fn look_at(&self, n: u32, steps: &mut Steps) -> Record
        requires { n < length self.now }
        ensures record { slice_get self.now n ≡ Some result }
        ensures steps { steps.new ≡ add_steps steps.old 1 }
    {
        steps.tick();
        Record::read(self.bytes.split_at(RECORD * n as usize).1)
    }
}
