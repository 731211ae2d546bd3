//! Gathers the bytes of an answer and sends them.
ghost use Rattle.std.specs.Prelude.{◌≡◌, ◌<◌, ◌≤◌, ◌-◌, ◌^◌, [], length, Some, OnOk, IfErr, false};
ghost use Rattle.mail_answer.specs.Faults.{has_fault, is_of_archives, is_stale};
ghost use Rattle.mail_answer.specs.Inside.Calls.{WritesOut};
ghost use Rattle.mail_answer.specs.declared.output.sheet.TheConstants.{FULL};

use crate::fault::AnswerFaultKind;
use crate::output::held_bytes::HeldBytes;
use mbox_cutter::Out;

/// This many bytes of an answer are gathered before they are sent.
const FULL: usize = 65_536;

/// The bytes of an answer that were gathered, and the number of bytes sent before them.
#[derive(Drop)]
pub(crate) struct Sheet {
    pub(crate) text: HeldBytes,
    /// Never more than the greatest number of its type.
    pub(crate) sent: u64,
    ghost within: { sent ≤ 2 ^ 64 - 1 },
}

impl Sheet {
    ghost use Rattle.mail_answer.specs.Sheets.{WritesText};

    /// Adds bytes to the answer, and sends what is gathered if it is enough. Fails if memory runs out or if the output
    /// fails.
    pub(crate) fn push<O: Out>(&mut self, out: &mut O, bytes: &[u8]) -> Result<(), AnswerFaultKind>
        requires { O.failures out.old < 2 ^ 64 - 1 }
        ensures writes { WritesText (O.taken out.old) (O.taken out.new) self.old self.new
            (Some bytes.now) result }
        ensures few { OnOk result (length self.new.text < FULL) }
        ensures out { WritesOut O.Out self.new.sent out.old out.new result }
        ensures own { (has_fault is_of_archives result ≡ false)
            × (has_fault is_stale result ≡ false) }
    {
        self.text.extend(bytes)?;
        self.send_full(out)
    }

    /// Sends all that is gathered if it is enough. Fails if the output does.
    pub(crate) fn send_full<O: Out>(&mut self, out: &mut O) -> Result<(), AnswerFaultKind>
        requires { O.failures out.old < 2 ^ 64 - 1 }
        ensures writes { WritesText (O.taken out.old) (O.taken out.new) self.old self.new (Some [])
            result }
        ensures few { OnOk result (length self.new.text < FULL) }
        ensures out { WritesOut O.Out self.new.sent out.old out.new result }
        ensures own { IfErr result (λ kind. kind ≡ AnswerFaultKind.OutFailed) }
    {
        if self.text.len() < FULL {
            return Ok(());
        }
        self.send(out)
    }

    /// Sends all that is gathered, in as many calls as it takes. Fails if the output does.
    pub(crate) fn send<O: Out>(&mut self, out: &mut O) -> Result<(), AnswerFaultKind>
        requires { O.failures out.old < 2 ^ 64 - 1 }
        ensures writes { WritesText (O.taken out.old) (O.taken out.new) self.old self.new (Some [])
            result }
        ensures all { OnOk result (self.new.text ≡ []) }
        ensures out { WritesOut O.Out self.new.sent out.old out.new result }
        ensures own { IfErr result (λ kind. kind ≡ AnswerFaultKind.OutFailed) }
    {
        let mut at = 0;
        while at < self.text.len() {
            let Ok(n) = out.put(&self.text.as_slice()[at..]) else {
                return Err(AnswerFaultKind::OutFailed);
            };
            at += n;
            self.sent = self.sent.saturating_add(n as u64);
        }
        self.text.clear();
        Ok(())
    }
}
