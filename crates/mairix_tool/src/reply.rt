//! What a run returns, besides the text that it sends.

use run_faults::{DONE, Fault, NO_MESSAGE};

/// What a run returns, besides the text that it sends.
#[derive(Clone, Copy)]
pub struct Reply {
    /// The exit status: 0 with messages, 1 without any, and above 1 with a fault (except that Help and Version have 0).
    pub status: u8,
    /// The number of messages of the answer; 0 with a fault.
    pub messages: u64,
    /// Why the answer isn't complete.
    pub fault: Option<Fault>,
}

impl Reply {
    ghost use Rattle.std.specs.Prelude.{◌≡◌};
    ghost use Rattle.mairix_tool.specs.Runs.{reply_of};

    /// Returns the reply for this many messages, or for a fault, with its status.
    pub(crate) fn of(found: Result<u64, Fault>) -> Reply
        ensures { result ≡ reply_of found }
    {
        match found {
            Ok(messages) => Reply {
                status: if messages == 0 { NO_MESSAGE } else { DONE },
                messages,
                fault: None,
            },
            Err(fault) => Reply {
                status: fault.status(),
                messages: 0,
                fault: Some(fault),
            },
        }
    }
}
