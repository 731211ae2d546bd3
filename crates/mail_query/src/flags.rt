//! Reads the flags that a pattern `F:` names.
ghost use Rattle.std.specs.Prelude.{◌≡◌, Option, Some, None};
ghost use Rattle.contract_words.specs.Answers.{Gives};
ghost use Rattle.mail_query.specs.Query.{query_of};
ghost use Rattle.or_memory.specs.Refusals.{refusal};
ghost use Rattle.mail_query.specs.Flags.{flag_of};
ghost use Rattle.mail_query.specs.Mairix.{flags_query};

use crate::fault::QueryFaultKind;
use crate::node::{Node, add, all_of};
use mail_words::Flag;
use or_memory::OrMemory;
use std::alloc::Global;

/// Reads one or more letters. A dash before a letter negates this letter only. Returns `BadFlag` for any other text.
pub(crate) fn read_flags(alloc: Global, text: &[u8]) -> Result<Node, OrMemory<QueryFaultKind>>
    ensures { Gives query_of refusal result (flags_query text.now) }
{
    let mut members = Vec::new(alloc);
    let mut wanted = true;
    for letter in text {
        if *letter == b'-' {
            if !wanted {
                return Err(OrMemory::Refused(QueryFaultKind::BadFlag));
            }
            wanted = false;
        } else {
            let Some(flag) = flag_of(*letter) else {
                return Err(OrMemory::Refused(QueryFaultKind::BadFlag));
            };
            add(&mut members, Node::Flag { flag, wanted })?;
            wanted = true;
        }
    }
    if !wanted || members.is_empty() {
        return Err(OrMemory::Refused(QueryFaultKind::BadFlag));
    }
    Ok(all_of(members))
}

fn flag_of(letter: u8) -> Option<Flag>
    ensures { result ≡ flag_of letter }
{
    match letter {
        b's' | b'S' => Some(Flag::Seen),
        b'r' | b'R' => Some(Flag::Replied),
        b'f' | b'F' => Some(Flag::Flagged),
        _ => None,
    }
}
