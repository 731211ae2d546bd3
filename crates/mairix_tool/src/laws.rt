//! Laws of runs, and of the tables that they search.
ghost use Rattle.std.specs.Prelude.{◌≡◌, ◌<◌, ◌∷◌, ◌++◌, ℕ, false, List, None, Some, Result, length, map, IfOk};
ghost use Rattle.std.specs.List.{All};
ghost use Rattle.contract_words.specs.Knowledge.{AreStillKnown};
ghost use Rattle.mail_answer.specs.Asked.{HoldsArchives};
ghost use Rattle.mail_answer.specs.CutAgain.{IsCutInto, ends_in_return};
ghost use Rattle.mail_answer.specs.Shapes.{answer_text, closed_text};
ghost use Rattle.mail_answer.specs.declared.format.Format.TheVariants as format;
ghost use Rattle.mbox_cutter.specs.Archives.{Message, text};
ghost use Rattle.mbox_cutter.specs.Memory.{Giving};
ghost use Rattle.mail_index.specs.declared.kind.Kind.{Kind};
ghost use Rattle.mail_index.specs.Tables.{IsPath, IsWellFormed, Table};
ghost use Rattle.index_job.specs.ArchiveRefusals.{AreSound};
ghost use Rattle.index_job.specs.ArchiveTables.{Mbox, all_messages, table};
ghost use Rattle.index_job.specs.MessageTerms.{has_term, message_terms};
ghost use Rattle.mairix_tool.specs.Altered.{HaveDistinctDigests, altered_archive};
ghost use Rattle.index_run.specs.ArchivesIndexed.{mboxes};
ghost use Rattle.mairix_tool.specs.Asked.{Wanted};
ghost use Rattle.mairix_tool.specs.CutAgain.{bytes_of_archives, spans_at};
ghost use Rattle.mail_answer.specs.Mail.{Search, AreChosen};
ghost use Rattle.mail_answer.specs.TableAnswers.{mail_of_table};
ghost use Rattle.mail_answer.specs.Threads.{are_linked};
ghost use Rattle.mail_answer.specs.declared.format.Format.{Format};
ghost use Rattle.mairix_tool.specs.Runs.{IsOnceReply, IsReply, IsStoredReply};
ghost use Rattle.mairix_tool.specs.MailOfArchives.{mail_in, shape};
ghost use Rattle.mairix_tool.specs.Replies.{Answer};
ghost use Rattle.mairix_tool.specs.OldTables.{HasDigests, but_digests, old_table};
ghost use Rattle.mairix_tool.specs.TermsOfArchives.{has_number};
ghost use Rattle.run_faults.specs.declared.fault.Fault.{Fault};

use mail_answer::{Archives, MemoryArchives};
use mail_index::IndexView;
use mbox_cutter::{MemorySource, Source};

/// An mbox answer can be cut again into its messages. Take the table of archives, and any of their messages, none of
/// which has CR as its last byte. Cutting the answer then gives one span for each message, in order: the message's own
/// span, with the line feeds that close it.
pub fn an_answer_is_cut_into_its_messages()
    ensures { (archives : List Mbox) (numbers : List ℕ)
        → All (λ n. n < length (table archives).messages) numbers
        → All (λ text. ends_in_return text ≡ false) (spans_at archives numbers)
        → IsCutInto (answer_text format.Mbox (table archives) (bytes_of_archives archives) numbers)
        (map closed_text (spans_at archives numbers)) }
{}

/// The table of archives has a message's number at a key exactly if the message has that term: a word of one of its
/// texts of that kind, its own id, or an id that links it to others.
pub fn the_table_has_the_terms_of_the_messages()
    ensures { (archives : List Mbox) (before after : List Message) (message : Message) (kind : Kind)
        (term : List ℕ) → all_messages archives ≡ before ++ message ∷ after
        → has_number kind term (length before) (table archives).keys
        ≡ has_term kind term (message_terms (text message)) }
{}

/// The table of archives links two messages exactly if they share a link id of their own.
pub fn the_table_links_as_the_messages()
    ensures { (archives : List Mbox) (m n : ℕ) → are_linked (table archives) m n
        ≡ (mail_in archives).linked m n }
{}

/// The messages that a search chooses from the table of archives are those that it chooses from the messages
/// themselves, threads included.
pub fn the_table_chooses_as_the_messages()
    ensures { (archives : List Mbox) (s : Search) (numbers : List ℕ)
        → AreChosen (mail_of_table (table archives)) s numbers
        → AreChosen (mail_in archives) s numbers }
{}

/// The answer that the table of archives gives is the text that the messages themselves give.
pub fn the_table_shows_the_messages()
    ensures { (archives : List Mbox) (format : Format) (numbers : List ℕ)
        → answer_text format (table archives) (map (λ a. a.bytes) archives) numbers
        ≡ shape archives format numbers }
{}

/// Every run over archives that it indexes itself has a reply, whatever is wanted, indexed and held. So a statement
/// about every reply of a run is a statement about at least one.
pub fn every_once_run_has_a_reply()
    ensures { (asked : Result Wanted Fault) (bytes held : List (List ℕ)) → (answer : Answer)
        × IsOnceReply asked bytes held answer }
{}

/// Every run over a stored index has a reply, whatever bytes the index has: they are the file of a table, or they break
/// a first rule of such files. This function runs: reading the index finds out which of the two is so.
pub fn every_stored_run_has_a_reply(index: &[u8])
    ensures { (asked : Result Wanted Fault) (held : List (List ℕ)) → (answer : Answer)
        × IsStoredReply asked index.now held answer }
{
    let _read = IndexView::open(index);
}

/// If a run searches the same bytes that it indexed, its reply is that of the archives' own messages.
pub fn a_table_replies_as_its_archives()
    ensures { (asked : Result Wanted Fault) (bytes : List (List ℕ)) (answer : Answer)
        → IfOk asked (λ w. length w.paths ≡ length bytes)
        → IsOnceReply asked bytes bytes answer → IsReply asked bytes answer }
{}

/// If SHA-256 distinguishes the archives, none of them is altered exactly if they are those that were indexed: the same
/// bytes under the same paths.
pub fn unaltered_archives_are_those_indexed()
    ensures only { (before : List Mbox) (paths bytes : List (List ℕ))
        → HaveDistinctDigests (map (λ a. a.bytes) before ++ bytes)
        → altered_archive before paths bytes ≡ None → before ≡ mboxes paths bytes }
    ensures all { (paths bytes : List (List ℕ)) → length paths ≡ length bytes
        → altered_archive (mboxes paths bytes) paths bytes ≡ None }
{}

/// The table that an index of version 1 has of sound archives is well-formed, as their own table is
/// ([`index_job::the_table_of_sound_archives_is_well_formed`]). So is their own table with any other digests.
pub fn other_tables_of_sound_archives_are_well_formed()
    ensures before { (archives : List Mbox) → All (λ a. IsPath a.path) archives → AreSound archives
        → IsWellFormed (old_table (table archives)) }
    ensures otherwise { (archives : List Mbox) (t : Table) → All (λ a. IsPath a.path) archives
        → AreSound archives
        → but_digests t ≡ but_digests (table archives) → HasDigests t → IsWellFormed t }
{}

/// The bytes of archives in memory are always known, and no run changes them. So for such archives a clause about what
/// is known at the end of a run is a clause about the bytes that they have.
pub fn archives_in_memory_stay_known()
    ensures known { (archives : List (List ℕ)) → ⟦<MemoryArchives as Archives>⟧.held archives
        ≡ Some archives }
    ensures same { (old new : List (List ℕ)) → HoldsArchives ⟦<MemoryArchives as Archives>⟧ old new
        → new ≡ old }
{}

/// What sources in memory still give is always known. So for such sources a clause about what is known before and after
/// a run is a clause about the bytes that they have before it.
pub fn sources_in_memory_stay_known()
    ensures { (old new : List Giving) → AreStillKnown (map ⟦<MemorySource as Source>⟧.rest old)
        (map ⟦<MemorySource as Source>⟧.rest new) (map (λ s. s.rest) old) }
{}
