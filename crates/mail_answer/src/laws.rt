//! Laws of the definitions.
ghost use Rattle.std.specs.Prelude.{◌≡◌, ◌<◌, ℕ, false, List, Option, None, length, map};
ghost use Rattle.std.specs.List.{All, flat_map};
ghost use Rattle.mail_index.specs.Tables.{Archive, Table};
ghost use Rattle.mail_answer.specs.CutAgain.{IsCutInto, IsCutOut, ends_in_return};
ghost use Rattle.mail_answer.specs.Shapes.{closed_text};
ghost use Rattle.mail_answer.specs.TableFacts.{chosen_numbers};
ghost use Rattle.mail_answer.specs.Mail.{Search};
ghost use Rattle.mail_answer.specs.TableAnswers.{TableAnswer, IsTableAnswer};
ghost use Rattle.mail_answer.specs.Threads.{AreThreads};
ghost use Rattle.mail_answer.specs.Verified.{unverified_archive, AreVerified};
ghost use Rattle.mail_query.specs.Query.{Query};

/// A list of numbers has only one list of threads.
pub fn one_list_of_threads()
    ensures { (t : Table) (numbers members others : List ℕ) → AreThreads t numbers members
        → AreThreads t numbers others → members ≡ others }
{}

/// Messages that were cut out of archives, closed and joined, are cut again into these messages in order, each with the
/// line feeds that close it. None of them may end in CR.
pub fn closed_messages_are_cut_again()
    ensures { (texts : List (List ℕ)) → All IsCutOut texts
        → All (λ text. ends_in_return text ≡ false) texts
        → IsCutInto (flat_map closed_text texts) (map closed_text texts) }
{}

/// Every chosen number is that of a message of the table: by a query alone, and with threads.
pub fn chosen_numbers_are_those_of_messages()
    ensures alone { (t : Table) (q : Query) → All (λ n. n < length t.messages)
        (chosen_numbers t q) }
    ensures threads { (t : Table) (numbers members : List ℕ) → AreThreads t numbers members
        → All (λ n. n < length t.messages) members }
{}

/// A table has an answer to each search. So a clause about each answer of a table is always about at least one.
pub fn every_table_answers()
    ensures { (t : Table) (s : Search) (held : Option (List (List ℕ))) → (a : TableAnswer)
        × IsTableAnswer t s held a }
{}

/// A table has only one answer to a search.
pub fn one_answer_of_a_table()
    ensures { (t : Table) (s : Search) (held : Option (List (List ℕ))) (a b : TableAnswer)
        → IsTableAnswer t s held a → IsTableAnswer t s held b → a ≡ b }
{}

/// Archives are verified exactly if they are those that were indexed: as many, and each with the same length and
/// digest.
pub fn verified_archives_are_those_indexed()
    ensures only { (named : List Archive) (archives : List (List ℕ))
        → unverified_archive named archives ≡ None → AreVerified named archives }
    ensures all { (named : List Archive) (archives : List (List ℕ)) → AreVerified named archives
        → unverified_archive named archives ≡ None }
{}
