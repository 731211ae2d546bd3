//! Laws of both query languages: each reader agrees with its grammar, in both directions. It returns a query exactly
//! if the grammar gives it, and refuses a text exactly with its first fault.
ghost use Rattle.std.specs.Prelude.{◌≡◌, ◌↔◌, ℕ, List, Option, false, Some, None, Ok, Err};
ghost use Rattle.std.specs.List.{All};
ghost use Rattle.std.specs.Str.{IsUtf8};
ghost use Rattle.mail_dates.specs.declared.range.Range.{Range};
ghost use Rattle.mail_query.specs.declared.fault.QueryFault.{QueryFault};
ghost use Rattle.mail_query.specs.Query.{Query, uses_names};
ghost use Rattle.mail_query.specs.Truth.{Facts, without_names, is_true};
ghost use Rattle.mail_query.specs.Lexicon.{Lexicon};
ghost use Rattle.mail_query.specs.Mairix.{pattern_query, patterns_query};
ghost use Rattle.mail_query.specs.MairixGrammar.{IsPattern, IsAsked, AskNothing, HasNoSigns};
ghost use Rattle.mail_query.specs.MairixFaults.{IsFirstFault};
ghost use Rattle.mail_query.specs.Mail.{mail_lexicon, pattern_lexicon, mairix_query};
ghost use Rattle.mail_query.specs.Tokens.{Token};
ghost use Rattle.mail_query.specs.BooleanGrammar.{Reads};
ghost use Rattle.mail_query.specs.BooleanFaults.{first_fault};
ghost use Rattle.mail_query.specs.BooleanReading.{tokens_query};

/// The reader returns a query exactly if the grammar gives this query for the tokens. So the grammar gives at most
/// one query.
pub fn the_answer_is_what_is_read()
    ensures { (lexicon : Lexicon) (ts : List Token) (q : Query)
        → (tokens_query lexicon ts ≡ Ok q) ↔ Reads lexicon ts q }
{}

/// The reader returns a fault exactly if it is the first fault in the tokens.
pub fn the_refusal_is_the_first_fault()
    ensures { (lexicon : Lexicon) (ts : List Token) (f : QueryFault)
        → (tokens_query lexicon ts ≡ Err f) ↔ (first_fault lexicon ts ≡ Some f) }
{}

/// Tokens that the grammar reads have no fault.
pub fn what_is_read_shows_no_fault()
    ensures { (lexicon : Lexicon) (ts : List Token) (q : Query)
        → Reads lexicon ts q → first_fault lexicon ts ≡ None }
{}

/// The grammar reads all tokens that have no fault.
pub fn what_shows_no_fault_is_read()
    ensures { (lexicon : Lexicon) (ts : List Token)
        → first_fault lexicon ts ≡ None → (q : Query) × Reads lexicon ts q }
{}

/// The reader returns a query for a pattern exactly if the grammar gives this query, so it gives at most one. This
/// holds if no word and no part of a word has a byte with a meaning in patterns.
pub fn a_pattern_is_read_as_the_grammar_says()
    ensures { (lexicon : Lexicon) (pattern : List ℕ) (q : Query)
        → HasNoSigns lexicon → IsUtf8 pattern
        → (pattern_query lexicon pattern ≡ Ok q) ↔ IsPattern lexicon pattern q }
{}

/// The same holds of a list of patterns.
pub fn patterns_are_read_as_the_grammar_says()
    ensures { (lexicon : Lexicon) (patterns : List (List ℕ)) (q : Query)
        → HasNoSigns lexicon → All IsUtf8 patterns
        → (patterns_query lexicon patterns ≡ Ok q) ↔ IsAsked lexicon patterns q }
{}

/// The reader refuses patterns exactly if the grammar gives no query for them.
pub fn what_is_no_pattern_is_refused()
    ensures { (lexicon : Lexicon) (patterns : List (List ℕ))
        → HasNoSigns lexicon → All IsUtf8 patterns
        → ((f : QueryFault) × (patterns_query lexicon patterns ≡ Err f))
        ↔ AskNothing lexicon patterns }
{}

/// The reader returns a fault exactly if it is the first fault of the patterns.
pub fn patterns_are_refused_with_their_first_fault()
    ensures { (lexicon : Lexicon) (patterns : List (List ℕ)) (f : QueryFault)
        → HasNoSigns lexicon → All IsUtf8 patterns
        → (patterns_query lexicon patterns ≡ Err f) ↔ IsFirstFault lexicon patterns f }
{}

/// Patterns have at most one first fault.
pub fn patterns_show_one_first_fault_at_most()
    ensures { (lexicon : Lexicon) (patterns : List (List ℕ)) (f g : QueryFault)
        → HasNoSigns lexicon → All IsUtf8 patterns
        → IsFirstFault lexicon patterns f → IsFirstFault lexicon patterns g → f ≡ g }
{}

/// Patterns have a first fault exactly if the grammar gives no query for them.
pub fn what_is_no_pattern_shows_a_fault()
    ensures { (lexicon : Lexicon) (patterns : List (List ℕ))
        → HasNoSigns lexicon → All IsUtf8 patterns
        → ((f : QueryFault) × IsFirstFault lexicon patterns f) ↔ AskNothing lexicon patterns }
{}

/// No word of mail and no part of one has a byte with a meaning in patterns. So the laws above hold of mail.
pub fn words_of_mail_have_no_signs()
    ensures { (dates : List ℕ → Option Range) → HasNoSigns (mail_lexicon dates) }
{}

/// Over mail, the reader returns a query for patterns exactly if the grammar gives this query.
pub fn patterns_of_mail_are_read_as_the_grammar_says()
    ensures { (patterns : List (List ℕ)) (now : ℕ) (q : Query)
        → All IsUtf8 patterns
        → (mairix_query patterns now ≡ Ok q) ↔ IsAsked (pattern_lexicon now) patterns q }
{}

/// If a query doesn't search the names of attachments, these names never change whether a message satisfies it.
pub fn names_count_only_where_they_are_asked()
    ensures { (q : Query) (m : Facts)
        → uses_names q ≡ false → is_true q (without_names m) ≡ is_true q m }
{}
