//! Laws of the definitions.
ghost use Rattle.std.specs.Prelude.{◌≡◌, ◌<◌, ◌≤◌, ◌^◌, ◌⊎◌, ℕ, suc, false, List, length};
ghost use Rattle.std.specs.List.{AllByRecursion};
ghost use Rattle.mail_index.specs.declared.kind.Kind.{Kind};
ghost use Rattle.mail_index.specs.declared.view.fault.IndexFault.{IndexFault};
ghost use Rattle.mail_index.specs.Faults.{IsFileOfTable, IsFirstFaultOfFile};
ghost use Rattle.mail_index.specs.Tables.{Key, Table, IsKey, IsWellFormed};
ghost use Rattle.mail_index.specs.Pairs.{HasPosting};
ghost use Rattle.mail_index.specs.Builders.{with_pair};
ghost use Rattle.mail_index.specs.LookUps.{is_key, comparisons};
ghost use Rattle.mail_index.specs.Files.{index_file, HasSmallSections};

/// Two well-formed tables with the same file are the same table: an index file can't mean two things.
pub fn one_table_for_a_file()
    ensures { (t u : Table) → IsWellFormed t → IsWellFormed u
        → HasSmallSections t → HasSmallSections u
        → index_file t ≡ index_file u → t ≡ u }
{}

/// The file of a table that fits in memory has no fault. So `IndexView::open` accepts exactly the files of tables.
pub fn the_file_of_a_table_has_no_fault()
    ensures { (bytes : List ℕ) (t : Table) (fault : IndexFault)
        → length bytes < 2 ^ 64 → IsFileOfTable bytes t → ¬ IsFirstFaultOfFile bytes fault }
{}

/// How many comparisons a binary search makes.
///
/// There are at most as many as the number of keys has binary digits, that is, the least number of digits that can hold
/// it (`few`). If the key isn't there, there are also at least as many as the number of keys plus one has binary
/// digits, less one (`many`). If there are keys, at least one is compared (`some`).
pub fn comparisons_law()
    ensures few { (kind : Kind) (text : List ℕ) (ks : List Key) (digits : ℕ)
        → length ks < 2 ^ digits → comparisons kind text ks ≤ digits }
    ensures many { (kind : Kind) (text : List ℕ) (ks : List Key) (digits : ℕ)
        → AllByRecursion (λ k. is_key kind text k ≡ false) ks
        → 2 ^ digits ≤ suc (length ks) → digits ≤ comparisons kind text ks }
    ensures some { (kind : Kind) (text : List ℕ) (ks : List Key)
        → 0 < length ks → 0 < comparisons kind text ks }
{}

/// Adding a pair of a key and a message leaves all pairs that were there (`kept`), adds this pair (`added`) and adds no
/// other (`only`). If adding another pair changed nothing before, it still changes nothing (`had`).
pub fn pairs_law()
    ensures added { (version n : ℕ) (kind : Kind) (text : List ℕ) (ks : List Key)
        → AllByRecursion (IsKey version (suc n)) ks → HasPosting
        (with_pair kind text n ks) kind text n }
    ensures kept { (n : ℕ) (kind : Kind) (text : List ℕ) (ks : List Key)
        (k : Kind) (t : List ℕ) (m : ℕ) → HasPosting ks k t m
        → HasPosting (with_pair kind text n ks) k t m }
    ensures only { (n : ℕ) (kind : Kind) (text : List ℕ) (ks : List Key)
        (k : Kind) (t : List ℕ) (m : ℕ) → HasPosting (with_pair kind text n ks) k t m
        → HasPosting ks k t m ⊎ ((kind ≡ k) × (text ≡ t) × (n ≡ m)) }
    ensures had { (n : ℕ) (kind : Kind) (text : List ℕ) (ks : List Key) (k : Kind) (t : List ℕ)
        → with_pair k t n ks ≡ ks
        → with_pair k t n (with_pair kind text n ks) ≡ with_pair kind text n ks }
{}
