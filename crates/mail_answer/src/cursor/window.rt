//! The marks of a window: a bit for each of its messages.
ghost use Rattle.std.specs.Prelude.{◌≡◌, ◌<◌, ◌^◌, ◌*◌, ◌+◌, ℕ, true, length, nat_eq, nat_lt};
ghost use Rattle.mail_answer.specs.Inside.CursorMarks.{IsFirstMark, IsFirstPlace, marks_in};
ghost use Rattle.mail_answer.specs.Marks.{Adds, truth_at};

/// How many words a window has. Each has 64 marks, so a window covers 32,768 messages.
pub(crate) const WORDS: usize = 512;

/// Marks the message at this place of a window, and returns whether the window has that place.
#[inline(always)]
pub(crate) fn mark_at(words: &mut [u64], place: usize) -> bool
    ensures within { result ≡ nat_lt place (length (marks_in words.old)) }
    ensures marks { Adds (nat_eq place) (marks_in words.old) (marks_in words.new) }
{
    let number = place / 64;
    if number >= words.len() {
        return false;
    }
    words[number] |= 1 << (place % 64);
    true
}

/// The first place of a window, from this one on, that is marked.
fn first_place(words: &[u64], place: usize) -> Option<usize>
    requires { length words.now < 2 ^ 32 }
    ensures { IsFirstPlace place (marks_in words.now) result }
{
    let mut number = place / 64;
    if number >= words.len() {
        return None;
    }
    let mut word = words[number] & (u64::MAX << (place % 64));
    while word == 0 {
        number += 1;
        if number >= words.len() {
            return None;
        }
        word = words[number];
    }
    Some(64 * number + word.trailing_zeros() as usize)
}

/// The number of the first mark that isn't below `low`, in a window from `start` on.
pub(crate) fn first_mark(words: &[u64], start: u32, low: u32) -> Option<u32>
    requires few { length words.now < 2 ^ 32 }
    requires small { (k : ℕ) → truth_at (marks_in words.now) k ≡ true → start + k < 2 ^ 32 }
    ensures { IsFirstMark start low (marks_in words.now) result }
{
    let place = first_place(words, low.saturating_sub(start) as usize)?;
    Some(start + place as u32)
}
