//! What a walk remembers of its first number.
ghost use Rattle.std.specs.Prelude.{◌≡◌, nat_le, true};
ghost use Rattle.std.specs.Option.{option_map_or};
ghost use Rattle.mail_answer.specs.CursorAhead.{lesser_of};

/// What a walk remembers of the first number that still comes.
#[derive(Clone, Copy, Drop)]
pub(crate) enum Head {
    /// Nothing: it wasn't looked for yet.
    Unasked,
    /// That number, or that there is none.
    Asked(Option<u32>),
}

/// Whether there is no number, or none below n.
pub(crate) fn is_none_below(first: Option<u32>, n: u32) -> bool
    ensures { result ≡ option_map_or (λ number. nat_le n number) first true }
{
    match first {
        Some(number) => n <= number,
        None => true,
    }
}

/// The lesser of two numbers; if only one is there, this one.
pub(crate) fn lesser_of(one: Option<u32>, other: Option<u32>) -> Option<u32>
    ensures { result ≡ lesser_of one other }
{
    match (one, other) {
        (Some(a), Some(b)) => Some(a.min(b)),
        (Some(a), None) => Some(a),
        (None, number) => number,
    }
}
