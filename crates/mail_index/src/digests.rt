//! Whether an index has digests (decision 133 in docs/DECISIONS.md).

/// Whether the digests of an index are computed: that of each archive, and that of its file.
#[derive(Clone, Copy)]
pub enum Digests {
    /// They are, as an index needs them that is read later.
    Computed,
    /// They aren't, and [`NO_DIGEST`] is in the place of each. Such an index is read only by who made it.
    LeftOut,
}

/// What is in the place of a digest that isn't computed.
pub const NO_DIGEST: [u8; 32] = [0; 32];
