//! A source that computes the digest of what it gives. So an archive is cut and digested in one read (decision 18 in
//! docs/DECISIONS.md).
ghost use Rattle.std.specs.Prelude.{◌≡◌, ◌<◌, ◌≤◌, ◌-◌, ◌^◌, ℕ, List, [], ◌∷◌, Some, IsSome, length, IfOk, IfSome};
ghost use Rattle.std.specs.Io.KnownBytes.{ReadConsumes};
ghost use Rattle.sha2.specs.Sha256.{sha256};
ghost use Rattle.contract_words.specs.Devices.{Counts};
ghost use Rattle.contract_words.specs.Knowledge.{still_known};

use crate::device::{DeviceFault, Source};
use sha2::{Digest, Sha256};

/// A source that reads another source and computes the SHA-256 of the bytes that it gives. It passes failures on, and
/// takes no memory.
///
/// If it is read to its end, the digest is that of all the bytes. It is of the same bytes that the reader got, because
/// nothing is read twice.
#[derive(Drop)]
pub struct Digested<'a, S: Source> {
    source: &'a mut S,
    // Has the state of the digest after the bytes given so far.
    hasher: Sha256,
}

impl<'a, S: Source> Digested<'a, S> {
    ghost use Rattle.mbox_cutter.specs.Digests.{inner, AreWhole, HasGiven};

    /// Makes a source over another one. It has given nothing yet.
    pub fn new(source: &'a mut S) -> Self
        ensures source { (inner result).ghost_name ≡ source.entry.ghost_name }
        ensures same { (inner result).now ≡ source.old }
        ensures given { HasGiven result [] }
        ensures whole { IfSome (S.rest source.old) (λ bytes. AreWhole S.rest result bytes) }
    {
        Digested {
            source,
            hasher: Sha256::new(),
        }
    }

    /// Returns the digest of what was given. If it was read to the end, that is all the bytes. The caller has the other
    /// source again, after what was read.
    pub fn finish(self) -> [u8; 32]
        ensures given { (given : List ℕ) → HasGiven self.entry given → result ≡ sha256 given }
        ensures whole { (bytes : List ℕ) → AreWhole S.rest self.entry bytes →
            S.rest (inner self.entry).now ≡ Some [] → result ≡ sha256 bytes }
        ensures same { self.exit.0.now ≡ (inner self.entry).now }
    {
        self.hasher.finalize()
    }
}

impl<'a, S: Source> Source for Digested<'a, S> {
    ghost use Rattle.mbox_cutter.specs.Digests.{inner, AreWhole, AreWholeBelow, GivesBytes};
    ghost use Rattle.mbox_cutter.specs.Sources.{Stays};

    ghost rest = { λ d. S.rest (inner d).now };

    ghost failures = { λ d. S.failures (inner d).now };

    ghost whole = { AreWhole S.rest };

    ghost below = { AreWholeBelow S.whole S.below };

    ghost through = { λ d. (inner d).ghost_name ∷ S.through (inner d).now };

    ghost was = { λ d first. Stays S.Source (inner first).now (inner d).now };

    fn read_next(&mut self, into: &mut [u8]) -> Result<usize, DeviceFault>
        requires room { 0 < length into.old }
        requires count { S.failures (inner self.old).now < 2 ^ 64 - 1 }
        ensures bound { IfOk result (λ n. n ≤ length into.new) }
        ensures bytes { ReadConsumes (still_known (S.rest (inner self.old).now)
            (S.rest (inner self.new).now)) (S.rest (inner self.new).now) result into.new }
        ensures count { Counts result
            (S.failures (inner self.old).now) (S.failures (inner self.new).now) }
        ensures whole { (bytes : List ℕ) →
            AreWhole S.rest self.old bytes → AreWhole S.rest self.new bytes }
        ensures below { (number : ℕ) (bytes : List ℕ)
            → AreWholeBelow S.whole S.below self.old number bytes
            → AreWholeBelow S.whole S.below self.new number bytes }
        ensures through { (inner self.new).ghost_name ∷ S.through (inner self.new).now
            ≡ (inner self.old).ghost_name ∷ S.through (inner self.old).now }
        ensures inside { Stays S.Source (inner self.old).now (inner self.new).now }
        ensures gives { GivesBytes self.old result into.new self.new }
    {
        let n = self.source.read_next(into)?;
        self.hasher.update(&into[..n]);
        Ok(n)
    }
}
