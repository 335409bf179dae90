//! Sources of bytes.

ghost use Rattle.std.proofs.Common.{rules, refl, ◌∙◌};
ghost use Rattle.std.specs.Prelude.{◌≡◌, ℕ, ◌+◌, ◌≤◌, List, length, OnOk, OnErr, slice_range};

use thiserror::Error;

/// A source of bytes couldn't be read.
#[derive(Clone, Copy, Debug, PartialEq, Eq, Error)]
#[error("the bytes could not be read")]
pub struct ReadFault;

/// Bytes that can be read at any offset, like those of a file.
pub trait Bytes {
    /// The number of bytes.
    ghost count: { Self → ℕ };

    /// The source has these bytes, and each read so far returned what they are. Any read may end this for good, and no code can find
    /// out. A source of which nothing is known has none.
    ghost holds: { Self → List ℕ → Type 0 };

    /// A read failed after the first state, up to the second.
    ghost failed: { Self → Self → Type 0 };

    /// What the source reads from is the same in both, for example the history of a disk. A read keeps this.
    ghost unchanged: { Self → Self → Type 0 };

    /// The number of bytes.
    fn len(&self) -> u64
        ensures { result ≡ count self.now };

    /// Reads the bytes from an offset on, as many as `into` has. After an error the bytes of `into` are unspecified.
    fn read_at(&mut self, at: u64, into: &mut [u8]) -> Result<(), ReadFault>
        requires { at + length into.old ≤ count self.old }
        ensures count { count self.new ≡ count self.old }
        ensures held { (bytes : List ℕ) → holds self.new bytes → holds self.old bytes }
        ensures unchanged { unchanged self.old self.new }
        ensures gives { (bytes : List ℕ) → holds self.new bytes → OnOk result (into.new ≡ slice_range bytes at (at + length into.old)) }
        ensures fault { OnErr result (failed self.old self.new) };

    ghost sized: { (source : Self) (bytes : List ℕ) → holds source bytes → length bytes ≡ count source };

    ghost unchanged_itself: { (source : Self) → unchanged source source };

    ghost unchanged_on: { (first then last : Self) → unchanged first then → unchanged then last → unchanged first last };

    ghost failed_on: { (first then last : Self) → unchanged first then → failed then last → failed first last };
}

impl Bytes for &[u8] {
    ghost count = { λ s. length s.now };

    ghost holds = { λ s bytes. s.now ≡ bytes };

    ghost failed = { λ old new. ⊥ };

    ghost unchanged = { λ old new. new ≡ old };

    fn len(&self) -> u64 {
        self[..].len() as u64
    }

    fn read_at(&mut self, at: u64, into: &mut [u8]) -> Result<(), ReadFault> {
        let at = at as usize;
        into.copy_from_slice(&self[at..at + into.len()]);
        Ok(())
    }

    ghost sized = { Prim.search rules };

    ghost unchanged_itself = { λ s. refl };

    ghost unchanged_on = { λ a b c first then. then ∙ first };

    ghost failed_on = { λ a b c first never. never };
}
