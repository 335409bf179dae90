//! The key indices that the tags of a feature have used.

ghost use Rattle.std.specs.Prelude.{◌≡◌, ℕ, not, false, true, IfOk, IfErr};
ghost use Rattle.mvt_layer.specs.Used.{uses, UsesMore};

use crate::fault::TileFault;
use std::alloc::Global;
use std::collections::BTreeSet;

/// How many key indices are looked through one by one. Few features have more tags.
const FEW: usize = 16;

/// Key indices: the first ones in a list, the others in a set, so that a look-up takes few steps.
#[derive(Drop)]
pub(crate) struct UsedKeys {
    few: Vec<u32>,
    many: BTreeSet<u32>,
}

impl UsedKeys {
    /// No key indices.
    pub(crate) fn new(alloc: Global) -> Self
        ensures { (q : ℕ) → uses result q ≡ false }
    {
        UsedKeys {
            few: Vec::new(alloc),
            many: BTreeSet::new(alloc),
        }
    }

    /// Forgets all key indices.
    pub(crate) fn clear(&mut self)
        ensures { (q : ℕ) → uses self.new q ≡ false }
    {
        self.few.clear();
        self.many.clear();
    }

    /// Whether the key index was used.
    fn has(&self, key: u32) -> bool
        ensures { result ≡ uses self.now key }
    {
        self.few.contains(&key) || self.many.contains(&key)
    }

    /// Adds a key index, and says whether it is new.
    pub(crate) fn insert(&mut self, key: u32) -> Result<bool, TileFault>
        ensures added { IfOk result (λ new. new ≡ not (uses self.old key)) }
        ensures more { IfOk result (λ new. new ≡ true → UsesMore self.old self.new key) }
        ensures memory { IfErr result (λ d. d ≡ TileFault.Memory) }
    {
        if self.has(key) {
            return Ok(false);
        }
        if self.few.len() < FEW {
            self.few.push(key)?;
        } else {
            self.many.insert(key)?;
        }
        Ok(true)
    }
}
