//! A hash of bytes.

ghost use Rattle.std.specs.Prelude.{◌≡◌, ◌*◌, ◌/◌, ◌≤◌, length};
ghost use Rattle.pm_build.specs.Hashing.{IsHashed, mixed, words_hash, with_bytes, content_hash};

use byteorder::{ByteOrder, LittleEndian};

/// An odd number whose multiples spread over 64 bits.
const FACTOR: u64 = 0x9e37_79b9_7f4a_7c15;

/// The hash with one number more.
#[tactic(auto, unfolding(crate::specs::Hashing::mixed))]
fn mixed(hash: u64, number: u64) -> u64
    ensures { result ≡ mixed hash number }
{
    hash.wrapping_mul(FACTOR).wrapping_add(number)
}

/// How many first words of some bytes are hashed, and their hash.
#[derive(Clone, Copy)]
pub(crate) struct HashedWords {
    pub(crate) words: usize,
    pub(crate) hash: u64,
}

impl HashedWords {
    /// No words.
    pub(crate) fn none() -> HashedWords
        ensures { result ≡ record { words = 0; hash = 0 } }
    {
        HashedWords { words: 0, hash: 0 }
    }
}

/// The hash of the first `words` words of eight bytes. That of some of them is known.
#[tactic(auto, using(crate::proofs::Words::words_next))]
fn hash_of_words(bytes: &[u8], known: HashedWords, words: usize) -> u64
    requires known { IsHashed bytes.now known.words known.hash }
    requires more { known.words ≤ words }
    requires inside { 8 * words ≤ length bytes.now }
    ensures { result ≡ words_hash bytes.now words }
{
    let mut hash = known.hash;
    for word in known.words..words {
        hash = mixed(hash, LittleEndian::read_u64(&bytes[8 * word..8 * word + 8]));
    }
    hash
}

/// All words of these bytes, hashed. Some of them are already.
pub(crate) fn hash_words(bytes: &[u8], known: HashedWords) -> HashedWords
    requires { IsHashed bytes.now known.words known.hash }
    ensures hashed { IsHashed bytes.now result.words result.hash }
    ensures words { result.words ≡ length bytes.now / 8 }
{
    let words = bytes.len() / 8;
    HashedWords {
        words,
        hash: hash_of_words(bytes, known, words),
    }
}

/// The hash with these bytes more.
fn with_bytes(hash: u64, bytes: &[u8]) -> u64
    ensures { result ≡ with_bytes hash bytes.now }
{
    let mut hash = hash;
    for byte in bytes {
        hash = mixed(hash, u64::from(*byte));
    }
    hash
}

/// A hash of these bytes: equal bytes have equal hashes, and others may. Some of their words are hashed.
#[tactic(auto, unfolding(crate::specs::Hashing::content_hash))]
pub(crate) fn hash_with(bytes: &[u8], known: HashedWords) -> u64
    requires { IsHashed bytes.now known.words known.hash }
    ensures { result ≡ content_hash bytes.now }
{
    let words = bytes.len() / 8;
    let hash = hash_of_words(bytes, known, words);
    mixed(with_bytes(hash, &bytes[8 * words..]), bytes.len() as u64)
}

/// The same of bytes of which no word is hashed.
pub(crate) fn hash_of(bytes: &[u8]) -> u64
    ensures { result ≡ content_hash bytes.now }
{
    hash_with(bytes, HashedWords::none())
}
