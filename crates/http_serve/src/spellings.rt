//! Contents that are sent as hex text: shared bytes, of which the next ones are spelled when the ones before were taken.
ghost use Rattle.std.specs.Prelude.{◌≡◌, ◌≤◌, ◌<◌, ◌+◌, ◌*◌, ◌++◌, None, IfSome, length, drop, vec_len, vec_capacity};
ghost use Rattle.std.specs.Rc.{rc_slice_items};
ghost use Rattle.hex.specs.Hex.{encode_lower};
ghost use Rattle.http_serve.specs.declared.spellings.TheConstants.{MAX_SPELLED};

use std::marker::Model;
use std::rc::RcSlice;

/// How many bytes are spelled at most: so many that their digits can be counted beside all else that is in memory.
pub const MAX_SPELLED: usize = 1_152_921_504_606_846_976;

/// Bytes that others may hold as well, such as a cache, of which the last ones are left to spell: each as two hex digits in lower case.
#[derive(Drop)]
pub struct Spelling {
    bytes: RcSlice<u8>,
    /// How many were spelled.
    spelled: usize,
}

impl Model for Spelling {
    ghost use Rattle.std.specs.Prelude.{◌≤◌, ℕ, List, drop, length};
    ghost use Rattle.std.specs.Rc.{rc_slice_items};
    ghost use Rattle.http_serve.specs.declared.spellings.TheConstants.{MAX_SPELLED};

    ghost Value = { List ℕ };

    ghost view = { λ s. drop s.spelled (rc_slice_items s.bytes) };

    ghost invariant = { λ s. (s.spelled ≤ length (rc_slice_items s.bytes)) × (length (rc_slice_items s.bytes) ≤ MAX_SPELLED) };
}

/// Spells bytes behind a text, within its capacity.
fn put_digits(text: &mut Vec<u8>, bytes: &[u8])
    requires room { vec_len text.old + 2 * length bytes.now ≤ vec_capacity text.old }
    ensures items { text.new.items ≡ text.old.items ++ encode_lower bytes.now }
    ensures len { vec_len text.new ≡ vec_len text.old + 2 * length bytes.now }
    ensures capacity { vec_capacity text.old ≤ vec_capacity text.new }
{
    let start = text.len();
    text.resize(start + 2 * bytes.len(), 0).unwrap();
    hex::encode_to_slice(bytes, &mut text.as_mut_slice()[start..]).unwrap();
}

impl Spelling {
    /// All of the bytes are left to spell, unless there are more than `MAX_SPELLED`.
    pub fn new(bytes: RcSlice<u8>) -> Option<Spelling>
        ensures some { IfSome result (λ spelling. spelling ≡ rc_slice_items bytes) }
        ensures none { result ≡ None → MAX_SPELLED < length (rc_slice_items bytes) }
    {
        if bytes.len() > MAX_SPELLED {
            return None;
        }
        Some(Spelling { bytes, spelled: 0 })
    }

    /// How many digits are left.
    pub(crate) fn digits(&self) -> usize
        ensures digits { result ≡ length (encode_lower self.now) }
        ensures most { result ≤ 2 * MAX_SPELLED }
    {
        2 * (self.bytes.len() - self.spelled)
    }

    /// The next `count` bytes are left out.
    pub(crate) fn skip(&mut self, count: usize)
        requires { count ≤ length self.old }
        ensures { self.new ≡ drop count self.old }
    {
        self.spelled += count;
    }

    /// Spells the next bytes behind a text, as many as there is room for.
    pub(crate) fn spell(&mut self, text: &mut Vec<u8>)
        ensures bytes { text.new.items ++ encode_lower self.new ≡ text.old.items ++ encode_lower self.old }
        ensures longer { vec_len text.old ≤ vec_len text.new }
        // Some are spelled, if there is room for one.
        ensures some { vec_len text.old + 1 < vec_capacity text.old → 0 < length self.old → vec_len text.old + 1 < vec_len text.new }
        ensures capacity { vec_capacity text.old ≤ vec_capacity text.new }
    {
        let room = (text.capacity() - text.len()) / 2;
        let count = room.min(self.bytes.len() - self.spelled);
        put_digits(
            text,
            &self.bytes.as_slice()[self.spelled..self.spelled + count],
        );
        self.spelled += count;
    }
}
