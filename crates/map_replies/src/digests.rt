//! Digests of maps in texts.
ghost use Rattle.std.specs.Prelude.{◌≡◌, ◌≤◌, ◌+◌, ◌++◌, vec_len, vec_capacity};
ghost use Rattle.map_replies.specs.Digests.{digest_text};
ghost use Rattle.map_replies.specs.declared.digests.TheConstants.{DIGEST_DIGITS};

use http_values::push_text;

/// How many hex digits a digest has.
pub(crate) const DIGEST_DIGITS: usize = 16;

/// The hex digits of a digest, in lower case.
#[tactic(auto, unfolding(crate::specs::Digests::digest_text))]
pub(crate) fn digest_digits(digest: u64) -> [u8; DIGEST_DIGITS]
    ensures { result ≡ digest_text digest }
{
    let mut digits = [0; DIGEST_DIGITS];
    hex::encode_to_slice(digest.to_be_bytes(), &mut digits).unwrap();
    digits
}

/// Adds the hex digits of a digest.
pub(crate) fn push_digest(out: &mut Vec<u8>, digest: u64)
    requires room { vec_len out.old + DIGEST_DIGITS ≤ vec_capacity out.old }
    ensures items { out.new.items ≡ out.old.items ++ digest_text digest }
    ensures len { vec_len out.new ≤ vec_len out.old + DIGEST_DIGITS }
    ensures capacity { vec_capacity out.old ≤ vec_capacity out.new }
{
    push_text(out, &digest_digits(digest));
}
