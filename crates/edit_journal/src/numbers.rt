//! The numbers of edits.
ghost use Rattle.std.specs.Prelude.{◌≡◌, ◌↔◌, ◌+◌, IsTrue};

/// Whether the edit after the last one has this number.
pub fn is_next(last: u64, number: u64) -> bool
    ensures { IsTrue result ↔ (number ≡ last + 1) }
{
    number > last && number - last == 1
}
