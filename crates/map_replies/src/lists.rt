//! Lists of texts, with commas between them.
ghost use Rattle.std.specs.Prelude.{◌≡◌, ◌++◌, OnOk};
ghost use Rattle.map_replies.specs.Lists.{comma_if};

use std::alloc::AllocError;

/// What comes before a text: nothing before the first one, a comma before each other.
#[tactic(auto, unfolding(crate::specs::Lists::comma))]
fn comma_if(more: bool) -> &'static [u8]
    ensures { result.now ≡ comma_if more }
{
    if more { b"," } else { b"" }
}

/// Adds a text to a list.
pub(crate) fn add_listed(text: &mut Vec<u8>, more: bool, one: &[u8]) -> Result<(), AllocError>
    ensures { OnOk result (text.new.items ≡ text.old.items ++ (comma_if more ++ one.now)) }
{
    text.extend_from_slice(comma_if(more))?;
    text.extend_from_slice(one)?;
    Ok(())
}
