//! Boxes of the world in a path.

ghost use Rattle.std.specs.Prelude.{◌≡◌, IsTrue, option_map};
ghost use Rattle.std.specs.List.{position};
ghost use Rattle.tile_routes.specs.Boxes.{is_comma, cut, is_box, box_with, box_of, parts_view};

use crate::number::path_number;
use feature_model::WorldBox;

/// The index of the first comma, if there is one.
fn comma_in(text: &[u8]) -> Option<usize>
    ensures { result ≡ position is_comma text.now }
{
    text.iter().position(|byte| *byte == b',')
}

/// What a text has before its first comma, and behind it.
fn cut(text: &[u8]) -> Option<(&[u8], &[u8])>
    ensures { option_map parts_view result ≡ cut text.now }
{
    match comma_in(text) {
        Some(comma) => Some((&text[..comma], &text[comma + 1..])),
        None => None,
    }
}

/// Whether these are the left, the upper, the right and the lower edge of a box of the world.
fn is_box(x0: u64, y0: u64, x1: u64, y1: u64) -> bool
    ensures { result ≡ is_box x0 y0 x1 y1 }
{
    x0 <= x1 && x1 <= u64::from(u32::MAX) && y0 <= y1 && y1 <= u64::from(u32::MAX)
}

/// The box with these edges.
fn world_box(x0: u64, y0: u64, x1: u64, y1: u64) -> WorldBox
    requires { IsTrue (is_box x0 y0 x1 y1) }
    ensures { result ≡ record { x0 = x0; x1 = x1; y0 = y0; y1 = y1 } }
{
    WorldBox {
        x0: x0 as u32,
        x1: x1 as u32,
        y0: y0 as u32,
        y1: y1 as u32,
    }
}

/// The box with these edges, if they are those of one.
fn box_with(x0: Option<u64>, y0: Option<u64>, x1: Option<u64>, y1: Option<u64>) -> Option<WorldBox>
    ensures { result ≡ box_with x0 y0 x1 y1 }
{
    let (Some(x0), Some(y0), Some(x1), Some(y1)) = (x0, y0, x1, y1) else {
        return None;
    };
    if is_box(x0, y0, x1, y1) {
        Some(world_box(x0, y0, x1, y1))
    } else {
        None
    }
}

/// The box whose left, upper, right and lower edge the text writes in decimal, without leading zeros, with commas between them.
pub(crate) fn path_box(text: &[u8]) -> Option<WorldBox>
    ensures { result ≡ box_of text.now }
{
    let Some((x0, rest)) = cut(text) else {
        return None;
    };
    let Some((y0, rest)) = cut(rest) else {
        return None;
    };
    let Some((x1, y1)) = cut(rest) else {
        return None;
    };
    box_with(
        path_number(x0),
        path_number(y0),
        path_number(x1),
        path_number(y1),
    )
}
