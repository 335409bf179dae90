//! The four quarters of a square, in the order of the curve.

ghost use Rattle.std.specs.Prelude.{◌≡◌, ℕ, ◌<◌, ◌≤◌, ◌^◌, false, IfSome, MatchOption};
ghost use Rattle.tile_walk.specs.Boxes.{has};
ghost use Rattle.tile_walk.specs.Quarters.{order_of, placed, IsPlaced, IsApart, IsOnlyIn};

use tile_cutter::TileRange;

/// A quarter of a square, by its place along the curve.
#[derive(Clone, Copy)]
pub(crate) enum Quarter {
    /// The upper left one, with columns and rows exchanged.
    First,
    /// The lower left one.
    Second,
    /// The lower right one.
    Third,
    /// The upper right one, with columns and rows exchanged and both counted backwards.
    Fourth,
}

/// How many quarters the curve goes through before this one.
pub(crate) fn order_of(quarter: Quarter) -> u64
    ensures order { result ≡ order_of quarter }
    ensures few { result ≤ 3 }
{
    match quarter {
        Quarter::First => 0,
        Quarter::Second => 1,
        Quarter::Third => 2,
        Quarter::Fourth => 3,
    }
}

/// The quarter in which a range of a square has tiles, if it has tiles in one of them alone. `half` is the side of a quarter.
pub(crate) fn only_quarter(half: u32, range: TileRange) -> Option<Quarter>
    requires half { (0 < half) × (half ≤ 2 ^ 30) }
    ensures only { IfSome result (λ q. IsOnlyIn q half range) }
{
    if range.x1 < half {
        if range.y1 < half {
            return Some(Quarter::First);
        }
        if range.y0 >= half {
            return Some(Quarter::Second);
        }
        return None;
    }
    if range.x0 < half {
        return None;
    }
    if range.y0 >= half {
        return Some(Quarter::Third);
    }
    if range.y1 < half {
        return Some(Quarter::Fourth);
    }
    None
}

/// A range of a square in the columns and rows of a quarter, whose side is `half`. `None` if it has no tile there.
pub(crate) fn range_in(quarter: Quarter, half: u32, range: TileRange) -> Option<TileRange>
    requires half { (0 < half) × (half ≤ 2 ^ 30) }
    ensures placed { MatchOption result (IsApart quarter half range) (λ r. IsPlaced quarter half range r) }
{
    match quarter {
        Quarter::First if range.x0 < half && range.y0 < half => Some(TileRange {
            x0: range.y0,
            x1: range.y1,
            y0: range.x0,
            y1: range.x1,
        }),
        Quarter::Second if range.x0 < half && range.y1 >= half => Some(TileRange {
            x0: range.x0,
            x1: range.x1,
            y0: range.y0.saturating_sub(half),
            y1: range.y1 - half,
        }),
        Quarter::Third if range.x1 >= half && range.y1 >= half => Some(TileRange {
            x0: range.x0.saturating_sub(half),
            x1: range.x1 - half,
            y0: range.y0.saturating_sub(half),
            y1: range.y1 - half,
        }),
        Quarter::Fourth if range.x1 >= half && range.x0 < 2 * half && range.y0 < half => Some(
            TileRange {
                x0: (half - 1).saturating_sub(range.y1),
                x1: half - 1 - range.y0,
                y0: (2 * half - 1).saturating_sub(range.x1),
                y1: 2 * half - 1 - range.x0,
            },
        ),
        _ => None,
    }
}
