//! Lists of points, of lines and of polygons in the bytes of a text.

use crate::trusted_numbers::{count_in, point_in, split};
use feature_model::World;

/// The bytes of a point.
pub(crate) const POINT_LEN: usize = 8;

/// The points of a list: eight bytes for each.
#[derive(Clone, Copy)]
pub struct Points<'a> {
    rest: &'a [u8],
}

impl<'a> Points<'a> {
    ghost use Rattle.std.specs.Prelude.{◌≡◌, length};
    ghost use Rattle.edit_text.specs.Trusted.{points_of, line_in};
    ghost use Rattle.edit_text.specs.Views.{points_view};

    /// The points of bytes that hold nothing else.
    fn of(bytes: &'a [u8]) -> Self
        ensures { points_view result ≡ points_of bytes.entry.now }
    {
        Points { rest: bytes }
    }

    /// The list at the start, and the bytes after it.
    #[tactic(auto, unfolding(crate::specs::Trusted::line_in))]
    pub(crate) fn front(bytes: &'a [u8]) -> (Self, &'a [u8])
        ensures list { points_view result.0 ≡ (line_in bytes.entry.now).0 }
        ensures rest { result.1.now ≡ (line_in bytes.entry.now).1 }
    {
        let (count, rest) = count_in(bytes);
        let (front, rest) = split(rest, 8 * usize::from(count));
        (Points::of(front), rest)
    }

    /// How many points there are.
    pub fn len(&self) -> usize
        ensures { result ≡ length (points_view self.now) }
    {
        self.rest.len() / POINT_LEN
    }
}

impl<'a> Iterator for Points<'a> {
    type Item = World;

    ghost use Rattle.std.specs.Iterator.{YieldsFirst, item_count};
    ghost use Rattle.edit_text.specs.Views.{points_view};

    ghost next_gives = { YieldsFirst points_view };

    ghost remaining = { item_count points_view };

    fn next(&mut self) -> Option<World> {
        if self.rest.len() < POINT_LEN {
            return None;
        }
        let (point, rest) = point_in(self.rest);
        self.rest = rest;
        Some(point)
    }
}

/// Lines, or the rings of a polygon.
#[derive(Clone, Copy)]
pub struct Lines<'a> {
    count: u16,
    rest: &'a [u8],
}

impl<'a> Lines<'a> {
    ghost use Rattle.std.specs.Prelude.{◌≡◌, ℕ, length};
    ghost use Rattle.edit_text.specs.Trusted.{each_in, line_in, lines_in};
    ghost use Rattle.edit_text.specs.Views.{lines_view};

    /// The bytes after `count` lines.
    fn behind(count: u16, bytes: &'a [u8]) -> &'a [u8]
        ensures { result.now ≡ (each_in line_in count bytes.entry.now).1 }
    {
        let mut rest = bytes;
        for _ in 0..count {
            let (_, behind) = Points::front(rest);
            rest = behind;
        }
        rest
    }

    /// The list at the start, and the bytes after it.
    #[tactic(auto, unfolding(crate::specs::Trusted::lines_in))]
    pub(crate) fn front(bytes: &'a [u8]) -> (Self, &'a [u8])
        ensures list { lines_view result.0 ≡ (lines_in bytes.entry.now).0 }
        ensures rest { result.1.now ≡ (lines_in bytes.entry.now).1 }
    {
        let (count, rest) = count_in(bytes);
        (Lines { count, rest }, Lines::behind(count, rest))
    }

    /// How many lines or rings there are.
    pub fn len(&self) -> usize
        ensures { result ≡ length (lines_view self.now) }
    {
        usize::from(self.count)
    }
}

impl<'a> Iterator for Lines<'a> {
    type Item = Points<'a>;

    ghost use Rattle.std.specs.Iterator.{YieldsFirstBy, item_count};
    ghost use Rattle.edit_text.specs.Views.{points_view, lines_view};

    ghost next_gives = { YieldsFirstBy points_view lines_view };

    ghost remaining = { item_count lines_view };

    fn next(&mut self) -> Option<Points<'a>> {
        if self.count == 0 {
            return None;
        }
        let (points, rest) = Points::front(self.rest);
        self.count -= 1;
        self.rest = rest;
        Some(points)
    }
}

/// Polygons, each by its rings.
#[derive(Clone, Copy)]
pub struct Polygons<'a> {
    count: u16,
    rest: &'a [u8],
}

impl<'a> Polygons<'a> {
    ghost use Rattle.std.specs.Prelude.{◌≡◌, ℕ, length};
    ghost use Rattle.edit_text.specs.Trusted.{each_in, lines_in, polygons_in};
    ghost use Rattle.edit_text.specs.Views.{polygons_view};

    /// The bytes after `count` polygons.
    fn behind(count: u16, bytes: &'a [u8]) -> &'a [u8]
        ensures { result.now ≡ (each_in lines_in count bytes.entry.now).1 }
    {
        let mut rest = bytes;
        for _ in 0..count {
            let (_, behind) = Lines::front(rest);
            rest = behind;
        }
        rest
    }

    /// The list at the start, and the bytes after it.
    #[tactic(auto, unfolding(crate::specs::Trusted::polygons_in))]
    pub(crate) fn front(bytes: &'a [u8]) -> (Self, &'a [u8])
        ensures list { polygons_view result.0 ≡ (polygons_in bytes.entry.now).0 }
        ensures rest { result.1.now ≡ (polygons_in bytes.entry.now).1 }
    {
        let (count, rest) = count_in(bytes);
        (Polygons { count, rest }, Polygons::behind(count, rest))
    }

    /// How many polygons there are.
    pub fn len(&self) -> usize
        ensures { result ≡ length (polygons_view self.now) }
    {
        usize::from(self.count)
    }
}

impl<'a> Iterator for Polygons<'a> {
    type Item = Lines<'a>;

    ghost use Rattle.std.specs.Iterator.{YieldsFirstBy, item_count};
    ghost use Rattle.edit_text.specs.Views.{lines_view, polygons_view};

    ghost next_gives = { YieldsFirstBy lines_view polygons_view };

    ghost remaining = { item_count polygons_view };

    fn next(&mut self) -> Option<Lines<'a>> {
        if self.count == 0 {
            return None;
        }
        let (rings, rest) = Lines::front(self.rest);
        self.count -= 1;
        self.rest = rest;
        Some(rings)
    }
}

/// What a feature is made of.
#[derive(Clone, Copy)]
pub enum GeometryText<'a> {
    Points(Points<'a>),
    Lines(Lines<'a>),
    Polygons(Polygons<'a>),
}
