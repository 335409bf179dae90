//! The bytes that tell kinds apart in texts of changes.

/// The first byte of a geometry of points.
pub const POINTS_KIND: u8 = 1;
/// The first byte of a geometry of lines.
pub const LINES_KIND: u8 = 2;
/// The first byte of a geometry of polygons.
pub const POLYGONS_KIND: u8 = 3;

/// The first byte of a value that is a text.
pub const TEXT_KIND: u8 = 1;
/// The first byte of a value that is a natural number.
pub const NATURAL_KIND: u8 = 2;
/// The first byte of a value that is a number below 0.
pub const NEGATIVE_KIND: u8 = 3;
/// The one byte of the value `false`.
pub const FALSE_KIND: u8 = 4;
/// The one byte of the value `true`.
pub const TRUE_KIND: u8 = 5;

/// The first byte of a change that gives a number a feature.
pub const PUT_KIND: u8 = 1;
/// The first byte of a change that takes a number's feature away.
pub const DELETE_KIND: u8 = 2;
