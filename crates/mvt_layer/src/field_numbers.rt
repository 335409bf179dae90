//! Field numbers and enumerated values of the tile format (Mapbox Vector Tile 2.1, 4 and its `vector_tile.proto`).

/// The layers of a tile.
pub const TILE_LAYERS: u32 = 3;

/// The name of a layer.
pub const LAYER_NAME: u32 = 1;

/// The features of a layer.
pub const LAYER_FEATURES: u32 = 2;

/// The keys of a layer's tags.
pub const LAYER_KEYS: u32 = 3;

/// The values of a layer's tags.
pub const LAYER_VALUES: u32 = 4;

/// The extent of a layer.
pub const LAYER_EXTENT: u32 = 5;

/// The version of a layer.
pub const LAYER_VERSION: u32 = 15;

/// The id of a feature.
pub const FEATURE_ID: u32 = 1;

/// The tag indices of a feature.
pub const FEATURE_TAGS: u32 = 2;

/// The geometry type of a feature.
pub const FEATURE_TYPE: u32 = 3;

/// The geometry of a feature: its command integers.
pub const FEATURE_GEOMETRY: u32 = 4;

/// A value that is a text.
pub const STRING_VALUE: u32 = 1;

/// A value that is a floating point number of 32 bits.
pub const FLOAT_VALUE: u32 = 2;

/// A value that is a floating point number of 64 bits.
pub const DOUBLE_VALUE: u32 = 3;

/// A value that is an integer, in two's complement.
pub const INT_VALUE: u32 = 4;

/// A value that is an unsigned integer.
pub const UINT_VALUE: u32 = 5;

/// A value that is an integer, zigzag encoded.
pub const SINT_VALUE: u32 = 6;

/// A value that is true or false.
pub const BOOL_VALUE: u32 = 7;

/// The geometry type of a feature that names none.
pub const UNKNOWN_TYPE: u64 = 0;

/// The geometry type of points.
pub const POINT_TYPE: u64 = 1;

/// The geometry type of lines.
pub const LINESTRING_TYPE: u64 = 2;

/// The geometry type of polygons.
pub const POLYGON_TYPE: u64 = 3;
