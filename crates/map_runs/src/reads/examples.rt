//! The standard's examples of shapes, encoded (Mapbox Vector Tile 2.1, 4.3.5).
use geometry_commands::{Pt, encode_lines, encode_points, encode_rings};
use script_bytes::Answer;
use std::alloc::{AllocError, Global};

/// The points of the line.
const LINE: [Pt; 3] = [Pt { x: 2, y: 2 }, Pt { x: 2, y: 10 }, Pt { x: 10, y: 10 }];

/// The points of the ring.
const RING: [Pt; 3] = [Pt { x: 3, y: 6 }, Pt { x: 8, y: 12 }, Pt { x: 20, y: 34 }];

/// The integers of the points (5,7) and (3,2).
fn points(alloc: Global) -> Result<Vec<u32>, AllocError> {
    encode_points(alloc, &[Pt { x: 5, y: 7 }, Pt { x: 3, y: 2 }])
}

/// The integers of the line from (2,2) over (2,10) to (10,10).
fn line(alloc: Global) -> Result<Vec<u32>, AllocError> {
    let line = Vec::from_slice(alloc, &LINE)?;
    encode_lines(alloc, &[line])
}

/// The integers of the ring of (3,6), (8,12) and (20,34).
fn ring(alloc: Global) -> Result<Vec<u32>, AllocError> {
    let ring = Vec::from_slice(alloc, &RING)?;
    encode_rings(alloc, &[ring])
}

/// The integers of the example of this kind; none of another.
pub(crate) fn example(answer: &mut Answer, kind: &str) {
    let alloc = answer.alloc();
    let integers = match kind {
        "points" => points(alloc),
        "line" => line(alloc),
        "ring" => ring(alloc),
        _ => Ok(Vec::new(alloc)),
    };
    answer.show_made(&integers);
}
