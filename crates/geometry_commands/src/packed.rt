//! Writes shapes as packed integers, point by point and line by line.

ghost use Rattle.std.specs.Prelude.{◌≡◌, ◌<◌, ◌^◌, ◌++◌, [], OnOk};
ghost use Rattle.std.specs.List.{flat_map};
ghost use Rattle.pb_wire.specs.Varint.{varint};
ghost use Rattle.geometry_commands.specs.Commands.{IsNear, AreNear, command, move_to, step, steps, origin};
ghost use Rattle.geometry_commands.specs.Encodable.{CanSpellLine};
ghost use Rattle.geometry_commands.specs.Identifiers.{id_number};
ghost use Rattle.geometry_commands.specs.Shapes.{last_of, line_spelled};

use crate::command::CommandId;
use crate::encode::way;
use crate::point::Pt;
use pb_wire::put_varint;
use std::alloc::{AllocError, Global};

/// Appends the integer of a command that is executed `count` times.
fn put_command(out: &mut Vec<u8>, id: CommandId, count: u32) -> Result<(), AllocError>
    requires { count < 2 ^ 29 }
    ensures { OnOk result (out.new.items ≡ out.old.items ++ varint (command (id_number id) count)) }
{
    put_varint(out, u64::from(id.times(count)))
}

/// Appends the two numbers of the way from one point to the next.
fn put_way(out: &mut Vec<u8>, from: Pt, to: Pt) -> Result<(), AllocError>
    requires { IsNear from to }
    ensures { OnOk result (out.new.items ≡ out.old.items ++ flat_map varint (step from to)) }
{
    put_varint(out, u64::from(way(from.x, to.x)))?;
    put_varint(out, u64::from(way(from.y, to.y)))?;
    Ok(())
}

/// The packed integers of one shape (Mapbox Vector Tile 2.1, 4.3), in memory that is used again for the next.
///
/// Points are a call of `begin_points` and one of `put_point` for each; lines and rings are a call of `put_line` for each.
#[derive(Drop)]
pub struct PackedShape {
    /// Each integer in its shortest encoding.
    pub bytes: Vec<u8>,
    /// The cursor: the last point that was put.
    pub at: Pt,
}

impl PackedShape {
    /// No integers, and no memory.
    pub fn new(alloc: Global) -> PackedShape
        ensures bytes { result.bytes.items ≡ [] }
        ensures at { result.at ≡ origin }
    {
        PackedShape {
            bytes: Vec::new(alloc),
            at: Pt::ORIGIN,
        }
    }

    /// Makes it empty, for another shape.
    pub fn clear(&mut self)
        ensures bytes { self.new.bytes.items ≡ [] }
        ensures at { self.new.at ≡ origin }
    {
        self.bytes.clear();
        self.at = Pt::ORIGIN;
    }

    /// Appends the command to move to `count` points. The only error is that an allocation fails.
    pub fn begin_points(&mut self, count: u32) -> Result<(), AllocError>
        requires { count < 2 ^ 29 }
        ensures bytes { OnOk result (self.new.bytes.items ≡ self.old.bytes.items ++ varint (command move_to count)) }
        ensures at { self.new.at ≡ self.old.at }
    {
        put_command(&mut self.bytes, CommandId::MoveTo, count)
    }

    /// Appends the way to a point, each of whose coordinates is at most 2^31 - 1 from the cursor's. The only error is that
    /// an allocation fails.
    pub fn put_point(&mut self, to: Pt) -> Result<(), AllocError>
        requires { IsNear self.old.at to }
        ensures bytes { OnOk result (self.new.bytes.items ≡ self.old.bytes.items ++ flat_map varint (step self.old.at to)) }
        ensures at { OnOk result (self.new.at ≡ to) }
    {
        put_way(&mut self.bytes, self.at, to)?;
        self.at = to;
        Ok(())
    }

    /// Appends the way along points.
    fn put_points(&mut self, points: &[Pt]) -> Result<(), AllocError>
        requires { AreNear self.old.at points.now }
        ensures bytes { OnOk result (self.new.bytes.items ≡ self.old.bytes.items ++ flat_map varint (steps self.old.at points.now)) }
        ensures at { OnOk result (self.new.at ≡ last_of self.old.at points.now) }
    {
        for point in points {
            self.put_point(*point)?;
        }
        Ok(())
    }

    /// Appends a line, or a ring if `closed`: a command to move to its first point, one to draw along the others, and for a
    /// ring one to close it (Mapbox Vector Tile 2.1, 4.3.4.3 and 4.3.4.4).
    ///
    /// A line has at least two points, a ring three, the first not repeated at its end; both have fewer than 2^29. From
    /// point to point, the first counted from the cursor, each coordinate changes by at most 2^31 - 1. The only error is
    /// that an allocation fails.
    pub fn put_line(&mut self, closed: bool, line: &[Pt]) -> Result<(), AllocError>
        requires { CanSpellLine closed self.old.at line.now }
        ensures bytes { OnOk result
            (self.new.bytes.items ≡ self.old.bytes.items ++ flat_map varint (line_spelled closed self.old.at line.now)) }
        ensures at { OnOk result (self.new.at ≡ last_of self.old.at line.now) }
    {
        let first = line[0];
        let others = &line[1..];
        put_command(&mut self.bytes, CommandId::MoveTo, 1)?;
        self.put_point(first)?;
        put_command(&mut self.bytes, CommandId::LineTo, others.len() as u32)?;
        self.put_points(others)?;
        if closed {
            put_command(&mut self.bytes, CommandId::ClosePath, 1)?;
        }
        Ok(())
    }
}
