//! Prints what a tile archive has: its counts and zooms, its metadata, its tiles, and the layers of one tile.
//!
//!     read_archive FILE ID
//!
//! An example of `pmtiles` and `mvt`. The archive in `data/` has tiles that GDAL wrote (`tests/archives/harbour.py`).
#![tactic(auto)]

mod tile;

use pmtiles::{Archive, DirectoryEntry, tile_of, verify};
use std::{fs, io, str};
use tile::print_tile;

/// Prints the header's zooms, the counts of the sound archive, and its metadata.
fn print_header(rt: &HostRuntime, archive: &mut Archive<&[u8]>) -> anyhow::Result<()> {
    let report = verify(rt.alloc(), archive)?;
    let header = archive.header();
    let (least, most) = (header.min_zoom, header.max_zoom);
    let metadata = archive.metadata()?;
    let text = str::from_utf8(&metadata)?;
    Ok(println!(rt; "zooms {least} to {most}: {report}\nmetadata: {text}")?)
}

/// Prints the tiles of entries, one a line: the least id, how many tiles share the content, and how long it is.
fn print_entries(rt: &HostRuntime, entries: &[DirectoryEntry]) -> io::Result<()> {
    for entry in entries {
        if let Some(at) = tile_of(entry.id) {
            println!(rt;
                "tile {}/{}/{}: id {}, run {}, {} bytes",
                at.z, at.x, at.y, entry.id, entry.run, entry.length
            )?;
        }
    }
    Ok(())
}

/// Prints the tile of an id, if the archive has it.
fn print_content(rt: &HostRuntime, archive: &mut Archive<&[u8]>, id: u64) -> anyhow::Result<()> {
    match archive.tile(id)? {
        Some(content) => print_tile(rt, &content),
        None => Ok(println!(rt; "no tile {id}")?),
    }
}

/// Prints what an archive has, and the tile of an id.
fn print_archive(rt: &HostRuntime, path: &str, bytes: &[u8], id: &str) -> anyhow::Result<()> {
    let mut archive = match Archive::open(rt.alloc(), bytes) {
        Ok(archive) => archive,
        Err((_, fault)) => anyhow::bail!("{path}: {fault}"),
    };
    print_header(rt, &mut archive)?;
    print_entries(rt, &archive.list()?)?;
    print_content(rt, &mut archive, id.parse()?)
}

fn main(rt: HostRuntime) -> anyhow::Result<()> {
    let words: Vec<String> = std::env::args(&rt)?.collect(rt.alloc())?;
    let [_, path, id] = words.as_slice() else {
        anyhow::bail!("usage: read_archive FILE ID");
    };
    print_archive(&rt, path, &fs::read(&rt, path.as_str())?, id)
}
