//! Lines about archives that are built.
use super::inputs::place;
use crate::lines::Line;
use archive_commands::{Verdict, verify};
use pm_build::{ArchiveBuilder, BuildFault, BuiltArchive};
use pm_metadata::is_metadata;
use script_bytes::{Answer, number_in, parted};
use std::alloc::{AllocError, Global};

/// What archive a line asks for: of the tiles that it has, of even ids with one content or with one each; or what `verify` says of one.
#[derive(Clone, Copy)]
pub(crate) enum Asks {
    Build,
    Even,
    Apart,
    EvenJudged,
}

/// The metadata of a map of one point.
const METADATA: &[u8] = br#"{"vector_layers":[{"fields":{},"id":"p","maxzoom":2,"minzoom":0}]}"#;

/// The answer where there is no archive.
const NO_TILES: &str = "no tiles";

/// The id of a tile, and its content.
type Tile = (u64, Vec<u8>);

/// Adds tiles to an archive. Returns false if one isn't a tile, or its id isn't greater than those before it.
fn add_all(builder: &mut ArchiveBuilder, tiles: &[Tile]) -> Result<bool, BuildFault> {
    for (id, content) in tiles {
        let (id, content) = (*id, content.as_slice());
        if !builder.can_add(id, content) {
            return Ok(false);
        }
        builder.add(id, content)?;
    }
    Ok(true)
}

/// What is told of an archive's bytes: these, or the line of `verify`.
fn tell_bytes(answer: &mut Answer, asks: Asks, bytes: &[u8]) {
    match asks {
        Asks::EvenJudged => answer.tell(&Verdict::of(verify(answer.alloc(), bytes))),
        _ => answer.hex(bytes),
    }
}

/// The same of an archive in two parts.
fn tell_archive(answer: &mut Answer, asks: Asks, archive: BuiltArchive) {
    let BuiltArchive {
        mut front,
        contents,
    } = archive;
    let joined = front.extend_from_slice(&contents);
    drop(contents);
    match joined {
        Ok(()) => tell_bytes(answer, asks, &front),
        Err(_) => answer.refuse(),
    }
}

/// The same of the archive of what a builder has.
fn finish(answer: &mut Answer, asks: Asks, builder: ArchiveBuilder) {
    let Ok(is_object) = is_metadata(answer.alloc(), METADATA) else {
        return answer.refuse();
    };
    if builder.is_empty() || !is_object {
        return answer.say(NO_TILES);
    }
    match builder.finish(METADATA) {
        Ok(archive) => tell_archive(answer, asks, archive),
        Err(_) => answer.refuse(),
    }
}

/// The same of the archive of tiles.
fn build(answer: &mut Answer, asks: Asks, tiles: &[Tile]) {
    let mut builder = ArchiveBuilder::new(answer.alloc());
    match add_all(&mut builder, tiles) {
        Ok(true) => finish(answer, asks, builder),
        Ok(false) => answer.say(NO_TILES),
        Err(fault) => answer.tell(&fault),
    }
}

/// A content in hexadecimal digits, or no bytes if it isn't one.
fn content(alloc: Global, text: &str) -> Vec<u8> {
    hex::decode(alloc, text).unwrap_or(Vec::new(alloc))
}

/// Adds the tiles of words: an id, `:`, and the content.
fn add_words(alloc: Global, tiles: &mut Vec<Tile>, rest: &str) -> Result<(), AllocError> {
    for word in rest.split_whitespace() {
        let (id, text) = word.split_once(':').unwrap_or((word, ""));
        tiles.push((number_in(id), content(alloc, text)))?;
    }
    Ok(())
}

/// Adds `count` tiles of even ids, all with this content.
fn add_even(alloc: Global, tiles: &mut Vec<Tile>, rest: &str) -> Result<(), AllocError> {
    let (count, text) = parted(rest);
    let content = content(alloc, text);
    for index in 0..number_in(count).min(1 << 20) {
        tiles.push((2 * index, Vec::from_slice(alloc, &content)?))?;
    }
    Ok(())
}

/// The content of `len` bytes of tile `index`: its number, least significant byte first, and zeros.
fn own_content(alloc: Global, index: u64, len: usize) -> Result<Vec<u8>, AllocError> {
    let mut content = Vec::from_slice(alloc, &index.to_le_bytes())?;
    content.resize(len, 0)?;
    Ok(content)
}

/// Adds `count` tiles of even ids, each with a content of `len` bytes of its own.
fn add_apart(alloc: Global, tiles: &mut Vec<Tile>, count: u64, len: u64) -> Result<(), AllocError> {
    let len = place(len).min(1_000);
    for index in 0..count.min(1 << 20) {
        tiles.push((2 * index, own_content(alloc, index, len)?))?;
    }
    Ok(())
}

/// Adds the tiles that a line is about.
fn add_tiles(
    alloc: Global,
    tiles: &mut Vec<Tile>,
    asks: Asks,
    line: &Line<'_>,
) -> Result<(), AllocError> {
    match asks {
        Asks::Build => add_words(alloc, tiles, line.rest),
        Asks::Apart => add_apart(alloc, tiles, line.numbers[0], line.numbers[1]),
        _ => add_even(alloc, tiles, line.rest),
    }
}

/// What is told of the archive of the tiles that a line is about.
pub(crate) fn answer(answer: &mut Answer, asks: Asks, line: &Line<'_>) {
    let mut tiles = Vec::new(answer.alloc());
    match add_tiles(answer.alloc(), &mut tiles, asks, line) {
        Ok(()) => build(answer, asks, &tiles),
        Err(_) => answer.refuse(),
    }
}
