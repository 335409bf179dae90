//! Runs a script over a map and its parts, and over bytes of any maker: a line on standard input, its answer on standard output.
//!
//! A line `part maps` or `part reads` says whose commands follow; it has no answer, and each part keeps what it works on. A line is a word
//! and what follows it. An empty line and one that begins with `#` are repeated; the answer to an unknown word, and to bytes that
//! can't be made out, is `?` and the line. `<COUNT:TEXT>` in a FEATURE or an INPUT stands for a text that is repeated. Numbers are decimal,
//! 0 where they are left out. In place of an answer stands a fault. An answer of over 10,000 bytes is told by its first ones, its length and
//! a digest. What is wanted of each line is in `model/map_stand.py` and `model/read_stand.py`.
//!
//! # `part maps`, which the first lines are of
//!
//! FEATURE is a feature as JSON (`docs/HTTP.md`). BOX is the first and the last column and the first and the last row of a box of the world.
//!
//! A feature alone, and edits:
//!
//! | Line | Answer |
//! |---|---|
//! | `json FEATURE` | the JSON that is written of it |
//! | `text ID FEATURE` | the text of the change that gives the number this feature |
//! | `reach FEATURE` | how many tiles it covers, and the fault where these are too many |
//! | `covers ZOOM FEATURE` | the columns and the rows of a zoom that it covers |
//! | `deleted ID` | the texts of the change and of the edit that take a feature away |
//! | `changes CHANGES` | the text of an edit of changes as JSON |
//! | `checked CHANGES` | the same of changes with what their author saw, and that of each number |
//! | `record VERSION TEXT` | the text of a record's edit, written again by this version, and as an edit's |
//!
//! A map that keeps tiles (`map LAST`: the empty one, whose last edit has this number):
//!
//! | Line | Answer |
//! |---|---|
//! | `put ID FEATURE`, `delete ID`, `make TEXT` | the number of the edit, and how many features there are; `make` has the edit by its text |
//! | `random COUNT IDS SEED ONE_IN` | the last of COUNT edits that look random, of ids below IDS, one in ONE_IN a deletion; counts and a digest |
//! | `look ID` | the copy of a number's feature |
//! | `tile Z X Y` | a tile's bytes, as they are kept or made |
//! | `anew Z X Y` | its bytes, cut anew, none where it shows nothing |
//! | `layers Z X Y` | its layers: name, version, extent, numbers of features |
//! | `newest Z X Y` | the number of the newest edit that can have touched it |
//! | `square Z X Y SIDE` | the tiles of SIDE columns and rows from this one: how many are cached, and a digest of what `tile` answers of each |
//! | `tiles` | all tiles with their ids |
//! | `snapshot`, `restore TEXT` | the snapshot of the map that is read back from the map's snapshot; the map of a snapshot replaces this one |
//! | `metadata` | its metadata |
//! | `area FREE` | what a publication writes into an area of `FREE` sectors: lengths of snapshot and archive, sectors, and these |
//!
//! A map from numbers to numbers (`numbers`: an empty one):
//!
//! | Line | Answer |
//! |---|---|
//! | `set N VALUE`, `unset N`, `get N` | the value before, or now |
//! | `from N` | the first entry with this number or a greater one |
//! | `fillup COUNT STEP`, `filldown COUNT STEP` | 0, STEP, 2 STEP .. get the values 0, 1, 2 .., in this order or from the last one down |
//! | `thin COUNT STEP ONE_IN` | how many of such numbers were there and are taken out: all but the second of each `ONE_IN` |
//! | `serve N` | with room made once: whether it was there; its value before it gets 1, then, and as it is taken out |
//! | `entries` | how many entries there are, and a digest of them |
//! | `blocks MOST` | whether there are at most `MOST` blocks |
//!
//! An index of boxes (`boxes`: an empty one), the grids of the newest edits and a cache of tiles (`caches`: empty ones):
//!
//! | Line | Answer |
//! |---|---|
//! | `add ID BOX MINZOOM MAXZOOM`, `take ..` | an entry is added, or taken out |
//! | `query BOX ZOOM` | the numbers of the entries that show there |
//! | `scatter COUNT ACROSS DOWN`, `gather COUNT ACROSS DOWN ONE_IN` | `COUNT` boxes, each `ACROSS` and `DOWN` from the one before; all but each `ONE_IN`th |
//! | `boxblocks MOST` | whether there are at most `MOST` blocks |
//! | `mark BOX NUMBER`, `touched Z X Y` | an edit touched a box; the newest edit that can have touched a tile |
//! | `wide Z X Y` | the same by the grid of wide maps |
//! | `hold Z X Y NUMBER BYTE`, `held Z X Y NUMBER` | a tile is held with an edit's number; its bytes, if they are held with this number or a later one |
//!
//! # `part reads`
//!
//! INPUT is hexadecimal digits, `-` for no bytes, or `@NAME` for bytes that a line has kept, and then changes from left to right: `AT=HEX`
//! puts bytes at a place, `..LEN` cuts, `+HEX` adds.
//!
//! | Line | Answer |
//! |---|---|
//! | `keep NAME INPUT` | how many bytes have this name from now on |
//! | `varint INPUT` | the number in front, and how many bytes it takes |
//! | `fields INPUT` | the fields of a message, up to the first fault |
//! | `tile INPUT` | the layers of a vector tile |
//! | `change INPUT`, `edit INPUT` | the change, or the edit, whose text stands in front, and how many bytes that has |
//! | `header INPUT`, `directory INPUT`, `metadata INPUT` | the header of an archive; the entries of a directory; whether it is a JSON object |
//! | `find ID INPUT` | the entry of a directory that leads to an id |
//! | `list INPUT` | the tile entries of an archive |
//! | `contents ID,ID.. INPUT`, `looks ID,ID.. INPUT` | the contents of ids in an archive; the same by one look-up that is kept |
//! | `verify INPUT`, `show INPUT` | the status and the line of `vtserve verify`; what `vtserve show` writes |
//! | `build ID:HEX ..` | the archive of tiles of these ids and contents |
//! | `even COUNT HEX`, `evenjudged COUNT HEX` | the archive of `COUNT` tiles of even ids with one content; the line of `verify` about it |
//! | `apart COUNT LENGTH` | the archive of `COUNT` tiles of even ids, each with a content of `LENGTH` bytes of its own |
//! | `shape KIND INTEGER ..` | the shape of `points`, `lines`, `polygons` or `unknown` that integers spell |
//! | `example points`, `example line`, `example ring` | the integers of the standard's example of this shape |
//! | `nothing` | the integers that are written of no lines, and of no rings |
//! | `spell N ..` | numbers as they are encoded in a message, one after the other |
//! | `zigzag N`, `unzigzag N` | a signed number as an unsigned one, and back |
//! | `id Z X Y`, `place ID` | the id of a tile, and the tile of an id |
//! | `range TEXT`, `rangeof INPUT` | the bytes that the value of a field `range` asks for |
//! | `digits TEXT`, `written N N` | the number that digits write; two numbers in digits after texts |
#![tactic(auto)]

mod lines;
mod maps;
mod reads;
mod script;

use script::Script;
use script_bytes::{Answer, clipped};
use std::io;

fn print(rt: &HostRuntime, answer: &Answer, line: &str) -> io::Result<()> {
    match answer.told()? {
        Some(told) => {
            let text = clipped(rt.alloc(), told)?;
            println!(rt; "{text}")
        }
        None => println!(rt; "? {line}"),
    }
}

/// Answers a line. One that says whose commands follow has no answer.
fn answer_line(rt: &HostRuntime, script: &mut Script, line: &str) -> io::Result<()> {
    if let Some(name) = line.strip_prefix("part ") {
        if !script.begin(name) {
            println!(rt; "no part {name}")?;
        }
        return Ok(());
    }
    let mut answer = Answer::new(rt.alloc());
    script.answer(&mut answer, line);
    print(rt, &answer, line)
}

/// Answers each line. The script is lent, so that no way out of the loop has it to drop.
fn answer_lines(rt: &HostRuntime, script: &mut Script) -> io::Result<()> {
    for line in rt.lines(rt.alloc()) {
        answer_line(rt, script, line?.as_str())?;
    }
    Ok(())
}

fn main(rt: HostRuntime) -> io::Result<()> {
    let mut script = Script::new(rt.alloc())?;
    let answered = answer_lines(&rt, &mut script);
    drop(script);
    answered
}
