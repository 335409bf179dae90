//! The part `reads`: lines about bytes of any maker.
mod archives;
mod builds;
mod examples;
mod inputs;
mod messages;
mod numbers;

use crate::lines::{Line, asked};
use edit_text::decode_change;
pub(crate) use inputs::Inputs;
use mvt_layer::read_tile;
use pb_wire::get_varint;
use pm_directory::read_directory;
use pm_metadata::is_metadata;
use script_bytes::{Answer, number_in, parted};

/// What a line about bytes asks for.
#[derive(Clone, Copy)]
enum BytesAsks {
    Varint,
    Fields,
    Tile,
    Change,
    Edit,
    Header,
    Directory,
    Metadata,
    List,
    Verify,
    Show,
    RangeOf,
}

/// What a line about a name or ids, and bytes, asks for.
#[derive(Clone, Copy)]
enum NamedAsks {
    Keep,
    Find,
    Contents,
    Looks,
}

/// What a line asks for.
#[derive(Clone, Copy)]
enum Asks {
    Bytes(BytesAsks),
    Named(NamedAsks),
    Build(builds::Asks),
    Numbers(numbers::Asks),
}

/// The words that lines begin with.
static WORDS: [(&str, Asks); 31] = [
    ("varint", Asks::Bytes(BytesAsks::Varint)),
    ("fields", Asks::Bytes(BytesAsks::Fields)),
    ("tile", Asks::Bytes(BytesAsks::Tile)),
    ("change", Asks::Bytes(BytesAsks::Change)),
    ("edit", Asks::Bytes(BytesAsks::Edit)),
    ("header", Asks::Bytes(BytesAsks::Header)),
    ("directory", Asks::Bytes(BytesAsks::Directory)),
    ("metadata", Asks::Bytes(BytesAsks::Metadata)),
    ("list", Asks::Bytes(BytesAsks::List)),
    ("verify", Asks::Bytes(BytesAsks::Verify)),
    ("show", Asks::Bytes(BytesAsks::Show)),
    ("rangeof", Asks::Bytes(BytesAsks::RangeOf)),
    ("keep", Asks::Named(NamedAsks::Keep)),
    ("find", Asks::Named(NamedAsks::Find)),
    ("contents", Asks::Named(NamedAsks::Contents)),
    ("looks", Asks::Named(NamedAsks::Looks)),
    ("build", Asks::Build(builds::Asks::Build)),
    ("even", Asks::Build(builds::Asks::Even)),
    ("apart", Asks::Build(builds::Asks::Apart)),
    ("evenjudged", Asks::Build(builds::Asks::EvenJudged)),
    ("shape", Asks::Numbers(numbers::Asks::Shape)),
    ("example", Asks::Numbers(numbers::Asks::Example)),
    ("nothing", Asks::Numbers(numbers::Asks::Nothing)),
    ("spell", Asks::Numbers(numbers::Asks::Spell)),
    ("zigzag", Asks::Numbers(numbers::Asks::Zigzag)),
    ("unzigzag", Asks::Numbers(numbers::Asks::Unzigzag)),
    ("id", Asks::Numbers(numbers::Asks::Id)),
    ("place", Asks::Numbers(numbers::Asks::Place)),
    ("range", Asks::Numbers(numbers::Asks::Range)),
    ("digits", Asks::Numbers(numbers::Asks::Digits)),
    ("written", Asks::Numbers(numbers::Asks::Written)),
];

/// What is told of bytes.
fn tell_bytes(answer: &mut Answer, asks: BytesAsks, bytes: &[u8]) {
    match asks {
        BytesAsks::Varint => answer.show(&get_varint(bytes)),
        BytesAsks::Fields => messages::fields(answer, bytes),
        BytesAsks::Tile => answer.show_read(&read_tile(answer.alloc(), bytes)),
        BytesAsks::Change => messages::counted(answer, &decode_change(answer.alloc(), bytes)),
        BytesAsks::Edit => messages::edit(answer, bytes),
        BytesAsks::Header => archives::header(answer, bytes),
        BytesAsks::Directory => answer.show_read(&read_directory(answer.alloc(), bytes)),
        BytesAsks::Metadata => answer.show_made(&is_metadata(answer.alloc(), bytes)),
        BytesAsks::List => archives::list(answer, bytes),
        BytesAsks::Verify => archives::judged(answer, bytes),
        BytesAsks::Show => archives::shown(answer, bytes),
        BytesAsks::RangeOf => numbers::range(answer, bytes),
    }
}

/// Answers a line about bytes.
fn answer_bytes(answer: &mut Answer, inputs: &Inputs, asks: BytesAsks, text: &str) {
    match inputs.input(answer.alloc(), text) {
        Some(bytes) => tell_bytes(answer, asks, &bytes),
        None => answer.reject(),
    }
}

/// Answers a line that gives bytes a name, or is about ids in bytes.
fn answer_named(answer: &mut Answer, inputs: &mut Inputs, asks: NamedAsks, rest: &str) {
    let (name, text) = parted(rest);
    match inputs.input(answer.alloc(), text) {
        Some(bytes) => match asks {
            NamedAsks::Keep => inputs.keep(answer, name, bytes),
            NamedAsks::Find => archives::found(answer, number_in(name), &bytes),
            NamedAsks::Contents => archives::contents(answer, name, &bytes),
            NamedAsks::Looks => archives::looks(answer, name, &bytes),
        },
        None => answer.reject(),
    }
}

/// Answers a line.
pub(crate) fn answer(answer: &mut Answer, inputs: &mut Inputs, line: &Line<'_>) {
    let Some(asks) = asked(&WORDS, line.word) else {
        return answer.reject();
    };
    match asks {
        Asks::Bytes(asks) => answer_bytes(answer, inputs, asks, line.rest),
        Asks::Named(asks) => answer_named(answer, inputs, asks, line.rest),
        Asks::Build(asks) => builds::answer(answer, asks, line),
        Asks::Numbers(asks) => numbers::answer(answer, asks, line),
    }
}
