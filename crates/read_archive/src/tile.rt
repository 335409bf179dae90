//! Prints a vector tile.
use mvt::{Layer, TagValue, TileFeature, read_tile};
use std::io;

/// Prints a tag as `key=value`, a floating point number as its bytes.
fn print_tag(rt: &HostRuntime, key: &str, value: TagValue<'_>) -> io::Result<()> {
    print!(rt; " {key}=")?;
    match value {
        TagValue::Text(text) => rt.print(text),
        TagValue::Natural(number) => rt.print(number),
        TagValue::Negative(number) => rt.print(number),
        TagValue::Truth(is) => rt.print(is),
        TagValue::Float(bytes) => print!(rt; "{bytes:?}"),
        TagValue::Double(bytes) => print!(rt; "{bytes:?}"),
    }
}

/// Prints a feature: its shape in units of the tile, and its tags.
fn print_feature(rt: &HostRuntime, feature: &TileFeature<'_>) -> io::Result<()> {
    print!(rt; "  {:?}", feature.shape)?;
    for (key, value) in &feature.tags {
        print_tag(rt, key, *value)?;
    }
    println!(rt)
}

/// Prints a layer: its name, its extent and its features.
fn print_layer(rt: &HostRuntime, layer: &Layer<'_>) -> io::Result<()> {
    println!(rt;
        "{}: extent {}, {} features",
        layer.name,
        layer.extent,
        layer.features.len()
    )?;
    for feature in &layer.features {
        print_feature(rt, feature)?;
    }
    Ok(())
}

/// Prints the layers of a tile.
pub(crate) fn print_tile(rt: &HostRuntime, content: &[u8]) -> anyhow::Result<()> {
    for layer in &read_tile(rt.alloc(), content)? {
        print_layer(rt, layer)?;
    }
    Ok(())
}
