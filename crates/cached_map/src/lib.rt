//! A map with a cache of its tiles: a tile that was asked for before, and that no edit can have touched since, isn't cut again.
#![tactic(auto)]

mod cached_map;
mod comparing;

pub use cached_map::CachedMap;
