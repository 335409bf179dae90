//! A square that is being cut into its quarters.

ghost use Rattle.std.specs.Prelude.{◌≡◌, ◌+◌, ◌-◌, ◌<◌, ◌≤◌, ◌^◌, ◌++◌, [], ◌∷◌, List, length, min, vec_len, vec_capacity, IfOk, OnOk};
ghost use Rattle.tile_walk.specs.Cut.{AreInQuarters, IsCut};
ghost use Rattle.tile_walk.specs.Quarters.{ArePlaced};
ghost use Rattle.tile_walk.specs.declared.numbered.Numbered.{Numbered};

use crate::numbered::Numbered;
use crate::quarter::{Quarter, only_quarter, range_in};
use crate::square::{Square, half_side};
use std::alloc::{AllocError, Global};

/// What is made of the quarters of a square: for each the boxes that have tiles there, in its columns and rows.
#[derive(Drop)]
pub(crate) struct Cut {
    /// How many boxes of the square are placed: the first ones.
    pub(crate) placed: usize,
    pub(crate) first: Vec<Numbered>,
    pub(crate) second: Vec<Numbered>,
    pub(crate) third: Vec<Numbered>,
    pub(crate) fourth: Vec<Numbered>,
}

/// Makes room for one box more of a quarter of a square that has `most` boxes. A list is copied once at most as it grows: half of the boxes are often all
/// that a quarter has. The only error is out of memory.
fn make_room(placed: &mut Vec<Numbered>, most: usize) -> Result<(), AllocError>
    ensures items { placed.new.items ≡ placed.old.items }
    ensures room { OnOk result (vec_len placed.new < vec_capacity placed.new) }
{
    if placed.len() < placed.capacity() {
        return Ok(());
    }
    if placed.is_empty() {
        return placed.reserve(most / 2 + 1);
    }
    placed.reserve(most.saturating_sub(placed.len()).max(1))
}

/// Appends a box of a square that has `most` boxes to those of a quarter, if it has tiles there. The only error is out of memory.
fn push_placed(
    placed: &mut Vec<Numbered>,
    quarter: Quarter,
    half: u32,
    most: usize,
    numbered: &Numbered,
) -> Result<(), AllocError>
    requires half { (0 < half) × (half ≤ 2 ^ 30) }
    ensures { OnOk result ((bs : List Numbered) → ArePlaced quarter half bs placed.old.items
        → ArePlaced quarter half (bs ++ numbered.now ∷ []) placed.new.items) }
{
    if let Some(range) = range_in(quarter, half, numbered.range) {
        make_room(placed, most)?;
        placed.push_reserved(Numbered {
            range,
            number: numbered.number,
        });
    }
    Ok(())
}

/// Appends a box of a square that has `most` boxes to those of each quarter in which it has tiles. The only error is out of memory.
fn place_in_all(
    cut: &mut Cut,
    half: u32,
    most: usize,
    numbered: &Numbered,
) -> Result<(), AllocError>
    requires half { (0 < half) × (half ≤ 2 ^ 30) }
    ensures placed { cut.new.placed ≡ cut.old.placed }
    ensures quarters { OnOk result ((bs : List Numbered) → AreInQuarters half bs cut.old → AreInQuarters half (bs ++ numbered.now ∷ []) cut.new) }
{
    push_placed(&mut cut.first, Quarter::First, half, most, numbered)?;
    push_placed(&mut cut.second, Quarter::Second, half, most, numbered)?;
    push_placed(&mut cut.third, Quarter::Third, half, most, numbered)?;
    push_placed(&mut cut.fourth, Quarter::Fourth, half, most, numbered)
}

/// The same, faster where the box has tiles in one quarter alone, as that of a point has.
#[tactic(auto, using(crate::proofs::Placed::apart_placed))]
fn place(cut: &mut Cut, half: u32, most: usize, numbered: &Numbered) -> Result<(), AllocError>
    requires half { (0 < half) × (half ≤ 2 ^ 30) }
    ensures placed { cut.new.placed ≡ cut.old.placed }
    ensures quarters { OnOk result ((bs : List Numbered) → AreInQuarters half bs cut.old → AreInQuarters half (bs ++ numbered.now ∷ []) cut.new) }
{
    match only_quarter(half, numbered.range) {
        Some(Quarter::First) => {
            push_placed(&mut cut.first, Quarter::First, half, most, numbered)
        }
        Some(Quarter::Second) => {
            push_placed(&mut cut.second, Quarter::Second, half, most, numbered)
        }
        Some(Quarter::Third) => {
            push_placed(&mut cut.third, Quarter::Third, half, most, numbered)
        }
        Some(Quarter::Fourth) => {
            push_placed(&mut cut.fourth, Quarter::Fourth, half, most, numbered)
        }
        None => place_in_all(cut, half, most, numbered),
    }
}

/// Appends boxes of a square that has `most` boxes to those of the quarters in which they have tiles. The only error is out of memory.
fn place_each(cut: &mut Cut, half: u32, most: usize, boxes: &[Numbered]) -> Result<(), AllocError>
    requires half { (0 < half) × (half ≤ 2 ^ 30) }
    ensures placed { cut.new.placed ≡ cut.old.placed }
    ensures quarters { OnOk result ((bs : List Numbered) → AreInQuarters half bs cut.old → AreInQuarters half (bs ++ boxes.now) cut.new) }
{
    for numbered in boxes {
        place(cut, half, most, numbered)?;
    }
    Ok(())
}

impl Cut {
    /// A cut of a square of which no box is placed.
    pub(crate) fn new(alloc: Global) -> Cut
        ensures cut { (s : Square) → 0 < s.zoom → IsCut s result }
        ensures none { result.placed ≡ 0 }
    {
        Cut {
            placed: 0,
            first: Vec::new(alloc),
            second: Vec::new(alloc),
            third: Vec::new(alloc),
            fourth: Vec::new(alloc),
        }
    }

    /// Places the next `count` boxes of the square, or those that are left if they are fewer. The only error is out of memory.
    pub(crate) fn go_on(mut self, square: &Square, count: usize) -> Result<Cut, AllocError>
        requires { IsCut square.now self }
        ensures cut { IfOk result (IsCut square.now) }
        ensures placed { IfOk result (λ cut. cut.placed ≡ min (self.placed + count) (length square.now.boxes.items)) }
    {
        let half = half_side(square.zoom);
        let start = self.placed;
        let most = square.boxes.len();
        let count = count.min(most - start);
        place_each(&mut self, half, most, &square.boxes[start..start + count])?;
        self.placed = start + count;
        Ok(self)
    }
}
