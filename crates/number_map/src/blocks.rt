//! The blocks of a map: where a number belongs, and changes that keep the blocks in order.

ghost use Rattle.std.specs.Prelude.{◌≡◌, ◌+◌, ◌<◌, ◌≤◌, ◌++◌, [], None, length, drop, All, slice_get, slice_index_or, vec_len, vec_capacity};
ghost use Rattle.std.specs.Prelude.{IfNone, IfOk, IfErr, OnOk, OnErr, option_copied};
ghost use Rattle.std.specs.List.Sorted.{IsNonDecreasing};
ghost use Rattle.std.specs.Ordering.{nat_cmp};
ghost use Rattle.std.specs.Map.{lookup, remove_entry};
ghost use Rattle.std.specs.BTreeMap.{insert_entry, is_at};
ghost use Rattle.number_map.specs.Blocks.{joined, firsts_of, Ascends, AreFilled, AreFilledBut, AreInOrder, IsHome};
ghost use Rattle.number_map.specs.Positions.{IsLastUpTo};

use crate::block::{Block, CAPACITY, Entry};
use std::alloc::{AllocError, Global};

/// Two neighbours with at most this many entries together become one block, so that memory stays in proportion to the entries.
const FEW: usize = CAPACITY / 2;

/// The index of the last of these ascending numbers that is at most `number`, or 0.
pub(crate) fn home_of(firsts: &[u64], number: u64) -> usize
    requires { IsNonDecreasing firsts.now }
    ensures { IsLastUpTo firsts.now number result }
{
    firsts
        .partition_point(|first| *first <= number)
        .saturating_sub(1)
}

/// The first entry of the blocks after this one.
pub(crate) fn first_after<T>(blocks: &[Block<T>], at: usize) -> Option<&Entry<T>>
    requires filled { AreFilled blocks.now }
    requires within { at < length blocks.now }
    ensures { option_copied result ≡ slice_get (joined (drop (at + 1) blocks.now)) 0 }
{
    match blocks.get(at + 1) {
        Some(block) => block.entries().first(),
        None => None,
    }
}

/// Gives a number this value in the block where it belongs, and returns the one that it had. If there is no block, or a full one that
/// hasn't the number, nothing changes and the value is returned as the error.
pub(crate) fn put<T>(
    firsts: &mut Vec<u64>,
    blocks: &mut Vec<Block<T>>,
    at: usize,
    number: u64,
    value: T,
) -> Result<Option<T>, T>
    requires order { AreInOrder blocks.old.items }
    requires firsts { firsts.old.items ≡ firsts_of blocks.old.items }
    requires home { IsHome blocks.old.items number at }
    ensures entries { OnOk result (joined blocks.new.items ≡ insert_entry nat_cmp (joined blocks.old.items) number value) }
    ensures before { IfOk result (λ before. before ≡ lookup (is_at (nat_cmp number)) (joined blocks.old.items)) }
    ensures filled { AreFilled blocks.new.items }
    ensures firsts { firsts.new.items ≡ firsts_of blocks.new.items }
    ensures full { OnErr result (at < vec_len blocks.new → CAPACITY ≤ length (slice_index_or blocks.new.items at [])) }
    ensures absent { OnErr result (lookup (is_at (nat_cmp number)) (joined blocks.old.items) ≡ None) }
    ensures unchanged { OnErr result (blocks.new.items ≡ blocks.old.items) }
    ensures returned { IfErr result (λ v. v ≡ value) }
    ensures len { vec_len blocks.new ≡ vec_len blocks.old }
    ensures capacity { vec_capacity blocks.new ≡ vec_capacity blocks.old }
    ensures firsts_len { vec_len firsts.new ≡ vec_len firsts.old }
    ensures firsts_capacity { vec_capacity firsts.new ≡ vec_capacity firsts.old }
{
    if at >= blocks.len() {
        return Err(value);
    }
    match blocks[at].insert(firsts[at], number, value) {
        Ok(before) => {
            firsts[at] = blocks[at].first();
            Ok(before)
        }
        Err(value) => Err(value),
    }
}

/// Gives a number this value beside a full block: in an empty one if it is greater than all of its numbers, so that numbers
/// that come in ascending order leave full blocks, else in one of both, once half of the entries are in the empty one.
fn halve<T: Drop>(lower: &mut Block<T>, spare: Block<T>, number: u64, value: T) -> Block<T>
    requires ascending { Ascends lower.old }
    requires full { CAPACITY ≤ length lower.old }
    requires empty { spare ≡ [] }
    ensures entries { lower.new ++ result ≡ insert_entry nat_cmp lower.old number value }
    ensures lower_filled { 0 < length lower.new }
    ensures upper_filled { 0 < length result }
{
    let mut upper = spare;
    if lower.ends_before(number) {
        upper.add(number, value);
        return upper;
    }
    lower.split(&mut upper);
    if number < upper.first() {
        lower.add(number, value);
    } else {
        upper.add(number, value);
    }
    upper
}

/// Gives a number this value, with an empty block for half of the entries of the full block where it belongs.
pub(crate) fn put_beside<T: Drop>(
    firsts: &mut Vec<u64>,
    blocks: &mut Vec<Block<T>>,
    at: usize,
    spare: Block<T>,
    number: u64,
    value: T,
)
    requires order { AreInOrder blocks.old.items }
    requires firsts { firsts.old.items ≡ firsts_of blocks.old.items }
    requires home { IsHome blocks.old.items number at }
    requires full { at < vec_len blocks.old → CAPACITY ≤ length (slice_index_or blocks.old.items at []) }
    requires empty { spare ≡ [] }
    requires room { vec_len blocks.old < vec_capacity blocks.old }
    requires firsts_room { vec_len firsts.old < vec_capacity firsts.old }
    ensures entries { joined blocks.new.items ≡ insert_entry nat_cmp (joined blocks.old.items) number value }
    ensures filled { AreFilled blocks.new.items }
    ensures firsts { firsts.new.items ≡ firsts_of blocks.new.items }
    ensures len { vec_len blocks.new ≡ vec_len blocks.old + 1 }
    ensures capacity { vec_capacity blocks.old ≤ vec_capacity blocks.new }
    ensures firsts_len { vec_len firsts.new ≡ vec_len firsts.old + 1 }
    ensures firsts_capacity { vec_capacity firsts.old ≤ vec_capacity firsts.new }
{
    if at < blocks.len() {
        let upper = halve(&mut blocks[at], spare, number, value);
        firsts[at] = blocks[at].first();
        firsts.insert(at + 1, upper.first()).unwrap();
        blocks.insert(at + 1, upper).unwrap();
    } else {
        let mut block = spare;
        block.add(number, value);
        firsts.push(block.first()).unwrap();
        blocks.push(block).unwrap();
    }
}

/// Takes a number out of the block where it belongs, and returns the value that it had.
pub(crate) fn take_out<T: Drop>(
    firsts: &mut Vec<u64>,
    blocks: &mut Vec<Block<T>>,
    at: usize,
    number: u64,
) -> Option<T>
    requires order { AreInOrder blocks.old.items }
    requires firsts { firsts.old.items ≡ firsts_of blocks.old.items }
    requires home { IsHome blocks.old.items number at }
    requires within { at < vec_len blocks.old }
    ensures entries { joined blocks.new.items ≡ remove_entry (is_at (nat_cmp number)) (joined blocks.old.items) }
    ensures removed { result ≡ lookup (is_at (nat_cmp number)) (joined blocks.old.items) }
    ensures filled { AreFilled blocks.new.items }
    ensures firsts { firsts.new.items ≡ firsts_of blocks.new.items }
    ensures len { vec_len blocks.new ≤ vec_len blocks.old }
    ensures capacity { vec_capacity blocks.new ≡ vec_capacity blocks.old }
    ensures firsts_len { vec_len firsts.new ≤ vec_len firsts.old }
    ensures firsts_capacity { vec_capacity firsts.new ≡ vec_capacity firsts.old }
    ensures unchanged { IfNone result (blocks.new.items ≡ blocks.old.items) }
    ensures same_len { IfNone result (vec_len blocks.new ≡ vec_len blocks.old) }
    ensures same_firsts_len { IfNone result (vec_len firsts.new ≡ vec_len firsts.old) }
{
    match blocks[at].remove(firsts[at], number) {
        Some(value) => {
            firsts[at] = blocks[at].first();
            tidy(firsts, blocks, at);
            Some(value)
        }
        None => None,
    }
}

/// Drops a block that became empty, or makes one block of it and its neighbours, where they have few entries.
fn tidy<T: Drop>(firsts: &mut Vec<u64>, blocks: &mut Vec<Block<T>>, at: usize)
    requires within { at < vec_len blocks.old }
    requires filled { AreFilledBut at blocks.old.items }
    requires firsts { firsts.old.items ≡ firsts_of blocks.old.items }
    ensures entries { joined blocks.new.items ≡ joined blocks.old.items }
    ensures filled { AreFilled blocks.new.items }
    ensures firsts { firsts.new.items ≡ firsts_of blocks.new.items }
    ensures len { vec_len blocks.new ≤ vec_len blocks.old }
    ensures capacity { vec_capacity blocks.new ≡ vec_capacity blocks.old }
    ensures firsts_len { vec_len firsts.new ≤ vec_len firsts.old }
    ensures firsts_capacity { vec_capacity firsts.new ≡ vec_capacity firsts.old }
{
    if blocks[at].len() == 0 {
        firsts.remove(at);
        let _empty = blocks.remove(at);
        return;
    }
    join_next(firsts, blocks, at);
    join_next(firsts, blocks, at.saturating_sub(1));
}

/// Makes one block of a block and the next, where both together have few entries.
fn join_next<T: Drop>(firsts: &mut Vec<u64>, blocks: &mut Vec<Block<T>>, at: usize)
    requires filled { AreFilled blocks.old.items }
    requires firsts { firsts.old.items ≡ firsts_of blocks.old.items }
    ensures entries { joined blocks.new.items ≡ joined blocks.old.items }
    ensures filled { AreFilled blocks.new.items }
    ensures firsts { firsts.new.items ≡ firsts_of blocks.new.items }
    ensures len { vec_len blocks.new ≤ vec_len blocks.old }
    ensures capacity { vec_capacity blocks.new ≡ vec_capacity blocks.old }
    ensures firsts_len { vec_len firsts.new ≤ vec_len firsts.old }
    ensures firsts_capacity { vec_capacity firsts.new ≡ vec_capacity firsts.old }
{
    if blocks.len().saturating_sub(at) < 2 || blocks[at].len() + blocks[at + 1].len() > FEW {
        return;
    }
    firsts.remove(at + 1);
    let next = blocks.remove(at + 1);
    blocks[at].append(next);
}

/// Adds empty blocks until there are `count`. The only error: an allocation fails, and there are fewer then.
pub(crate) fn add_empty<T: Drop>(
    alloc: Global,
    blocks: &mut Vec<Block<T>>,
    count: usize,
) -> Result<(), AllocError>
    requires { All (λ b. b ≡ []) blocks.old.items }
    ensures empty { All (λ b. b ≡ []) blocks.new.items }
    ensures kept { vec_len blocks.old ≤ vec_len blocks.new }
    ensures enough { OnOk result (count ≤ vec_len blocks.new) }
    ensures missing { OnErr result (vec_len blocks.new < count) }
{
    for _ in blocks.len()..count {
        let block = Block::new(alloc)?;
        blocks.push(block)?;
    }
    Ok(())
}
