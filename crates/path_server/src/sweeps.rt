//! Sweeping an index in blocks.

ghost use Rattle.std.specs.Prelude.{◌≡◌, ◌≤◌, ◌<◌, ◌*◌, ◌++◌, ◌∷◌, [], vec_len, ℕ, length, vec_capacity, filter, filter_map, count_by, map, All, OnOk};
ghost use Rattle.path_segment.specs.Tests.{is_live};
ghost use Rattle.path_server.specs.inner.Index.{passes_at};
ghost use Rattle.path_server.specs.inner.Blocks.{joined, AreFilled, kept_before, moved_to, Block, AreCounts};

use crate::lookup::is_live_at;
use path_segment::Segment;
use std::alloc::AllocError;

/// How many segments one count covers.
const STRIDE: usize = 8;

/// The number of live segments.
fn count_live(segments: &[Segment], now: u32) -> usize
    ensures { result ≡ count_by (is_live now) segments.now }
{
    segments
        .iter()
        .filter(|segment| segment.is_live(now))
        .count()
}

/// Makes room for the counts of so many segments.
pub(crate) fn make_count_room(counts: &mut Vec<usize>, segments: usize) -> Result<(), AllocError>
    ensures room { OnOk result (segments ≤ 8 * vec_capacity counts.new) }
    ensures kept { vec_capacity counts.old ≤ vec_capacity counts.new }
{
    counts.clear();
    counts.try_reserve(segments / STRIDE + 1)?;
    Ok(())
}

/// Counts the live segments before each eighth place. The counts have room for that.
pub(crate) fn count_all(segments: &[Segment], now: u32, counts: &mut Vec<usize>)
    requires { length segments.now ≤ 8 * vec_capacity counts.old }
    ensures counts { AreCounts now segments.now counts.new.items }
    ensures kept { vec_capacity counts.old ≤ vec_capacity counts.new }
{
    counts.clear();
    let mut kept = 0;
    for start in 0..segments.len().div_ceil(STRIDE) {
        add_count(counts, kept);
        let at = start * STRIDE;
        kept += count_live(&segments[at..(at + STRIDE).min(segments.len())], now);
    }
}

/// Adds a count, for which there is room.
fn add_count(counts: &mut Vec<usize>, count: usize)
    requires { vec_len counts.old < vec_capacity counts.old }
    ensures items { counts.new.items ≡ counts.old.items ++ count ∷ [] }
    ensures room { vec_capacity counts.old ≤ vec_capacity counts.new }
{
    let _ = counts.push(count);
}

/// The number of live segments before a place.
fn count_before(segments: &[Segment], counts: &[usize], now: u32, place: usize) -> usize
    requires counts { AreCounts now segments.now counts.now }
    requires within { place < length segments.now }
    ensures { result ≡ kept_before now segments.now place }
{
    let start = place / STRIDE;
    counts[start] + count_live(&segments[start * STRIDE..place], now)
}

/// Leaves out the places whose segments are not live.
fn keep_places(segments: &[Segment], now: u32, block: &mut Vec<usize>)
    ensures kept { block.new.items ≡ filter (passes_at (is_live now) segments.now) block.old.items }
    ensures fewer { length block.new.items ≤ length block.old.items }
{
    block.retain(|place| is_live_at(segments, *place, now));
}

/// Moves the places of a block, all of which are kept, to where they are after the sweep.
fn move_places(segments: &[Segment], counts: &[usize], now: u32, block: &mut [usize])
    requires counts { AreCounts now segments.now counts.now }
    requires kept { All (λ place. place < length segments.now) block.old }
    ensures { block.new ≡ map (kept_before now segments.now) block.old }
{
    for i in 0..block.len() {
        block[i] = count_before(segments, counts, now, block[i]);
    }
}

/// Sweeps one block.
fn sweep_block(segments: &[Segment], counts: &[usize], now: u32, block: &mut Vec<usize>)
    requires { AreCounts now segments.now counts.now }
    ensures swept { block.new.items ≡ filter_map (moved_to now segments.now) block.old.items }
    ensures fewer { length block.new.items ≤ length block.old.items }
{
    keep_places(segments, now, block);
    move_places(segments, counts, now, block);
}

/// Sweeps each block, and leaves empty ones where they are.
fn sweep_blocks(segments: &[Segment], counts: &[usize], now: u32, blocks: &mut [Vec<usize>])
    requires counts { AreCounts now segments.now counts.now }
    requires short { All (λ (b : Block). length b.items ≤ 512) blocks.old }
    ensures swept { joined blocks.new
        ≡ filter_map (moved_to now segments.now) (joined blocks.old) }
    ensures short { All (λ (b : Block). length b.items ≤ 512) blocks.new }
{
    for i in 0..blocks.len() {
        sweep_block(segments, counts, now, &mut blocks[i]);
    }
}

/// Leaves out empty blocks.
fn drop_empty(blocks: &mut Vec<Vec<usize>>)
    requires { All (λ (b : Block). length b.items ≤ 512) blocks.old.items }
    ensures same { joined blocks.new.items ≡ joined blocks.old.items }
    ensures filled { AreFilled blocks.new.items }
{
    blocks.retain(|block| !block.is_empty());
}

/// Leaves out the places whose segments are not live, and moves the others to where they are once
/// those segments are left out. It takes no memory.
pub(crate) fn sweep_all(
    segments: &[Segment],
    counts: &[usize],
    now: u32,
    blocks: &mut Vec<Vec<usize>>,
)
    requires counts { AreCounts now segments.now counts.now }
    requires filled { AreFilled blocks.old.items }
    ensures swept { joined blocks.new.items
        ≡ filter_map (moved_to now segments.now) (joined blocks.old.items) }
    ensures filled { AreFilled blocks.new.items }
{
    sweep_blocks(segments, counts, now, blocks);
    drop_empty(blocks);
}
