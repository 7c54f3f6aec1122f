//! The index of a list of segments in blocks: lists of places that follow one another. A new place
//! moves those of one block.

ghost use Rattle.std.specs.Prelude.{◌≡◌, ◌≤◌, ◌<◌, ◌*◌, [], length, vec_len, vec_capacity, slice_index_or, filter, filter_map, IfOk, OnOk, OnErr};
ghost use Rattle.std.specs.List.{AllWithin, insert};
ghost use Rattle.std.specs.List.Sorted.{IsNonDecreasingBy};
ghost use Rattle.path_server.specs.Index.{rank_at};
ghost use Rattle.path_server.specs.inner.Index.{ends_number, lies_between};
ghost use Rattle.path_server.specs.inner.Blocks.{Block, joined, AreFilled, position, LiesIn, IsSpot, HasRoom, begins_within, begins_below, IsCut, FrontOf, RestOf, AreCounts, moved_to};

use crate::ends::{Ends, is_above, is_below};
use crate::index::{end_of, insert_place};
use crate::sweeps::sweep_all;
use path_segment::Segment;
use std::alloc::{AllocError, Global};

/// The largest number of places in a block.
const MAX_PLACES: usize = 512;

/// The number of places in the first part of a block that is cut.
const HALF: usize = 256;

/// A list of places, in blocks of at most 512. At most the first block is empty.
#[derive(Debug, Drop)]
pub(crate) struct Blocks {
    pub(crate) blocks: Vec<Vec<usize>>,
    ghost filled: { AreFilled blocks.items },
}

/// A position in a list in blocks.
#[derive(Clone, Copy)]
pub(crate) struct Spot {
    /// The number of the block.
    pub(crate) block: usize,
    /// The position in the block.
    pub(crate) offset: usize,
}

impl Blocks {
    /// An empty list.
    pub(crate) fn new(alloc: Global) -> Blocks
        ensures { joined result.blocks.items ≡ [] }
    {
        Blocks {
            blocks: Vec::new(alloc),
        }
    }

    /// The blocks.
    pub(crate) fn all(&self) -> &[Vec<usize>]
        ensures all { result.now ≡ self.now.blocks.items }
        ensures filled { AreFilled result.now }
    {
        &self.blocks
    }

    /// Makes room for one more place at a position, and returns that position as it is then. The
    /// list is the same, also if memory runs out.
    pub(crate) fn make_room(&mut self, spot: Spot) -> Result<Spot, AllocError>
        requires { IsSpot self.old.blocks.items spot.block spot.offset }
        ensures same { joined self.new.blocks.items ≡ joined self.old.blocks.items }
        ensures spot { IfOk result (λ s. LiesIn self.new.blocks.items s.block s.offset) }
        ensures position { IfOk result (λ s. position self.new.blocks.items s.block s.offset
            ≡ position self.old.blocks.items spot.block spot.offset) }
        ensures room { IfOk result (λ s. HasRoom self.new.blocks.items s.block) }
    {
        if self.blocks.is_empty() {
            add_first(&mut self.blocks)?;
            return Ok(spot);
        }
        make_room_in(&mut self.blocks, spot)
    }

    /// Inserts a place at a position that has room for it. It moves the places of one block.
    pub(crate) fn put(&mut self, spot: Spot, place: usize)
        requires lies { LiesIn self.old.blocks.items spot.block spot.offset }
        requires room { HasRoom self.old.blocks.items spot.block }
        ensures { joined self.new.blocks.items ≡ insert (joined self.old.blocks.items)
            (position self.old.blocks.items spot.block spot.offset) place }
    {
        insert_place(&mut self.blocks[spot.block], spot.offset, place);
    }

    /// Leaves out the places whose segments are not live, and moves the others to where they are
    /// once those segments are left out. It takes no memory.
    pub(crate) fn sweep(&mut self, segments: &[Segment], counts: &[usize], now: u32)
        requires { AreCounts now segments.now counts.now }
        ensures { joined self.new.blocks.items
            ≡ filter_map (moved_to now segments.now) (joined self.old.blocks.items) }
    {
        sweep_all(segments, counts, now, &mut self.blocks);
    }
}

/// The position after the places whose segments have these ends or ends below them.
pub(crate) fn find_in(segments: &[Segment], blocks: &[Vec<usize>], ends: Ends) -> Spot
    requires rises { IsNonDecreasingBy (rank_at segments.now) (joined blocks.now) }
    requires filled { AreFilled blocks.now }
    ensures spot { IsSpot blocks.now result.block result.offset }
    ensures below { AllWithin (λ place. rank_at segments.now place ≤ ends_number ends)
        (joined blocks.now) 0 (position blocks.now result.block result.offset) }
    ensures rest { AllWithin (λ place. ends_number ends < rank_at segments.now place)
        (joined blocks.now) (position blocks.now result.block result.offset)
        (length (joined blocks.now)) }
{
    let starts = blocks.partition_point(|block| does_begin_within(segments, block, ends));
    match starts.checked_sub(1) {
        Some(block) => Spot {
            block,
            offset: end_of(segments, &blocks[block], ends),
        },
        None => Spot {
            block: 0,
            offset: 0,
        },
    }
}

/// The blocks that do not begin above these ends.
fn up_to<'a>(segments: &[Segment], blocks: &'a [Vec<usize>], ends: Ends) -> &'a [Vec<usize>]
    requires rises { IsNonDecreasingBy (rank_at segments.now) (joined blocks.now) }
    requires filled { AreFilled blocks.now }
    ensures { FrontOf segments.now (ends_number ends) blocks.now result.now }
{
    let end = blocks.partition_point(|block| does_begin_within(segments, block, ends));
    &blocks[..end]
}

/// The blocks from the last one on that begins below these ends.
fn from_on<'a>(segments: &[Segment], blocks: &'a [Vec<usize>], ends: Ends) -> &'a [Vec<usize>]
    requires rises { IsNonDecreasingBy (rank_at segments.now) (joined blocks.now) }
    requires filled { AreFilled blocks.now }
    ensures { RestOf segments.now (ends_number ends) blocks.now result.now }
{
    let starts = blocks.partition_point(|block| does_begin_below(segments, block, ends));
    &blocks[starts.saturating_sub(1)..]
}

/// Blocks that have all places whose segments have ends from `low` to `high`, both included. A
/// single block is not searched.
pub(crate) fn between<'a>(
    segments: &[Segment],
    blocks: &'a [Vec<usize>],
    low: Ends,
    high: Ends,
) -> &'a [Vec<usize>]
    requires rises { IsNonDecreasingBy (rank_at segments.now) (joined blocks.now) }
    requires filled { AreFilled blocks.now }
    ensures part { filter (lies_between segments.now (ends_number low) (ends_number high))
        (joined result.now)
        ≡ filter (lies_between segments.now (ends_number low) (ends_number high))
        (joined blocks.now) }
    ensures rises { IsNonDecreasingBy (rank_at segments.now) (joined result.now) }
    ensures filled { AreFilled result.now }
{
    if blocks.len() < 2 {
        return blocks;
    }
    from_on(segments, up_to(segments, blocks, high), low)
}

/// Makes room for one more place at a position, and returns that position as it is then.
fn make_room_in(blocks: &mut Vec<Vec<usize>>, spot: Spot) -> Result<Spot, AllocError>
    requires lies { LiesIn blocks.old.items spot.block spot.offset }
    requires filled { AreFilled blocks.old.items }
    ensures same { joined blocks.new.items ≡ joined blocks.old.items }
    ensures filled { AreFilled blocks.new.items }
    ensures spot { IfOk result (λ s. LiesIn blocks.new.items s.block s.offset) }
    ensures position { IfOk result (λ s. position blocks.new.items s.block s.offset
        ≡ position blocks.old.items spot.block spot.offset) }
    ensures room { IfOk result (λ s. HasRoom blocks.new.items s.block) }
{
    if blocks[spot.block].len() < MAX_PLACES {
        blocks[spot.block].try_reserve(1)?;
        return Ok(spot);
    }
    cut(blocks, spot.block)?;
    if spot.offset <= HALF {
        Ok(spot)
    } else {
        Ok(Spot {
            block: spot.block + 1,
            offset: spot.offset - HALF,
        })
    }
}

/// Whether the first of these places, if there is one, has no ends above these.
fn does_begin_within(segments: &[Segment], places: &[usize], ends: Ends) -> bool
    ensures { result ≡ begins_within segments.now (ends_number ends) places.now }
{
    match places.first() {
        Some(place) => !is_above(segments, *place, ends),
        None => true,
    }
}

/// Whether the first of these places, if there is one, has ends below these.
fn does_begin_below(segments: &[Segment], places: &[usize], ends: Ends) -> bool
    ensures { result ≡ begins_below segments.now (ends_number ends) places.now }
{
    match places.first() {
        Some(place) => is_below(segments, *place, ends),
        None => true,
    }
}

/// Adds a first block, which is empty and has room.
fn add_first(blocks: &mut Vec<Vec<usize>>) -> Result<(), AllocError>
    requires { blocks.old.items ≡ [] }
    ensures kept { OnErr result (blocks.new.items ≡ blocks.old.items) }
    ensures long { OnOk result (length blocks.new.items ≡ 1) }
    ensures joined { joined blocks.new.items ≡ [] }
    ensures room { OnOk result (HasRoom blocks.new.items 0) }
{
    let block = Vec::with_capacity(*blocks.allocator(), 1)?;
    blocks.push(block)?;
    Ok(())
}

/// Cuts a full block in two. If memory runs out, nothing changes.
fn cut(blocks: &mut Vec<Vec<usize>>, at: usize) -> Result<(), AllocError>
    requires within { at < vec_len blocks.old }
    requires full { (d : Block) → length (slice_index_or blocks.old.items at d).items ≡ 512 }
    ensures kept { OnErr result (blocks.new.items ≡ blocks.old.items) }
    ensures done { OnOk result (IsCut blocks.old.items at blocks.new.items) }
{
    let mut upper = Vec::with_capacity(*blocks.allocator(), MAX_PLACES)?;
    upper.extend_from_slice(&blocks[at][HALF..])?;
    blocks.insert(at + 1, upper)?;
    blocks[at].truncate(HALF);
    Ok(())
}
