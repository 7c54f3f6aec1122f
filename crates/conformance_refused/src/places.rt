//! Calls in allocators that refuse.

use crate::calls::{Call, Gift};
use bumpalo::Bump;
use refusing::{Allocations, Refusing};
use std::alloc::{Allocator, Global};
use std::process::Abort;

/// More than the number of allocations, or of an arena's chunks, in a call of these tests.
const MANY: u64 = 2_000;

/// More than the number of bytes in a call of these tests.
const MANY_BYTES: usize = 32_000;

/// The result of a call while some allocations were refused, the number that it requested, its
/// result when none was refused, and the number of blocks left after both.
#[derive(Clone, Copy, Debug, PartialEq, Eq)]
struct Trial {
    given: Gift,
    asked: u64,
    again: Gift,
    left: u64,
}

/// Makes a call with these allocations refused, and again with none.
fn tried<B: Allocator>(place: &Refusing<B>, call: &Call<'_>, refused: Allocations) -> Trial {
    place.refuse(refused);
    let given = call.at(place);
    let (asked, left) = (place.asked(), place.out());
    place.refuse(Allocations::None);
    let again = call.at(place);
    Trial {
        given,
        asked,
        again,
        left: left.saturating_add(place.out()),
    }
}

/// Refuses each allocation of a call in turn, alone or with all after it, until none is refused,
/// and returns their number.
///
/// The call runs out of memory if and only if one was refused, returns its value with enough
/// memory, and leaves no block.
fn expect_each<B: Allocator>(
    rt: &impl Abort,
    place: &Refusing<B>,
    call: &Call<'_>,
    is_alone: bool,
) -> u64 {
    for number in 1..MANY {
        let refused = if is_alone {
            Allocations::One(number)
        } else {
            Allocations::AllFrom(number)
        };
        let trial = tried(place, call, refused);
        let is_refused = number <= trial.asked;
        let wanted = if is_refused {
            Gift::Memory
        } else {
            Gift::Right
        };
        assert_eq!(rt; trial.given, wanted, "allocation {number} was refused");
        assert_eq!(rt; trial.again, Gift::Right, "after allocation {number}");
        assert_eq!(rt; trial.left, 0, "after allocation {number}");
        if !is_refused {
            return trial.asked;
        }
    }
    assert!(rt; false, "the call asks without an end");
    0
}

/// `expect_each` on the heap and in an arena, each with one allocation refused and with all from it
/// on. The call requests at least this many each time.
fn expect_here_and_there(rt: &impl Abort, alloc: Global, call: &Call<'_>, least: u64) {
    for is_alone in [true, false] {
        let heap = Refusing::new(alloc);
        let asked = expect_each(rt, &heap, call, is_alone);
        assert!(rt; least <= asked, "it asks the heap for {asked} alone");
        let arena = Bump::new(alloc);
        let parts = Refusing::new(&arena);
        let asked = expect_each(rt, &parts, call, is_alone);
        assert!(rt; least <= asked, "it asks the arena for {asked} alone");
    }
}

/// The result of a call in a new arena over this allocator.
fn given_over(chunks: &Refusing<Global>, call: &Call<'_>) -> Gift {
    let arena = Bump::new(chunks);
    call.at(&arena)
}

/// Arenas for which each chunk from one on is refused, until none is: the call runs out of memory
/// if and only if one was refused, and no chunk is left.
fn expect_chunks(rt: &impl Abort, alloc: Global, call: &Call<'_>) {
    let chunks = Refusing::new(alloc);
    for number in 1..MANY {
        chunks.refuse(Allocations::AllFrom(number));
        let given = given_over(&chunks, call);
        let is_refused = number <= chunks.asked();
        let wanted = if is_refused {
            Gift::Memory
        } else {
            Gift::Right
        };
        assert_eq!(rt; given, wanted, "chunk {number} was refused");
        assert_eq!(rt; chunks.out(), 0, "after chunk {number}");
        if !is_refused {
            assert!(rt; 1 < number, "no chunk was refused");
            return;
        }
    }
    assert!(rt; false, "the arena asks without an end");
}

/// The result of a call in a new arena of at most this many bytes.
fn given_within(alloc: Global, bytes: usize, call: &Call<'_>) -> Gift {
    let arena = Bump::new(alloc);
    arena.set_allocation_limit(Some(bytes));
    call.at(&arena)
}

/// Arenas of growing size: the call runs out of memory in the small ones, and from one size on
/// returns its value in each.
fn expect_limits(rt: &impl Abort, alloc: Global, call: &Call<'_>) {
    let mut last = Gift::Memory;
    for bytes in (0..MANY_BYTES).step_by(32) {
        let given = given_within(alloc, bytes, call);
        assert!(rt;
            given == last || given == Gift::Right,
            "{given:?} in {bytes} bytes"
        );
        last = given;
    }
    assert_eq!(rt; given_within(alloc, 0, call), Gift::Memory);
    assert_eq!(rt; last, Gift::Right, "in the largest arena");
}

/// All of these checks.
pub(crate) fn expect_all(rt: &impl Abort, alloc: Global, call: Call<'_>, least: u64) {
    expect_here_and_there(rt, alloc, &call, least);
    expect_chunks(rt, alloc, &call);
    expect_limits(rt, alloc, &call);
}
