//! For tests: an allocator that refuses some allocations and counts all, and the answers that a
//! test has to accept if one is refused.
//!
//! The allocator passes each call that it does not refuse to another one. A `&` to it is an
//! allocator too; copies of it count together.
#![tactic(auto)]

ghost use Rattle.std.specs.Prelude.{◌↔◌, IsTrue};
ghost use Rattle.refusing.specs.Numbers.{Includes};

mod shortage;

pub use shortage::Shortage;
use std::alloc::{AllocError, Allocator};
use std::cell::Cell;

/// A set of allocations, by their numbers from 1 on.
#[derive(Clone, Copy, Debug, PartialEq, Eq)]
pub enum Allocations {
    None,
    /// Only the allocation of this number.
    One(u64),
    /// The allocation of this number, and all after it.
    AllFrom(u64),
}

impl Allocations {
    /// Whether the set has the allocation of this number.
    pub fn includes(self, number: u64) -> bool
        ensures { IsTrue result ↔ Includes self number }
    {
        match self {
            Allocations::None => false,
            Allocations::One(only) => number == only,
            Allocations::AllFrom(first) => first <= number,
        }
    }
}

/// Which allocations are refused; how many were requested; and how many were not refused and not
/// given back.
#[derive(Clone, Copy)]
struct Plan {
    refused: Allocations,
    asked: u64,
    out: u64,
}

/// An allocator that refuses some of the allocations requested from it.
pub struct Refusing<B: Allocator> {
    inner: B,
    plan: Cell<Plan>,
}

impl<B: Allocator> Refusing<B> {
    /// An allocator that refuses nothing, and passes all calls to this one.
    pub fn new(inner: B) -> Refusing<B> {
        Refusing {
            inner,
            plan: Cell::new(Plan {
                refused: Allocations::None,
                asked: 0,
                out: 0,
            }),
        }
    }

    /// Refuses these from now on; the next allocation has the number 1.
    pub fn refuse(&self, refused: Allocations) {
        let out = self.out();
        self.plan.set(Plan {
            refused,
            asked: 0,
            out,
        });
    }

    /// The number of allocations requested since the last call of `refuse`.
    pub fn asked(&self) -> u64 {
        self.plan.get().asked
    }

    /// The number of allocations that were not refused and not given back. Those that the other
    /// allocator refused are counted too.
    pub fn out(&self) -> u64 {
        self.plan.get().out
    }
}

impl<B: Allocator> Drop for Refusing<B> {
    fn drop(self) {
        let Self { inner: _, plan: _ } = self;
    }
}

/// Counts an allocation, and returns whether it is refused.
fn is_refused(plan: &Cell<Plan>) -> bool {
    let mut plan_now = plan.get();
    plan_now.asked = plan_now.asked.saturating_add(1);
    let is_refused = plan_now.refused.includes(plan_now.asked);
    if !is_refused {
        plan_now.out = plan_now.out.saturating_add(1);
    }
    plan.set(plan_now);
    is_refused
}

/// Counts a block that was given back.
fn count_back(plan: &Cell<Plan>) {
    let mut plan_now = plan.get();
    plan_now.out = plan_now.out.saturating_sub(1);
    plan.set(plan_now);
}

unsafe impl<B: Allocator> Allocator for Refusing<B> {
    ghost dealloc_token = { λ heap ty ptr. B.dealloc_token heap.inner ty ptr };

    fn allocate(&self, size: usize, align: usize) -> Result<*mut u8, AllocError> {
        if is_refused(&self.plan) {
            return Err(AllocError);
        }
        self.inner.allocate(size, align)
    }

    unsafe fn deallocate(&self, ptr: *mut u8, size: usize, align: usize) {
        count_back(&self.plan);
        self.inner.deallocate(ptr, size, align);
    }
}
