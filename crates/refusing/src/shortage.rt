//! The answers that a test has to accept if one allocation of its process is refused.

use std::io::Print;
use std::sync::atomic::{AtomicUsize, Ordering};

/// How often memory ran out in a test. That may happen once if an allocation may be refused: at
/// most one of the test's process is, and none in a plain run.
#[derive(Drop)]
pub struct Shortage {
    is_possible: bool,
    wants: AtomicUsize,
    misses: AtomicUsize,
}

impl Shortage {
    /// A test in which memory did not run out yet.
    pub fn new() -> Shortage {
        Shortage {
            is_possible: true,
            wants: AtomicUsize::new(0),
            misses: AtomicUsize::new(0),
        }
    }

    /// A test in which no allocation is ever refused, so that memory may not run out.
    pub fn none() -> Shortage {
        Shortage {
            is_possible: false,
            wants: AtomicUsize::new(0),
            misses: AtomicUsize::new(0),
        }
    }

    /// Notes that memory ran out in a call, and returns whether that may be; the caller then calls
    /// again.
    pub fn may_want(&self) -> bool {
        let before = self.wants.fetch_add(1, Ordering::SeqCst);
        self.is_possible && before == 0 && self.misses.load(Ordering::SeqCst) == 0
    }

    /// Notes that a call returned its answer but did not keep it, and returns whether that may be.
    pub fn may_miss(&self) -> bool {
        let before = self.misses.fetch_add(1, Ordering::SeqCst);
        self.is_possible && before == 0 && self.wants.load(Ordering::SeqCst) == 0
    }

    /// Prints which of the two happened, for those who refuse the allocation.
    pub fn tell<P: Print>(&self, rt: &P) {
        if self.wants.load(Ordering::SeqCst) != 0 {
            let _ = println!(rt; "a call wanted memory");
        }
        if self.misses.load(Ordering::SeqCst) != 0 {
            let _ = println!(rt; "an answer was not kept");
        }
    }
}
