// A gate that holds workers in an order, and one that looks on.
use spin_base::Gate;
use std::sync::atomic::{AtomicU64, Ordering};
use std::thread;

/// How often a worker looks whether the other has come far enough, before it gives up.
const LOOKS: u32 = 100_000_000;

/// A gate for two workers of four turns, in phase 1 alone.
#[derive(Drop)]
pub struct InOrder {
    /// How many steps worker 0 has entered.
    first: AtomicU64,
    /// How many steps worker 1 has entered.
    second: AtomicU64,
    /// How often a worker gave up.
    late: AtomicU64,
    /// For each worker and each of its steps: how many steps the other has to enter first.
    waits: [[u64; 5]; 2],
}

impl InOrder {
    pub fn new(waits: [[u64; 5]; 2]) -> InOrder {
        InOrder {
            first: AtomicU64::new(0),
            second: AtomicU64::new(0),
            late: AtomicU64::new(0),
            waits,
        }
    }

    // The steps entered by the worker, and those by the other.
    fn sides(&self, worker: u32) -> (&AtomicU64, &AtomicU64) {
        if worker == 0 {
            (&self.first, &self.second)
        } else {
            (&self.second, &self.first)
        }
    }

    // Looks until the other has entered so many steps.
    fn wait_for(&self, other: &AtomicU64, wanted: u64) {
        for _ in 0..LOOKS {
            if other.load(Ordering::SeqCst) >= wanted {
                return;
            }
            thread::yield_now();
        }
        self.late.fetch_add(1, Ordering::SeqCst);
    }

    /// Whether both workers entered all steps, and none gave up.
    pub fn held(&self) -> bool {
        self.first.load(Ordering::SeqCst) == 5
            && self.second.load(Ordering::SeqCst) == 5
            && self.late.load(Ordering::SeqCst) == 0
    }
}

impl Gate for InOrder {
    fn enter(&self, phase: u32, worker: u32, step: u32) {
        if phase != 1 || worker > 1 || step > 4 {
            return;
        }
        let (own, other) = self.sides(worker);
        own.store(u64::from(step) + 1, Ordering::SeqCst);
        self.wait_for(other, self.waits[worker as usize][step as usize]);
    }
}

/// A gate that stops nobody, and keeps the greatest phase that was entered.
#[derive(Drop)]
pub struct Greatest {
    phase: AtomicU64,
}

impl Greatest {
    pub fn new() -> Greatest {
        Greatest {
            phase: AtomicU64::new(0),
        }
    }

    /// The greatest phase so far.
    pub fn phase(&self) -> u64 {
        self.phase.load(Ordering::SeqCst)
    }
}

impl Gate for Greatest {
    fn enter(&self, phase: u32, _worker: u32, _step: u32) {
        self.phase.fetch_max(u64::from(phase), Ordering::SeqCst);
    }
}
