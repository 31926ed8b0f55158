//! A gate that holds one worker of two until the other comes to a turn, for tests of threads.
#![tactic(auto)]

use std::sync::atomic::{AtomicBool, AtomicU32, Ordering};
use tea_io::Gate;

/// So many looks, and then the worker is let through all the same.
const MOST_LOOKS: u32 = 100_000_000;

/// Holds a worker at its first turn until the other one comes to a turn.
#[derive(Drop)]
pub struct HeldGate {
    worker: u32,
    turn: u32,
    passes: AtomicU32,
    came: AtomicBool,
    other: AtomicBool,
    gave_up: AtomicBool,
}

impl HeldGate {
    /// Holds this worker until the other one comes to this turn.
    pub fn new(worker: u32, turn: u32) -> HeldGate {
        HeldGate {
            worker,
            turn,
            passes: AtomicU32::new(0),
            came: AtomicBool::new(false),
            other: AtomicBool::new(false),
            gave_up: AtomicBool::new(false),
        }
    }

    /// Whether the worker came to its first turn, and was held there until the other one came to its own.
    pub fn held(&self) -> bool {
        self.came.load(Ordering::SeqCst)
            && self.other.load(Ordering::SeqCst)
            && !self.gave_up.load(Ordering::SeqCst)
    }

    /// How many turns the two came to.
    pub fn passes(&self) -> u32 {
        self.passes.load(Ordering::SeqCst)
    }

    fn hold(&self) {
        self.came.store(true, Ordering::SeqCst);
        for _look in 0..MOST_LOOKS {
            if self.other.load(Ordering::SeqCst) {
                return;
            }
        }
        self.gave_up.store(true, Ordering::SeqCst);
    }
}

impl Gate for HeldGate {
    fn pass(&self, worker: u32, turn: u32) {
        self.passes.fetch_add(1, Ordering::SeqCst);
        if worker != self.worker {
            if turn == self.turn {
                self.other.store(true, Ordering::SeqCst);
            }
            return;
        }
        if turn == 1 {
            self.hold();
        }
    }
}
