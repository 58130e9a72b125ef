// The run state: one clock, and for each row its instances released and completed, the ticks used by its open instance
// and its guard.

ghost use Rattle.std.specs.Prelude.{◌≡◌};
ghost use Rattle.guards.specs.StateLaws.{Sizes};

use crate::run::{ArrivalState, RunState, StateView};

// The clock of a run ends here.
pub const LAST_CLOCK: u64 = 1000000000000;

// Lists in parallel, as `moment_of` and `state_with` name them, and of fixed size: there is no heap.
#[derive(Clone, Copy, PartialEq, Eq)]
pub struct State {
    pub clock: u64,
    pub released: [u64; 128],
    pub completed: [u64; 128],
    pub used: [u64; 128],
    pub guard: [u64; 128],
}

impl State {
    // How many rows it has room for: any plan's.
    pub fn room(&self) -> usize
        ensures room { result ≡ 128 }
        ensures sizes { Sizes self.now }
    {
        self.released.len()
    }
}

#[tactic(auto, unfolding(crate::specs::Lent::holds))]
impl StateView for State {
    ghost state = { λ s. s };

    fn clock(&self) -> u64 {
        self.clock
    }

    fn rows_held(&self, n: usize) -> bool {
        n <= self.room()
    }

    fn released(&self, row: usize) -> u64 {
        self.released[row]
    }

    fn completed(&self, row: usize) -> u64 {
        self.completed[row]
    }

    fn used(&self, row: usize) -> u64 {
        self.used[row]
    }

    fn guard(&self, row: usize) -> u64 {
        self.guard[row]
    }
}

impl ArrivalState for State {
    ghost use Rattle.std.specs.Prelude.{[]};

    ghost names = { λ s. [] };

    fn set_released(&mut self, row: usize, value: u64) {
        self.released[row] = value;
    }

    fn set_guard(&mut self, row: usize, value: u64) {
        self.guard[row] = value;
    }
}

impl RunState for State {
    fn set_clock(&mut self, clock: u64) {
        self.clock = clock;
    }

    fn set_completed(&mut self, row: usize, value: u64) {
        self.completed[row] = value;
    }

    fn set_used(&mut self, row: usize, value: u64) {
        self.used[row] = value;
    }
}
