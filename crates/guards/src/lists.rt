// A run state in number lists: lent to be read, to an arrival, or to any call.

ghost use Rattle.std.specs.Prelude.{◌≡◌};
ghost use Rattle.guards.specs.Lent.{holds};

use crate::run::{ArrivalState, RunState, StateView};

// Whether each of the four lists of a state has an entry for each of so many rows.
// Apart from `long_enough`, of three lists: the two meet definitions of their own, and a list of lists for both is no plainer.
#[tactic(auto, unfolding(crate::specs::Lent::holds))]
pub fn lists_hold(
    count: usize,
    released: &[u64],
    completed: &[u64],
    used: &[u64],
    guard: &[u64],
) -> bool
    ensures { result ≡ holds count released.now completed.now used.now guard.now }
{
    if released.len() < count {
        return false;
    }
    if completed.len() < count {
        return false;
    }
    if used.len() < count {
        return false;
    }
    count <= guard.len()
}

// A clock, and four lists that are lent to be read.
// Lists in parallel, here and below, as callers lend them and `State` names them.
#[derive(Clone, Copy)]
pub struct StateSlices<'a> {
    pub clock: u64,
    pub released: &'a [u64],
    pub completed: &'a [u64],
    pub used: &'a [u64],
    pub guard: &'a [u64],
}

// A clock, and four lists of which an arrival is lent what it writes.
#[derive(Drop)]
pub struct ArrivalLists<'a> {
    pub clock: u64,
    pub released: &'a mut [u64],
    pub completed: &'a [u64],
    pub used: &'a [u64],
    pub guard: &'a mut [u64],
}

// A clock, and four lent lists.
#[derive(Drop)]
pub struct StateLists<'a> {
    pub clock: u64,
    pub released: &'a mut [u64],
    pub completed: &'a mut [u64],
    pub used: &'a mut [u64],
    pub guard: &'a mut [u64],
}

// The getters stand once for each way to lend: one struct for all would take a trait of a list with two impls and three bounds more.
impl<'a> StateView for StateSlices<'a> {
    ghost use Rattle.guards.specs.Lists.{state_in_slices};

    ghost state = { state_in_slices };

    fn clock(&self) -> u64 {
        self.clock
    }

    fn rows_held(&self, n: usize) -> bool {
        lists_hold(n, self.released, self.completed, self.used, self.guard)
    }

    fn released(&self, row: usize) -> u64 {
        self.released[row]
    }

    fn completed(&self, row: usize) -> u64 {
        self.completed[row]
    }

    fn used(&self, row: usize) -> u64 {
        self.used[row]
    }

    fn guard(&self, row: usize) -> u64 {
        self.guard[row]
    }
}

impl<'a> StateView for ArrivalLists<'a> {
    ghost use Rattle.guards.specs.Lists.{state_in_arrival};

    ghost state = { state_in_arrival };

    fn clock(&self) -> u64 {
        self.clock
    }

    fn rows_held(&self, n: usize) -> bool {
        lists_hold(n, self.released, self.completed, self.used, self.guard)
    }

    fn released(&self, row: usize) -> u64 {
        self.released[row]
    }

    fn completed(&self, row: usize) -> u64 {
        self.completed[row]
    }

    fn used(&self, row: usize) -> u64 {
        self.used[row]
    }

    fn guard(&self, row: usize) -> u64 {
        self.guard[row]
    }
}

impl<'a> ArrivalState for ArrivalLists<'a> {
    ghost use Rattle.std.specs.Prelude.{[], ◌∷◌};

    ghost names = { λ s. s.released.ghost_name ∷ s.guard.ghost_name ∷ [] };

    fn set_released(&mut self, row: usize, value: u64) {
        self.released[row] = value;
    }

    fn set_guard(&mut self, row: usize, value: u64) {
        self.guard[row] = value;
    }
}

impl<'a> StateView for StateLists<'a> {
    ghost use Rattle.guards.specs.Lists.{state_in_lists};

    ghost state = { state_in_lists };

    fn clock(&self) -> u64 {
        self.clock
    }

    fn rows_held(&self, n: usize) -> bool {
        lists_hold(n, self.released, self.completed, self.used, self.guard)
    }

    fn released(&self, row: usize) -> u64 {
        self.released[row]
    }

    fn completed(&self, row: usize) -> u64 {
        self.completed[row]
    }

    fn used(&self, row: usize) -> u64 {
        self.used[row]
    }

    fn guard(&self, row: usize) -> u64 {
        self.guard[row]
    }
}

impl<'a> ArrivalState for StateLists<'a> {
    ghost use Rattle.std.specs.Prelude.{[], ◌∷◌};

    ghost names = { λ s. s.released.ghost_name ∷ s.completed.ghost_name ∷ s.used.ghost_name ∷ s.guard.ghost_name ∷ [] };

    fn set_released(&mut self, row: usize, value: u64) {
        self.released[row] = value;
    }

    fn set_guard(&mut self, row: usize, value: u64) {
        self.guard[row] = value;
    }
}

impl<'a> RunState for StateLists<'a> {
    fn set_clock(&mut self, clock: u64) {
        self.clock = clock;
    }

    fn set_completed(&mut self, row: usize, value: u64) {
        self.completed[row] = value;
    }

    fn set_used(&mut self, row: usize, value: u64) {
        self.used[row] = value;
    }
}
