// What holds a run state: a state by value, or lent number lists.

ghost use Rattle.std.specs.Prelude.{◌≡◌, ℕ, ◌<◌, List, length};
ghost use Rattle.table.specs.Table.{at};
ghost use Rattle.guards.specs.declared.state.State.{State};
ghost use Rattle.guards.specs.Lent.{holds};
ghost use Rattle.guards.specs.Stored.{with_clock, with_completed, with_guard, with_released, with_used};

// A state as a check reads it.
pub trait StateView {
    // The state that it holds.
    ghost state: { Self → State };

    fn clock(&self) -> u64
        ensures { result ≡ (state self.now).clock };

    // Whether each list has an entry for each of so many rows.
    fn rows_held(&self, n: usize) -> bool
        ensures { result ≡ holds n (state self.now).released (state self.now).completed (state self.now).used (state self.now).guard };

    fn released(&self, row: usize) -> u64
        requires { row < length (state self.now).released }
        ensures { result ≡ at (state self.now).released row };

    fn completed(&self, row: usize) -> u64
        requires { row < length (state self.now).completed }
        ensures { result ≡ at (state self.now).completed row };

    fn used(&self, row: usize) -> u64
        requires { row < length (state self.now).used }
        ensures { result ≡ at (state self.now).used row };

    fn guard(&self, row: usize) -> u64
        requires { row < length (state self.now).guard }
        ensures { result ≡ at (state self.now).guard row };
}

// A state as an arrival writes it.
pub trait ArrivalState: StateView {
    // The names of the `&mut`s that it holds, which no call changes.
    ghost names: { Self → List ℕ };

    fn set_released(&mut self, row: usize, value: u64)
        requires { row < length (Self.state self.old).released }
        ensures same_place { names self.new ≡ names self.old }
        ensures state { Self.state self.new ≡ with_released (Self.state self.old) row value };

    fn set_guard(&mut self, row: usize, value: u64)
        requires { row < length (Self.state self.old).guard }
        ensures same_place { names self.new ≡ names self.old }
        ensures state { Self.state self.new ≡ with_guard (Self.state self.old) row value };
}

// A state as a fresh start and a tick write it.
pub trait RunState: ArrivalState {
    fn set_clock(&mut self, clock: u64)
        ensures same_place { Self.names self.new ≡ Self.names self.old }
        ensures state { Self.state self.new ≡ with_clock (Self.state self.old) clock };

    fn set_completed(&mut self, row: usize, value: u64)
        requires { row < length (Self.state self.old).completed }
        ensures same_place { Self.names self.new ≡ Self.names self.old }
        ensures state { Self.state self.new ≡ with_completed (Self.state self.old) row value };

    fn set_used(&mut self, row: usize, value: u64)
        requires { row < length (Self.state self.old).used }
        ensures same_place { Self.names self.new ≡ Self.names self.old }
        ensures state { Self.state self.new ≡ with_used (Self.state self.old) row value };
}
