// The calls on a state by value: each answers with the state after it, and the one that was given stays.
// They stand beside the calls on a kept state, since document 01 names both forms (docs/DECISIONS.md).

ghost use Rattle.std.specs.Prelude.{◌≡◌};
ghost use Rattle.guards.specs.Calls as calls;
ghost use Rattle.guards.specs.Calls.{TickOutcome, fresh_start};
ghost use Rattle.guards.specs.Outcome.{Outcome};

use crate::{arrive, fresh, tick};
use guards::state::State;
use table::refusal::Refusal;
use table::view::TableView;

// A run begins: 5; the clock and the plan's rows are 0.
pub fn fresh_start<T: TableView>(table: &T, state: State) -> (Result<u64, Refusal>, State)
    ensures { ◌≡◌ {A = Outcome} (record { answer = result.0; state = result.1 }) (fresh_start (T.table table.now) state) }
{
    let mut next = state;
    let answer = fresh::fresh_start(table, &mut next);
    (answer, next)
}

// An instance of the task arrives at its first row: 5, 14, 8, 9; the answer is the number of that row.
pub fn arrive<T: TableView>(table: &T, state: State, task: u64) -> (Result<u64, Refusal>, State)
    ensures { ◌≡◌ {A = Outcome} (record { answer = result.0; state = result.1 }) (calls.arrive (T.table table.now) state task) }
{
    let mut next = state;
    let answer = arrive::arrive(table, &mut next, task);
    (answer, next)
}

// One tick: 5, 14, 10, 7, 13, 11, 12; the answer is the new clock. The done list has a byte for each processor, and the release list
// gets one for each row.
pub fn tick<T: TableView>(
    table: &T,
    state: State,
    done: &[u8],
    released: &mut [u8],
) -> (Result<u64, Refusal>, State)
    ensures { ◌≡◌ {A = TickOutcome} (record { outcome = record { answer = result.0; state = result.1 }; released = released.new }) (calls.tick (T.table table.now) state done.now released.old) }
{
    let mut next = state;
    let answer = tick::tick(table, &mut next, done, released);
    (answer, next)
}
