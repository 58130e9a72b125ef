// The plan that document 01 prints, as a table, and the guards' calls on it.

ghost use Rattle.std.specs.Prelude.{◌<◌};

use arrivals::arrive::arrive;
use arrivals::fresh::fresh_start;
use guards::state::State;
use planned::lists::TableLists;
use table::refusal::Refusal;
use ticks::tick::tick;

// The rows of the plan.
pub(crate) const ROWS: usize = 4;

// The time of each row.
const TIMES: [u64; ROWS] = [2, 2, 2, 3];

// The plan: two processors, three tasks, four rows.
fn paper() -> TableLists<'static> {
    TableLists {
        processors: 2,
        tasks: 3,
        period: &[4, 6, 6],
        deadline: &[0, 0, 0],
        steps: &[1, 2, 1],
        processor: &[1, 1, 2, 2],
        priority: &[2, 1, 2, 1],
        time: &TIMES,
    }
}

// A fresh start; the plan is one, so that none is refused.
pub(crate) fn started() -> State {
    let mut state = State {
        clock: 0,
        released: [0u64; 128],
        completed: [0u64; 128],
        used: [0u64; 128],
        guard: [0u64; 128],
    };
    let _ = fresh_start(&paper(), &mut state);
    state
}

// An instance of the task arrives.
pub(crate) fn arrived(state: &mut State, task: u64) -> Result<u64, Refusal> {
    arrive(&paper(), state, task)
}

// One tick.
pub(crate) fn ticked(state: &mut State, done: &[u8], released: &mut [u8]) -> Result<u64, Refusal> {
    tick(&paper(), state, done, released)
}

// Whether the row, counted from 0, has an instance open.
fn is_open(state: &State, row: usize) -> bool
    requires { row < 4 }
{
    state.completed[row] < state.released[row]
}

// The done byte by which the row's instance takes its full time.
fn last_tick(state: &State, row: usize) -> u8
    requires { row < 4 }
{
    u8::from(TIMES[row].checked_sub(state.used[row]) == Some(1))
}

// The done byte by which what runs on a processor takes its full time, given the processor's two rows: the other one runs
// where the urgent one has nothing open.
pub(crate) fn full_time(state: &State, urgent: usize, other: usize) -> u8
    requires { (urgent < 4) × (other < 4) }
{
    if is_open(state, urgent) {
        return last_tick(state, urgent);
    }
    if is_open(state, other) {
        return last_tick(state, other);
    }
    0
}
