// Steps 1 to 3 of a tick: the running rows use it, those that are done complete, and the clock moves on.

ghost use Rattle.std.specs.Prelude.{◌≡◌, suc, eqb, cond, ◌&&◌, ◌+◌, ◌≤◌, ◌<◌};
ghost use Rattle.table.specs.Refusals.{last_clock};
ghost use Rattle.table.specs.Table.{at};
ghost use Rattle.guards.specs.Lent.{Long};
ghost use Rattle.guards.specs.Moment.{moment_of, state_with};
ghost use Rattle.guards.specs.Stored.{with_completed, with_used};
ghost use Rattle.ticks.specs.Numbers.{number, numbers};
ghost use Rattle.ticks.specs.Steps.{Working, ends_in, ran, runs_in};

use guards::run::RunState;
use table::view::TableView;

// The ticks that a row's open instance has used after the tick.
fn used_after(runs: bool, ends: bool, used: u64) -> u64
    requires { used ≤ 1000000 }
    ensures { result ≡ cond runs (cond ends 0 (used + 1)) used }
{
    if runs {
        if ends {
            return 0;
        }
        return used + 1;
    }
    used
}

// Whether the row that runs on a processor is this one.
#[tactic(auto, unfolding(crate::specs::Numbers::number))]
fn is_row(running: Option<usize>, row: usize) -> bool
    ensures { result ≡ eqb (number running) (suc row) }
{
    running == Some(row)
}

// What a row has completed and used after the tick.
fn work_row<S: RunState>(state: &mut S, row: usize, runs: bool, ends: bool)
    requires long { Long (row + 1) (S.state state.old) }
    requires completed_most { at (S.state state.old).completed row ≤ last_clock + 1 }
    requires used_most { at (S.state state.old).used row ≤ 1000000 }
    ensures same_place { S.names state.new ≡ S.names state.old }
    ensures state { S.state state.new ≡ with_used (with_completed (S.state state.old) row (cond (runs && ends) (at (S.state state.old).completed row + 1) (at (S.state state.old).completed row))) row (cond runs (cond ends 0 (at (S.state state.old).used row + 1)) (at (S.state state.old).used row)) }
{
    let completed = state.completed(row);
    let used = state.used(row);
    state.set_completed(row, completed + u64::from(runs && ends));
    state.set_used(row, used_after(runs, ends, used));
}

// The running rows use the tick, those that are done complete, and the clock moves on.
// Table, state and lists are no struct: the state is lent by &mut and the others shared, and one of both is no plainer.
pub(crate) fn work<T: TableView, S: RunState>(
    table: &T,
    state: &mut S,
    rows: usize,
    running: &[Option<usize>],
    done: &[u8],
)
    requires reads { Working rows (T.table table.now).processor (numbers running.now) done.now (S.state state.old).completed (S.state state.old).used }
    requires long { Long rows (S.state state.old) }
    requires clock_below { (S.state state.old).clock < last_clock }
    ensures same_place { S.names state.new ≡ S.names state.old }
    ensures state { S.state state.new ≡ state_with rows (ran (runs_in (T.table table.now).processor (numbers running.now)) (ends_in (T.table table.now).processor done.now) (moment_of (S.state state.old))) (S.state state.old) }
{
    state.set_clock(state.clock() + 1);
    for row in 0..rows {
        let on = table.processor(row) as usize;
        work_row(state, row, is_row(running[on], row), done[on - 1] == 1);
    }
}
