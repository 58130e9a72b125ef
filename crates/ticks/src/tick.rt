// The call tick.

ghost use Rattle.std.specs.Prelude.{◌≡◌, ◌≤◌, ◌<◌, length, OnErr};
ghost use Rattle.table.specs.Refusals.{last_clock};
ghost use Rattle.guards.specs.Moment.{state_with};
ghost use Rattle.guards.specs.Rows.{plan_from};
ghost use Rattle.guards.specs.Lent.{Long, tick_on_lists};
ghost use Rattle.guards.specs.Calls as calls;
ghost use Rattle.guards.specs.Calls.{TickOutcome};
ghost use Rattle.guards.specs.InRows.{rows_of};
ghost use Rattle.ticks.specs.Numbers.{numbers};
ghost use Rattle.ticks.specs.Steps.{Placed, Working, readied};
ghost use Rattle.ticks.specs.Ticking.{Going, Listed, clock_tick, rows_tick};

use crate::done::{check_bytes, check_ends};
use crate::release::{busy_processors, let_go, open_guards};
use crate::running::running_rows;
use crate::work::work;
use fitting::fits::rows_fit;
use guards::rows::PlanRows;
use guards::run::RunState;
use guards::state::LAST_CLOCK;
use planned::rows::view_rows;
use table::refusal::Refusal;
use table::view::TableView;

// Steps 1 to 4; the clock after them is one more.
// Table, state and lists are no struct, here and below: the state is lent by &mut and the others shared, and one of both is no plainer.
fn ready<T: TableView, S: RunState>(
    table: &T,
    state: &mut S,
    rows: &PlanRows<'_>,
    running: &[Option<usize>],
    done: &[u8],
)
    requires reads { Working rows.now.count (T.table table.now).processor (numbers running.now) done.now (S.state state.old).completed (S.state state.old).used }
    requires placed { Placed rows.now.count (T.table table.now).processor × (rows.now.count ≤ length rows.now.firsts.now) }
    requires long { Long rows.now.count (S.state state.old) }
    requires clock_below { (S.state state.old).clock < last_clock }
    ensures same_place { S.names state.new ≡ S.names state.old }
    ensures state { S.state state.new ≡ state_with rows.now.count (readied (rows_of rows.now) (T.table table.now).processor (numbers running.now) done.now (S.state state.old)) (S.state state.old) }
{
    work(table, state, rows.count, running, done);
    let busy = busy_processors(table, state, rows.count);
    open_guards(table, state, rows, &busy);
}

// A tick whose done list and release list are right: 13, 11, 12, and the steps.
fn tick_done<T: TableView, S: RunState>(
    table: &T,
    state: &mut S,
    rows: &PlanRows<'_>,
    done: &[u8],
    released: &mut [u8],
) -> Result<u64, Refusal>
    requires { Going (rows_of rows.now) (T.table table.now).processors (T.table table.now).processor (T.table table.now).priority (T.table table.now).time (S.state state.old) done.now released.old }
    ensures same_place { S.names state.new ≡ S.names state.old }
    ensures kept { OnErr result (state.new ≡ state.old) }
    ensures outcome { ◌≡◌ {A = TickOutcome} (record { outcome = record { answer = result; state = S.state state.new }; released = released.new }) (clock_tick (T.table table.now).processors (plan_from rows.now.count rows.now.periods.now rows.now.firsts.now (T.table table.now).processor (T.table table.now).priority (T.table table.now).time) (S.state state.old) done.now released.old) }
{
    let clock = state.clock();
    if clock == LAST_CLOCK {
        return Err(Refusal::ClockAtEnd);
    }
    let running = running_rows(table, state, rows.count);
    check_bytes(done, &running)?;
    check_ends(table, state, done, &running)?;
    ready(table, state, rows, &running, done);
    let_go(state, rows, released);
    Ok(clock + 1)
}

// A tick of a plan's rows: 14, 10, 7, and the rest.
fn tick_rows<T: TableView, S: RunState>(
    table: &T,
    state: &mut S,
    rows: &PlanRows<'_>,
    done: &[u8],
    released: &mut [u8],
) -> Result<u64, Refusal>
    requires { Listed (rows_of rows.now) (T.table table.now).processors (T.table table.now).processor (T.table table.now).priority (T.table table.now).time }
    ensures same_place { S.names state.new ≡ S.names state.old }
    ensures kept { OnErr result (state.new ≡ state.old) }
    ensures outcome { ◌≡◌ {A = TickOutcome} (record { outcome = record { answer = result; state = S.state state.new }; released = released.new }) (rows_tick (T.table table.now).processors (rows_of rows.now) (T.table table.now).processor (T.table table.now).priority (T.table table.now).time (S.state state.old) done.now released.old) }
{
    if !rows_fit(rows, table, state) {
        return Err(Refusal::StateDoesNotFit);
    }
    let processors = table.processors();
    if done.len() as u64 != processors {
        return Err(Refusal::WrongDoneLength(processors));
    }
    if released.len() < rows.count {
        return Err(Refusal::TooShort(rows.count as u64));
    }
    tick_done(table, state, rows, done, released)
}

// One tick. The done list has a byte for each processor, and the release list gets one for each row.
pub fn tick<T: TableView, S: RunState>(
    table: &T,
    state: &mut S,
    done: &[u8],
    released: &mut [u8],
) -> Result<u64, Refusal>
    ensures same_place { S.names state.new ≡ S.names state.old }
    ensures kept { OnErr result (state.new ≡ state.old) }
    ensures outcome { ◌≡◌ {A = TickOutcome} (record { outcome = record { answer = result; state = S.state state.new }; released = released.new }) (tick_on_lists (T.table table.now) (S.state state.old) released.old (calls.tick (T.table table.now) (S.state state.old) done.now released.old)) }
{
    // Two lists side by side: `view_rows` fills the two that its contract names.
    let mut periods = [0; 128];
    let mut firsts = [false; 128];
    let count = view_rows(table, &mut periods, &mut firsts)? as usize;
    let rows = PlanRows {
        count,
        periods: &periods,
        firsts: &firsts,
    };
    tick_rows(table, state, &rows, done, released)
}
